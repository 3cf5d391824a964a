//! Commands: their sections and their attributes.

pub const ROWS: &str = "# ok 1: the four sections that each command has
command C { fields { } SEAL OPEN policy { } }
# ok 1: all six sections, in another order
command C { recall { } policy { } attributes { init: true } OPEN fields { } SEAL }
# type, line 5: no fields
command C { SEAL OPEN policy { } }
# type, line 5: no seal
command C { fields { } OPEN policy { } }
# type, line 5: no open
command C { fields { } SEAL policy { } }
# type, line 5: no policy
command C { fields { } SEAL OPEN }
# type, line 5: fields twice
command C { fields { } fields { } SEAL OPEN policy { } }
# type, line 5: seal twice
command C { fields { } SEAL SEAL OPEN policy { } }
# type, line 5: open twice
command C { fields { } SEAL OPEN OPEN policy { } }
# type, line 5: policy twice
command C { fields { } SEAL OPEN policy { } policy { } }
# ok 1: recall once
command C { fields { } SEAL OPEN policy { } recall { } }
# type, line 5: recall twice
command C { fields { } SEAL OPEN policy { } recall { } recall { } }
# ok 1: attributes once
command C { attributes { priority: 1 } fields { } SEAL OPEN policy { } }
# type, line 5: attributes twice
command C { attributes { priority: 1 } attributes { } fields { } SEAL OPEN policy { } }
# ok 1: no attribute
command C { attributes { } fields { } SEAL OPEN policy { } }
# type, line 5: two attributes
command C { attributes { init: true, priority: 1 } fields { } SEAL OPEN policy { } }
# type, line 5: two marks
command C { attributes { init: true, finalize: true } fields { } SEAL OPEN policy { } }
# type, line 5: one attribute twice
command C { attributes { priority: 1, priority: 1 } fields { } SEAL OPEN policy { } }
# ok 1: a mark that is false is as if it were absent
command C { attributes { init: false, priority: 1, finalize: false } fields { } SEAL OPEN policy { } }
# ok 1: the one mark that is true
command C { attributes { init: false, finalize: true } fields { } SEAL OPEN policy { } }
# type, line 5: a mark without a truth
command C { attributes { init: 1 } fields { } SEAL OPEN policy { } }
# type, line 5: a mark with a text
command C { attributes { finalize: \"true\" } fields { } SEAL OPEN policy { } }
# type, line 5: a priority with a truth
command C { attributes { priority: true } fields { } SEAL OPEN policy { } }
# ok 1: the least priority
command C { attributes { priority: 0 } fields { } SEAL OPEN policy { } }
# type, line 5: a priority below it
command C { attributes { priority: -1 } fields { } SEAL OPEN policy { } }
# ok 1: the greatest priority
command C { attributes { priority: 4294967295 } fields { } SEAL OPEN policy { } }
# type, line 5: a priority above it
command C { attributes { priority: 4294967296 } fields { } SEAL OPEN policy { } }
# type, line 5: another attribute
command C { attributes { speed: 1 } fields { } SEAL OPEN policy { } }";
