//! Policies with several items: the fault has the line of the first that isn't well typed.

pub const ROWS: &str = "# ok 0: no item
# type, line 5: both items are ill typed
function f(a int) bool { check a return true }
action g() { publish Nope { } }
# type, line 6: the second item is
function f(a bool) bool { check a return true }
action g() { publish Nope { } }
# type, line 7: an item that begins in a line before its name
use a

action
g() { check 1 } use b
action h() { check 1 }
# type, line 8: two items in a line
use a

action
g() { check true } action h() { check 1 }
use b";
