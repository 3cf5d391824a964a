// Each way in which a command passes, is recalled or is void.
use crate::graphs::Field::{Int, Other};
use crate::graphs::Kind::{Basic, Init};
use crate::graphs::Step;
use crate::runs::Run;

const WAYS: &str = r#"---
policy-version: 2
---
```policy
fact Row[n int]=>{v int}
effect Seen { n int }
effect Late { n int }
command Start { attributes { init: true } fields { } seal { return envelope::do_seal(serialize(this)) } open { return deserialize(envelope::do_open(envelope)) } policy { finish { } } }
command Pass { fields { n int } seal { return envelope::do_seal(serialize(this)) } open { return deserialize(envelope::do_open(envelope)) }
  policy { finish { create Row[n: this.n]=>{v: 1} emit Seen { n: this.n } } } }
command Quiet { fields { n int } seal { return envelope::do_seal(serialize(this)) } open { return deserialize(envelope::do_open(envelope)) }
  policy { check this.n > 100 finish { emit Seen { n: this.n } } } }
command Recalls { fields { n int } seal { return envelope::do_seal(serialize(this)) } open { return deserialize(envelope::do_open(envelope)) }
  policy { check false finish { emit Seen { n: this.n } } }
  recall { finish { create Row[n: this.n]=>{v: 2} emit Late { n: this.n } } } }
command RecallChecks { fields { n int } seal { return envelope::do_seal(serialize(this)) } open { return deserialize(envelope::do_open(envelope)) }
  policy { check false finish { emit Seen { n: this.n } } }
  recall { check false finish { emit Late { n: this.n } } } }
command RecallFaults { fields { n int } seal { return envelope::do_seal(serialize(this)) } open { return deserialize(envelope::do_open(envelope)) }
  policy { check false finish { emit Seen { n: this.n } } }
  recall { finish { emit Late { n: this.n } create Row[n: this.n]=>{v: 3} create Row[n: this.n]=>{v: 4} } } }
command Faults { fields { n int } seal { return envelope::do_seal(serialize(this)) } open { return deserialize(envelope::do_open(envelope)) }
  policy { let v = unwrap query Row[n: this.n] finish { emit Seen { n: v.n } } }
  recall { finish { emit Late { n: this.n } } } }
command Twice { fields { n int } seal { return envelope::do_seal(serialize(this)) } open { return deserialize(envelope::do_open(envelope)) }
  policy { finish { create Row[n: this.n]=>{v: 5} emit Seen { n: this.n } delete Row[n: 77] } } }
```
"#;

/// One behind the other, so the order of the braid is that in which they stand.
pub const OUTCOMES: [Run; 1] = [Run {
    title: "each way to pass, to be recalled and to be void",
    document: WAYS,
    steps: &[
        Step(Init, 1, "Start", &[]),
        Step(Basic(0, 0), 1, "Pass", &[Int(1)]),
        Step(Basic(0, 1), 1, "Quiet", &[Int(7)]),
        Step(Basic(0, 2), 1, "Recalls", &[Int(2)]),
        Step(Basic(0, 3), 1, "RecallChecks", &[Int(3)]),
        Step(Basic(0, 4), 1, "RecallFaults", &[Int(4)]),
        Step(Basic(0, 5), 1, "Faults", &[Int(5)]),
        Step(Basic(0, 6), 1, "Faults", &[Int(1)]),
        Step(Basic(0, 7), 1, "Twice", &[Int(6)]),
        Step(Basic(0, 8), 1, "Nope", &[Int(8)]),
        Step(Basic(0, 9), 1, "Pass", &[Other(b"seven b")]),
        Step(Basic(0, 10), 1, "Pass", &[Int(1)]),
    ],
    outcomes: "pprrvvvpvvvv",
    facts: "facts a: 2\n  Row[n: 1]=>{v: 1}\n  Row[n: 2]=>{v: 2}\n",
    effects: "effects a: 3\n  Seen { n: 1 }\n  Late { n: 2 } recalled\n  Seen { n: 1 }\n",
}];
