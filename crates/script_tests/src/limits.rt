use crate::shown::script_counted;
use base_bytes::{Bytes, NoMemory};
use std::alloc::Global;
use std::test::*;

/// So many lines, and others behind them.
fn repeated(
    alloc: Global,
    front: &[u8],
    line: &[u8],
    count: usize,
    back: &[u8],
) -> Result<Bytes, NoMemory> {
    let mut script = Bytes::from_slice(alloc, front)?;
    for _ in 0..count {
        script.extend(alloc, line)?;
    }
    script.extend(alloc, back)?;
    Ok(script)
}

/// A text of lines, the line that stands behind it so often, and what stands behind those; and how many lines are read, or
/// which one is refused.
type Case = (
    &'static str,
    &'static str,
    usize,
    &'static str,
    Result<usize, u32>,
);

const CASES: [Case; 17] = [
    // 100,000 lines and one more, whatever it holds; the last one may lack its line feed.
    ("", "\n", 100_000, "", Ok(100_000)),
    ("", "#\n", 99_999, "#", Ok(100_000)),
    ("", "\n", 100_001, "", Err(100_001)),
    ("", "\n", 100_000, " ", Err(100_001)),
    ("", "#\r\n", 100_000, "\t", Err(100_001)),
    ("", "\n", 99_999, "x\nx\n", Err(100_000)),
    ("x\n", "\n", 100_000, "", Err(1)),
    // 8,192 lines that make a message, and one more of each kind.
    ("replica a\n", "ask a\n", 8_192, "", Ok(8_193)),
    (
        "replica a\n",
        "ask a\n",
        8_192,
        "take a 8192\nact a f()\nfacts a\n",
        Ok(8_196),
    ),
    ("replica a\n", "ask a\n", 8_192, "take a 8193\n", Err(8_194)),
    ("replica a\n", "ask a\n", 8_192, "#\nask a\n", Err(8_195)),
    (
        "replica a\n",
        "inject 00\n",
        8_192,
        "next a 1\n",
        Err(8_194),
    ),
    (
        "replica a\ninject 00\n",
        "next a 1\n",
        8_191,
        "answer a 1\n",
        Err(8_194),
    ),
    (
        "replica a\ninject 00\n",
        "answer a 1\n",
        8_191,
        "inject 00\n",
        Err(8_194),
    ),
    (
        "replica a\ninject 00\n",
        "answer a 1\n",
        8_190,
        "inject 00\n",
        Ok(8_193),
    ),
    // Eight replicas, and a ninth.
    (
        "replica a\nreplica b\nreplica c\nreplica d\nreplica e\nreplica f\nreplica g\nreplica h\n",
        "facts h\n",
        2,
        "",
        Ok(10),
    ),
    (
        "replica a\nreplica b\nreplica c\nreplica d\nreplica e\nreplica f\nreplica g\nreplica h\n",
        "facts h\n",
        2,
        "replica i\n",
        Err(11),
    ),
];

#[test]
fn scripts_have_limits(rt: HostRuntime) -> Result<(), Fail> {
    let alloc = rt.alloc();
    for (front, line, count, back, want) in CASES {
        let script = repeated(
            alloc,
            front.as_bytes(),
            line.as_bytes(),
            count,
            back.as_bytes(),
        )?;
        let found = script_counted(alloc, script.as_slice())?;
        assert!(rt; found == want, "{line}, {back}");
    }
    Ok(())
}
