use crate::written::{DIGEST, OTHER, journal_bytes, opened};
use journal::OpenFault;
use std::test::*;

// The gates stand at 0, 38, 162 and 296.
#[test]
fn a_journal_is_read(rt: HostRuntime) -> Result<(), Fail> {
    let alloc = rt.alloc();
    let bytes = journal_bytes(alloc, 2)?;
    assert!(rt; bytes.len() == 297);
    assert!(rt; opened(alloc, bytes.as_slice(), DIGEST) == Ok(2));
    let other = opened(alloc, bytes.as_slice(), OTHER);
    let digest = base_bytes::Id::new(DIGEST);
    assert!(rt; other == Err(OpenFault::OtherPolicy { digest }));
    Ok(())
}

// What a journal of two commands that is cut to so many bytes opens as.
fn cut(size: usize) -> Result<usize, OpenFault> {
    match size {
        0..=1 => Ok(0),
        2..=38 => Err(OpenFault::Damaged { offset: 0 }),
        39..=162 => Err(OpenFault::Damaged { offset: 38 }),
        163..=296 => Err(OpenFault::Damaged { offset: 162 }),
        _ => Ok(2),
    }
}

#[test]
fn a_journal_that_is_cut_is_damaged(rt: HostRuntime) -> Result<(), Fail> {
    let alloc = rt.alloc();
    let bytes = journal_bytes(alloc, 2)?;
    for size in 0..=bytes.len() {
        let front = bytes.get(..size).unwrap_or(&[]);
        assert!(rt; opened(alloc, front, DIGEST) == cut(size), "cut to {size}");
    }
    Ok(())
}

// A gate of 7 is closed.
#[test]
fn only_a_gate_of_1_is_open(rt: HostRuntime) -> Result<(), Fail> {
    let alloc = rt.alloc();
    for (place, held) in [(0, 0), (38, 0), (162, 1), (296, 2)] {
        for gate in [0, 7, 255] {
            let mut bytes = journal_bytes(alloc, 2)?;
            if let Some(byte) = bytes.get_mut(place) {
                *byte = gate;
            }
            assert!(rt;
                opened(alloc, bytes.as_slice(), DIGEST) == Ok(held),
                "{gate} at {place}"
            );
        }
    }
    Ok(())
}

// With any one byte set, it holds commits or is refused at one of its gates, or by its policy.
#[test]
fn a_changed_journal_is_read_or_refused(rt: HostRuntime) -> Result<(), Fail> {
    let alloc = rt.alloc();
    let size = journal_bytes(alloc, 2)?.len();
    for place in 0..size {
        for value in [0, 1, 255] {
            let mut bytes = journal_bytes(alloc, 2)?;
            if let Some(byte) = bytes.get_mut(place) {
                *byte = value;
            }
            let known = match opened(alloc, bytes.as_slice(), DIGEST) {
                Ok(held) => held <= 2,
                Err(OpenFault::Damaged { offset }) => matches!(offset, 0 | 38 | 162 | 296),
                Err(OpenFault::OtherPolicy { .. }) => (6..38).contains(&place),
                Err(_) => false,
            };
            assert!(rt; known, "{value} at {place}");
        }
    }
    Ok(())
}
