use crate::forms::{Form, bytes_of, written_again};
use base_bytes::{Bytes, NoMemory};
use std::alloc::Global;
use std::process::Abort;
use std::test::*;

/// A message of each form, by hand.
const MESSAGES: [(Form, &str); 8] = [
    (
        Form::Note,
        "00000004 706c616e 0000000000000001 00000004 73686970",
    ),
    (
        Form::Command,
        "0100 1111111111111111111111111111111111111111111111111111111111111111 2222222222222222222222222222222222222222222222222222222222222222 0005 5374617274 00000000 20 4444444444444444444444444444444444444444444444444444444444444444",
    ),
    (
        Form::Command,
        "0101 00000007 3333333333333333333333333333333333333333333333333333333333333333 2222222222222222222222222222222222222222222222222222222222222222 0003 507574 00000008 0000000000000001 20 4444444444444444444444444444444444444444444444444444444444444444",
    ),
    (
        Form::Command,
        "0102 3333333333333333333333333333333333333333333333333333333333333333 2222222222222222222222222222222222222222222222222222222222222222 0005 436c6f7365 00000000 00",
    ),
    (
        Form::Command,
        "0103 0101010101010101010101010101010101010101010101010101010101010101 0202020202020202020202020202020202020202020202020202020202020202",
    ),
    (
        Form::Command,
        "0201 00000002 00000007 3333333333333333333333333333333333333333333333333333333333333333 2222222222222222222222222222222222222222222222222222222222222222 0003 507574 00000008 0000000000000001 20 4444444444444444444444444444444444444444444444444444444444444444",
    ),
    (
        Form::Request,
        "0101 1111111111111111111111111111111111111111111111111111111111111111 02 2222222222222222222222222222222222222222222222222222222222222222 3333333333333333333333333333333333333333333333333333333333333333 00000041",
    ),
    (
        Form::Response,
        "0102 1111111111111111111111111111111111111111111111111111111111111111 01 2222222222222222222222222222222222222222222222222222222222222222 00000041 01 01 00000042 0103 0101010101010101010101010101010101010101010101010101010101010101 0202020202020202020202020202020202020202020202020202020202020202",
    ),
];

// Nothing, or just these bytes.
fn is_none_or(again: Option<Bytes>, bytes: &[u8]) -> bool {
    match again {
        Some(again) => again.as_slice() == bytes,
        None => true,
    }
}

// Each front of the message is refused, and so is the message with a byte behind it. The message is written again as it was.
fn assert_whole(
    rt: &impl Abort,
    alloc: Global,
    form: Form,
    message: &mut Vec<u8>,
) -> Result<(), NoMemory> {
    let bytes = message.as_slice();
    for len in 0..bytes.len() {
        let again = written_again(alloc, form, &bytes[..len])?;
        assert!(rt; again.is_none(), "{form:?} cut at {len}");
    }
    let again = written_again(alloc, form, bytes)?;
    assert!(rt; again.is_some(), "{form:?}");
    assert!(rt; is_none_or(again, bytes), "{form:?} written again");
    message.push(0)?;
    let again = written_again(alloc, form, message.as_slice())?;
    assert!(rt; again.is_none(), "{form:?} and a byte");
    Ok(())
}

#[test]
fn cut_messages_are_refused(rt: HostRuntime) -> Result<(), Fail> {
    let alloc = rt.alloc();
    for (form, text) in MESSAGES {
        let mut message = bytes_of(alloc, text)?;
        assert_whole(&rt, alloc, form, &mut message)?;
    }
    Ok(())
}

// With one byte raised by one the message is refused, or is another one and written as that.
fn assert_raised(
    rt: &impl Abort,
    alloc: Global,
    form: Form,
    message: &mut [u8],
) -> Result<(), NoMemory> {
    for at in 0..message.len() {
        let byte = message[at];
        message[at] = byte.wrapping_add(1);
        let again = written_again(alloc, form, message)?;
        assert!(rt; is_none_or(again, message), "{form:?} raised at {at}");
        message[at] = byte;
    }
    Ok(())
}

#[test]
fn raised_messages_are_others_or_refused(rt: HostRuntime) -> Result<(), Fail> {
    let alloc = rt.alloc();
    for (form, text) in MESSAGES {
        let mut message = bytes_of(alloc, text)?;
        assert_raised(&rt, alloc, form, message.as_mut_slice())?;
    }
    Ok(())
}
