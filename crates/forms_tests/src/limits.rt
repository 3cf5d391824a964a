use crate::forms::{Form, bytes_of, written_again};
use base_bytes::NoMemory;
use std::alloc::Global;
use std::process::Abort;
use std::test::*;

const ID: [u8; 32] = [17; 32];

const MERGE: &str =
    "00000042 0103 0101010101010101010101010101010101010101010101010101010101010101 0202020202020202020202020202020202020202020202020202020202020202";

fn assert_taken(
    rt: &impl Abort,
    alloc: Global,
    form: Form,
    message: &[u8],
    taken: bool,
) -> Result<(), NoMemory> {
    let again = written_again(alloc, form, message)?;
    assert!(rt;
        again.is_some() == taken,
        "{form:?} of {} bytes",
        message.len()
    );
    Ok(())
}

#[test]
fn a_response_holds_a_merge_in_order(rt: HostRuntime) -> Result<(), Fail> {
    let alloc = rt.alloc();
    let graph =
        "0102 0000000000000000000000000000000000000000000000000000000000000000 00 00000000 00 01 00000042 0103";
    let high = "ffffffffffffffffffffffffffffffffffffffffffffffffffffffffffffffff";
    let low = "0000000000000000000000000000000000000000000000000000000000000000";
    for (left, right, taken) in [(high, low, false), (low, high, true), (low, low, false)] {
        let mut message = bytes_of(alloc, graph)?;
        message.extend_from_slice(&bytes_of(alloc, left)?)?;
        message.extend_from_slice(&bytes_of(alloc, right)?)?;
        assert_taken(&rt, alloc, Form::Response, &message, taken)?;
    }
    Ok(())
}

// A request with so many ids, and a place in hex.
fn request(alloc: Global, ids: u8, from: &str) -> Result<Vec<u8>, Fail> {
    let mut message = bytes_of(alloc, "0101")?;
    message.extend_from_slice(&ID)?;
    message.push(ids)?;
    for _ in 0..ids {
        message.extend_from_slice(&ID)?;
    }
    message.extend_from_slice(&bytes_of(alloc, from)?)?;
    Ok(message)
}

#[test]
fn requests_have_limits(rt: HostRuntime) -> Result<(), Fail> {
    let alloc = rt.alloc();
    for (ids, from, taken) in [
        (32, "00010000", true),
        (33, "00000000", false),
        (0, "00010001", false),
        (0, "00000001", true),
    ] {
        let message = request(alloc, ids, from)?;
        assert_taken(&rt, alloc, Form::Request, &message, taken)?;
        assert_taken(&rt, alloc, Form::Response, &message, false)?;
    }
    Ok(())
}

// A response with so many ids, a place and a mark of more in hex, and so many merges.
fn response(alloc: Global, ids: u8, from: &str, more: &str, merges: u8) -> Result<Vec<u8>, Fail> {
    let mut message = bytes_of(alloc, "0102")?;
    message.extend_from_slice(&ID)?;
    message.push(ids)?;
    for _ in 0..ids {
        message.extend_from_slice(&ID)?;
    }
    message.extend_from_slice(&bytes_of(alloc, from)?)?;
    message.extend_from_slice(&bytes_of(alloc, more)?)?;
    message.push(merges)?;
    for _ in 0..merges {
        message.extend_from_slice(&bytes_of(alloc, MERGE)?)?;
    }
    Ok(message)
}

#[test]
fn responses_have_limits(rt: HostRuntime) -> Result<(), Fail> {
    let alloc = rt.alloc();
    for (ids, from, more, merges, taken) in [
        (0, "00010000", "00", 0, true),
        (0, "00010000", "00", 1, false),
        (0, "00010001", "00", 0, false),
        (0, "0000ffff", "01", 1, true),
        (0, "00000000", "01", 0, false),
        (0, "00000000", "02", 1, false),
        (0, "00000000", "00", 64, true),
        (0, "00000000", "00", 65, false),
        (32, "00000000", "00", 1, true),
        (33, "00000000", "00", 1, false),
    ] {
        let message = response(alloc, ids, from, more, merges)?;
        assert_taken(&rt, alloc, Form::Response, &message, taken)?;
        assert_taken(&rt, alloc, Form::Request, &message, false)?;
    }
    Ok(())
}

#[test]
fn a_counted_command_ends_with_its_length(rt: HostRuntime) -> Result<(), Fail> {
    let alloc = rt.alloc();
    for (length, behind, taken) in [
        ("00000042", "", true),
        ("00000043", "00", false),
        ("00000042", "00", false),
        ("00000041", "", false),
    ] {
        let mut message = bytes_of(alloc, "0102")?;
        message.extend_from_slice(&ID)?;
        message.extend_from_slice(&bytes_of(alloc, "00 00000000 00 01")?)?;
        message.extend_from_slice(&bytes_of(alloc, length)?)?;
        message.extend_from_slice(&bytes_of(alloc, "0103")?)?;
        message.extend_from_slice(&[1; 32])?;
        message.extend_from_slice(&[2; 32])?;
        message.extend_from_slice(&bytes_of(alloc, behind)?)?;
        assert_taken(&rt, alloc, Form::Response, &message, taken)?;
    }
    Ok(())
}

// A finalize with a name in hex behind its length, so many bytes of payload, and so many of a tag.
fn finalize(alloc: Global, name: &str, payload: u16, tag: u8) -> Result<Vec<u8>, Fail> {
    let mut message = bytes_of(alloc, "0102")?;
    message.extend_from_slice(&ID)?;
    message.extend_from_slice(&ID)?;
    message.extend_from_slice(&bytes_of(alloc, name)?)?;
    message.extend_from_slice(&u32::from(payload).to_be_bytes())?;
    for _ in 0..payload {
        message.push(255)?;
    }
    message.push(tag)?;
    for _ in 0..tag {
        message.push(255)?;
    }
    Ok(message)
}

const LONGEST: &str =
    "0040 61616161616161616161616161616161 61616161616161616161616161616161 61616161616161616161616161616161 61616161616161616161616161616161";

const TOO_LONG: &str =
    "0041 6161616161616161616161616161616161 61616161616161616161616161616161 61616161616161616161616161616161 61616161616161616161616161616161";

#[test]
fn commands_have_limits(rt: HostRuntime) -> Result<(), Fail> {
    let alloc = rt.alloc();
    for (name, payload, tag, taken) in [
        (LONGEST, 4096, 64, true),
        ("0001 61", 4097, 0, false),
        ("0001 61", 0, 64, true),
        ("0001 61", 0, 65, false),
        (TOO_LONG, 0, 0, false),
        ("0000", 0, 0, false),
        ("0002 3161", 0, 0, false),
        ("0002 c3a9", 0, 0, false),
        ("0002 615f", 0, 0, true),
    ] {
        let message = finalize(alloc, name, payload, tag)?;
        assert_taken(&rt, alloc, Form::Command, &message, taken)?;
    }
    Ok(())
}
