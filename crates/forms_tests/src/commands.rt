ghost use Rattle.std.specs.Prelude.{◌≡◌, IfOk};
ghost use Rattle.command.specs.Wire.{IsInForm};

use base_bytes::{Bytes, Id, NoMemory, Tag, Text, Value, encode_value};
use command::{Command, basic_body, body_of, finalize_body, id_of, init_body, to_bytes};
use std::alloc::Global;
use std::process::Abort;
use std::test::*;

const DIGEST: [u8; 32] = [17; 32];

const AUTHOR: [u8; 32] = [34; 32];

const PARENT: [u8; 32] = [51; 32];

const SEAL: [u8; 32] = [68; 32];

// What a command must be, in hex: the bytes by hand from the form, the id as another program's SHA-256 makes it of them.
#[derive(Clone, Copy)]
struct Form {
    size: usize,
    body: &'static str,
    after_body: &'static str,
    id: &'static str,
}

const TAG: &str = "204444444444444444444444444444444444444444444444444444444444444444";

const START: Form = Form {
    size: 110,
    body: "0100111111111111111111111111111111111111111111111111111111111111111122222222222222222222222222222222222222222222222222222222222222220005537461727400000000",
    after_body: TAG,
    id: "7a3edf216e0c2dadeae507b925d7534e714b461e1eeaf87084b2f479fe809461",
};

const PUT: Form = Form {
    size: 120,
    body: "010100000007333333333333333333333333333333333333333333333333333333333333333322222222222222222222222222222222222222222222222222222222222222220003507574000000080000000000000001",
    after_body: TAG,
    id: "f47027e4926d2dd9c9afdff42bf0e74b416d50de690ba7e72aebf7ac8c142244",
};

const CLOSE: Form = Form {
    size: 110,
    body: "0102333333333333333333333333333333333333333333333333333333333333333322222222222222222222222222222222222222222222222222222222222222220005436c6f736500000000",
    after_body: TAG,
    id: "342464b06388637fdc7f368aeb1f5f21e6d21836546fd0c4bbe14bf5816236b6",
};

const MERGE: Form = Form {
    size: 66,
    body: "010301010101010101010101010101010101010101010101010101010101010101010202020202020202020202020202020202020202020202020202020202020202",
    after_body: "",
    id: "5ec9bbc8e183925852498a007d411736b0386f0f70ba3d925a690c9d87dfcfdb",
};

const START_WITH_CUT: Form = Form {
    size: 114,
    body: "020000000000111111111111111111111111111111111111111111111111111111111111111122222222222222222222222222222222222222222222222222222222222222220005537461727400000000",
    after_body: TAG,
    id: "0dff091bd9b5da4f31caa2f590d19564d4266f39139bd28296c8ec58ff33372a",
};

const PUT_WITH_CUT: Form = Form {
    size: 124,
    body: "02010000000100000007333333333333333333333333333333333333333333333333333333333333333322222222222222222222222222222222222222222222222222222222222222220003507574000000080000000000000001",
    after_body: TAG,
    id: "889ab4c05bdb6dddf0ba76882de2b5bf8acde4957d9093914ef8999c720ead1b",
};

const CLOSE_WITH_CUT: Form = Form {
    size: 114,
    body: "02020000ffff333333333333333333333333333333333333333333333333333333333333333322222222222222222222222222222222222222222222222222222222222222220005436c6f736500000000",
    after_body: TAG,
    id: "a107be43ad408d342053fd90f355bbde97e1d7b126340e4b0065408e77706d95",
};

const MERGE_WITH_CUT: Form = Form {
    size: 70,
    body: "02030102030401010101010101010101010101010101010101010101010101010101010101010202020202020202020202020202020202020202020202020202020202020202",
    after_body: "",
    id: "436b5e738d0072d8246e5b0caf6730147674eedc70f60b58a2d31f242fc74707",
};

fn tag() -> Tag {
    Tag::from_slice(&SEAL).unwrap()
}

fn start(alloc: Global, cut: Option<u32>) -> Result<Command, NoMemory>
    ensures { IfOk result (λ command. IsInForm command) }
{
    Ok(Command::Init {
        cut,
        digest: Id::new(DIGEST),
        author: Id::new(AUTHOR),
        name: Text::from_slice(alloc, "Start")?,
        payload: Bytes::new(alloc),
        tag: tag(),
    })
}

fn put(alloc: Global, cut: Option<u32>) -> Result<Command, NoMemory>
    ensures { IfOk result (λ command. IsInForm command) }
{
    let mut payload = Bytes::new(alloc);
    encode_value(alloc, &Value::Int(1), &mut payload)?;
    Ok(Command::Basic {
        cut,
        priority: 7,
        parent: Id::new(PARENT),
        author: Id::new(AUTHOR),
        name: Text::from_slice(alloc, "Put")?,
        payload,
        tag: tag(),
    })
}

fn close(alloc: Global, cut: Option<u32>) -> Result<Command, NoMemory>
    ensures { IfOk result (λ command. IsInForm command) }
{
    Ok(Command::Finalize {
        cut,
        parent: Id::new(PARENT),
        author: Id::new(AUTHOR),
        name: Text::from_slice(alloc, "Close")?,
        payload: Bytes::new(alloc),
        tag: tag(),
    })
}

fn merge(cut: Option<u32>) -> Command
    ensures { IsInForm result }
{
    Command::Merge {
        cut,
        left: Id::new([1; 32]),
        right: Id::new([2; 32]),
    }
}

fn assert_hex(rt: &impl Abort, alloc: Global, bytes: &[u8], want: &str) -> Result<(), NoMemory> {
    let text = hex::encode(alloc, bytes)?;
    assert_eq!(rt; text.as_str(), want);
    Ok(())
}

// The body, made of the parts as before there is a tag.
fn body_of_parts(alloc: Global, command: &Command) -> Result<Bytes, NoMemory>
    requires { IsInForm command.now }
{
    match command {
        Command::Init {
            cut,
            digest,
            author,
            name,
            payload,
            ..
        } => init_body(alloc, *cut, digest, author, name, payload),
        Command::Basic {
            cut,
            priority,
            parent,
            author,
            name,
            payload,
            ..
        } => basic_body(alloc, *cut, *priority, parent, author, name, payload),
        Command::Finalize {
            cut,
            parent,
            author,
            name,
            payload,
            ..
        } => finalize_body(alloc, *cut, parent, author, name, payload),
        Command::Merge { .. } => body_of(alloc, command),
    }
}

fn assert_form(
    rt: &impl Abort,
    alloc: Global,
    command: &Command,
    want: &Form,
) -> Result<(), NoMemory>
    requires { IsInForm command.now }
{
    let bytes = to_bytes(alloc, command)?;
    assert_eq!(rt; bytes.len(), want.size);
    let text = hex::encode(alloc, bytes.as_slice())?;
    assert_eq!(rt;
        text.as_str().strip_prefix(want.body),
        Some(want.after_body)
    );
    assert_hex(rt, alloc, body_of(alloc, command)?.as_slice(), want.body)?;
    assert_hex(
        rt,
        alloc,
        body_of_parts(alloc, command)?.as_slice(),
        want.body,
    )?;
    assert_hex(rt, alloc, id_of(command).as_slice(), want.id)
}

#[test]
fn commands_have_their_form(rt: HostRuntime) -> Result<(), Fail> {
    let alloc = rt.alloc();
    assert_form(&rt, alloc, &start(alloc, None)?, &START)?;
    assert_form(&rt, alloc, &put(alloc, None)?, &PUT)?;
    assert_form(&rt, alloc, &close(alloc, None)?, &CLOSE)?;
    assert_form(&rt, alloc, &merge(None).copy(alloc)?, &MERGE)?;
    Ok(())
}

#[test]
fn commands_that_carry_their_cut_have_their_form(rt: HostRuntime) -> Result<(), Fail> {
    let alloc = rt.alloc();
    assert_form(&rt, alloc, &start(alloc, Some(0))?, &START_WITH_CUT)?;
    assert_form(&rt, alloc, &put(alloc, Some(1))?, &PUT_WITH_CUT)?;
    assert_form(&rt, alloc, &close(alloc, Some(65535))?, &CLOSE_WITH_CUT)?;
    let merge = merge(Some(16909060)).copy(alloc)?;
    assert_form(&rt, alloc, &merge, &MERGE_WITH_CUT)?;
    Ok(())
}
