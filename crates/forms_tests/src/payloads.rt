ghost use Rattle.std.specs.Prelude.{◌<◌, ◌^◌, length, IsTrue, IfOk};
ghost use Rattle.base_bytes.specs.Payload.{is_short};

use base_bytes::{Bytes, Id, NoMemory, Text, Value, encode_value, sha256};
use sqlite_items::{Boxed, Items};
use std::alloc::Global;
use std::process::Abort;
use std::test::*;

// The digests that the standard publishes.
#[test]
fn digests_are_the_published_ones(rt: HostRuntime) -> Result<(), Fail> {
    for (message, want) in [
        (
            "",
            "e3b0c44298fc1c149afbf4c8996fb92427ae41e4649b934ca495991b7852b855",
        ),
        (
            "abc",
            "ba7816bf8f01cfea414140de5dae2223b00361a396177a9cb410ff61f20015ad",
        ),
    ] {
        let digest = hex::encode(rt.alloc(), sha256(message.as_bytes()).as_slice())?;
        assert_eq!(rt; digest.as_str(), want, "of {message}");
    }
    Ok(())
}

fn assert_spelled(rt: &impl Abort, alloc: Global, value: &Value, want: &str) -> Result<(), NoMemory>
    requires { IsTrue (is_short value.now) }
{
    let mut bytes = Bytes::new(alloc);
    encode_value(alloc, value, &mut bytes)?;
    let text = hex::encode(alloc, bytes.as_slice())?;
    assert_eq!(rt; text.as_str(), want);
    Ok(())
}

#[test]
fn each_kind_is_spelled(rt: HostRuntime) -> Result<(), Fail> {
    let alloc = rt.alloc();
    assert_spelled(&rt, alloc, &Value::Int(258), "0000000000000102")?;
    assert_spelled(&rt, alloc, &Value::Int(-2), "fffffffffffffffe")?;
    assert_spelled(&rt, alloc, &Value::Bool(false), "00")?;
    assert_spelled(&rt, alloc, &Value::Bool(true), "01")?;
    let raw = Bytes::from_slice(alloc, &[255, 0])?;
    assert_spelled(&rt, alloc, &Value::Raw(raw), "00000002ff00")?;
    let id = Value::Ident(Id::new([171; 32]));
    let want = "abababababababababababababababababababababababababababababababab";
    assert_spelled(&rt, alloc, &id, want)?;
    assert_spelled(&rt, alloc, &Value::Enum(9, 258), "0102")?;
    assert_spelled(&rt, alloc, &Value::Nothing, "00")?;
    let inner = Boxed::new(alloc, Value::Bool(true))?;
    assert_spelled(&rt, alloc, &Value::Some(inner), "0101")?;
    Ok(())
}

// A note of two texts with a number between them.
fn note(alloc: Global, topic: &str, number: i64, text: &str) -> Result<Value, NoMemory>
    requires topic { length topic.now < 2 ^ 32 }
    requires text { length text.now < 2 ^ 32 }
    ensures { IfOk result (λ value. IsTrue (is_short value)) }
{
    let mut fields = Items::new(alloc);
    fields.push(Value::Str(Text::from_slice(alloc, topic)?))?;
    fields.push(Value::Int(number))?;
    fields.push(Value::Str(Text::from_slice(alloc, text)?))?;
    Ok(Value::Struct(0, fields))
}

#[test]
fn fields_follow_one_another(rt: HostRuntime) -> Result<(), Fail> {
    let note = note(rt.alloc(), "plan", 1, "ship")?;
    let want = "00000004706c616e00000000000000010000000473686970";
    assert_spelled(&rt, rt.alloc(), &note, want)?;
    Ok(())
}
