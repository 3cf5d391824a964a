ghost use Rattle.std.specs.Prelude.{IsTrue};
ghost use Rattle.base_bytes.specs.KeyOrder.{is_key};

use base_bytes::{Bytes, Id, NoMemory, Text, Value, compare};
use std::alloc::Global;
use std::cmp::Ordering;
use std::process::Abort;
use std::test::*;

fn assert_ascend(rt: &impl Abort, low: &Value, high: &Value)
    requires low { IsTrue (is_key low.now) }
    requires high { IsTrue (is_key high.now) }
{
    assert_eq!(rt; compare(low, high), Ordering::Less);
    assert_eq!(rt; compare(high, low), Ordering::Greater);
    assert_eq!(rt; compare(low, low), Ordering::Equal);
}

fn text(alloc: Global, text: &str) -> Result<Text, NoMemory> {
    Text::from_slice(alloc, text)
}

fn bytes(alloc: Global, bytes: &[u8]) -> Result<Bytes, NoMemory> {
    Bytes::from_slice(alloc, bytes)
}

#[test]
fn keys_of_one_kind_ascend(rt: HostRuntime) -> Result<(), Fail> {
    let alloc = rt.alloc();
    assert_ascend(&rt, &Value::Int(-2), &Value::Int(-1));
    assert_ascend(&rt, &Value::Int(-1), &Value::Int(1));
    assert_ascend(&rt, &Value::Bool(false), &Value::Bool(true));
    for (low, high) in [("", "a"), ("a", "aa"), ("aa", "b"), ("B", "a"), ("z", "é")] {
        assert_ascend(
            &rt,
            &Value::Str(text(alloc, low)?),
            &Value::Str(text(alloc, high)?),
        );
    }
    let low = Value::Raw(bytes(alloc, &[127])?);
    assert_ascend(&rt, &low, &Value::Raw(bytes(alloc, &[128])?));
    let mut other = [0; 32];
    other[31] = 1;
    let low = Value::Ident(Id::new([0; 32]));
    assert_ascend(&rt, &low, &Value::Ident(Id::new(other)));
    assert_ascend(&rt, &Value::Enum(1, 9), &Value::Enum(2, 0));
    assert_ascend(&rt, &Value::Enum(2, 0), &Value::Enum(2, 1));
    Ok(())
}

// Each kind comes before the next one, whatever the values are.
#[test]
fn keys_of_different_kinds_ascend(rt: HostRuntime) -> Result<(), Fail> {
    let alloc = rt.alloc();
    let number = Value::Int(9);
    let truth = Value::Bool(false);
    let high_text = Value::Str(text(alloc, "z")?);
    let low_bytes = Value::Raw(bytes(alloc, b"a")?);
    let id = Value::Ident(Id::new([0; 32]));
    let variant = Value::Enum(0, 0);
    assert_ascend(&rt, &number, &truth);
    assert_ascend(&rt, &truth, &high_text);
    assert_ascend(&rt, &high_text, &low_bytes);
    assert_ascend(&rt, &low_bytes, &id);
    assert_ascend(&rt, &id, &variant);
    assert_ascend(&rt, &number, &variant);
    Ok(())
}
