ghost use Rattle.std.specs.Prelude.{IfOk};
ghost use Rattle.base_bytes.specs.Reaching.{NoneReachesItself};

use crate::forms::bytes_of;
use base_bytes::{NoMemory, Shape, Shapes, Ty, decode_value};
use sqlite_items::{Boxed, Items};
use std::alloc::Global;
use std::test::*;

// An enum of two variants, a struct of a bool and that enum, and an item of neither kind.
fn shapes(alloc: Global) -> Result<Shapes, NoMemory>
    ensures { IfOk result NoneReachesItself }
{
    let mut types = Items::new(alloc);
    types.push(Ty::Bool)?;
    types.push(Ty::Enum(0))?;
    let mut items = Items::new(alloc);
    items.push(Shape::Variants(2))?;
    items.push(Shape::Fields(types))?;
    items.push(Shape::Neither)?;
    Ok(Shapes { items })
}

fn is_taken(alloc: Global, ty: &Ty, text: &str) -> Result<bool, Fail> {
    let bytes = bytes_of(alloc, text)?;
    Ok(decode_value(alloc, &shapes(alloc)?, ty, &bytes)?.is_some())
}

#[test]
fn only_spellings_are_decoded(rt: HostRuntime) -> Result<(), Fail> {
    let alloc = rt.alloc();
    for (ty, text, taken) in [
        (Ty::Int, "fffffffffffffffe", true),
        (Ty::Int, "fffffffffffffe", false),
        (Ty::Bool, "01", true),
        (Ty::Bool, "02", false),
        (Ty::Str, "00000002 c3a9", true),
        (Ty::Str, "00000001 c3", false),
        (Ty::Str, "02000000 6161", false),
        (Ty::Raw, "00000001 c3", true),
        (Ty::Raw, "ffffffff c3", false),
        (
            Ty::Ident,
            "0102030405060708 090a0b0c0d0e0f10 1112131415161718 191a1b1c1d1e1f20",
            true,
        ),
        (
            Ty::Ident,
            "0102030405060708 090a0b0c0d0e0f10 1112131415161718 191a1b1c1d1e1f",
            false,
        ),
        (
            Ty::Ident,
            "0102030405060708 090a0b0c0d0e0f10 1112131415161718 191a1b1c1d1e1f20 21",
            false,
        ),
        (Ty::Enum(0), "0001", true),
        (Ty::Enum(0), "0002", false),
        (Ty::Enum(1), "0000", false),
        (Ty::Enum(3), "0000", false),
        (Ty::Struct(1), "010001", true),
        (Ty::Struct(1), "010002", false),
        (Ty::Struct(1), "01000100", false),
        (Ty::Struct(2), "", false),
        (Ty::Never, "", false),
    ] {
        assert!(rt; is_taken(alloc, &ty, text)? == taken, "{text}");
    }
    Ok(())
}

#[test]
fn optionals_are_decoded(rt: HostRuntime) -> Result<(), Fail> {
    let alloc = rt.alloc();
    let ty = Ty::Optional(Boxed::new(alloc, Ty::Bool)?);
    for (text, taken) in [
        ("00", true),
        ("0101", true),
        ("01", false),
        ("0001", false),
        ("0201", false),
    ] {
        assert!(rt; is_taken(alloc, &ty, text)? == taken, "{text}");
    }
    Ok(())
}
