ghost use Rattle.std.specs.Prelude.{◌≡◌, IfNone, IfOk, IfSome, length};
ghost use Rattle.base_bytes.specs.declared.value.Value.{Value};
ghost use Rattle.base_bytes.specs.Payload.{IsPayload};
ghost use Rattle.base_bytes.specs.Reaching.{NoneReachesItself};
ghost use Rattle.base_bytes.specs.Reading.{Reads, ReadsAll};
ghost use Rattle.base_bytes.specs.Values.{is_variant, shape_at};
ghost use Rattle.base_bytes.specs.Decoding.{struct_at, text_at, raw_at, optional_at, value_at, values_at, variant_at};

use crate::{Bytes, NoMemory, Reader, Shape, Shapes, Text, Ty, Unread, Value, Values, or_none};
use sqlite_items::{Boxed, Items};
use std::alloc::Global;

/// The value of the type whose spelling the bytes are, and None exactly where they are the spelling of no such value.
pub fn decode_value(
    alloc: Global,
    shapes: &Shapes,
    ty: &Ty,
    bytes: &[u8],
) -> Result<Option<Value>, NoMemory>
    requires { NoneReachesItself shapes.now }
    ensures found { IfOk result (λ o. IfSome o (λ value. IsPayload shapes.now ty.now value bytes.now)) }
    ensures none { IfOk result (λ o. IfNone o ((value : Value) → IsPayload shapes.now ty.now value bytes.now → ⊥)) }
{
    or_none(read_whole(alloc, shapes, ty, bytes))
}

fn read_whole(alloc: Global, shapes: &Shapes, ty: &Ty, bytes: &[u8]) -> Result<Value, Unread>
    ensures { ReadsAll result (value_at shapes.now (length shapes.now.items) ty.now bytes.now) }
{
    let mut reader = Reader::new(bytes);
    let value = read_value(alloc, shapes, shapes.items.len(), ty, &mut reader)?;
    reader.end()?;
    Ok(value)
}

// At most `depth` structs nest in what is read.
#[cycle(decode)]
fn read_value(
    alloc: Global,
    shapes: &Shapes,
    depth: usize,
    ty: &Ty,
    reader: &mut Reader,
) -> Result<Value, Unread>
    ensures { Reads (λ value. value) result reader.new (value_at shapes.now depth ty.now reader.old) }
{
    match ty {
        Ty::Int => Ok(Value::Int(reader.i64()?)),
        Ty::Bool => Ok(Value::Bool(reader.flag()?)),
        Ty::Str => read_text(alloc, reader),
        Ty::Raw => read_raw(alloc, reader),
        Ty::Ident => Ok(Value::Ident(reader.id()?)),
        Ty::Enum(item) => read_variant(shapes, *item, reader),
        Ty::Struct(item) => read_struct(alloc, shapes, depth, *item, reader),
        Ty::Optional(inner) => read_optional(alloc, shapes, depth, inner.get(), reader),
        Ty::Never => Err(Unread::Malformed),
    }
}

#[cycle(decode)]
fn read_optional(
    alloc: Global,
    shapes: &Shapes,
    depth: usize,
    inner: &Ty,
    reader: &mut Reader,
) -> Result<Value, Unread>
    ensures { Reads (λ value. value) result reader.new (optional_at (value_at shapes.now depth inner.now) reader.old) }
{
    match reader.u8()? {
        0 => Ok(Value::Nothing),
        1 => {
            let value = read_value(alloc, shapes, depth, inner, reader)?;
            Ok(Value::Some(Boxed::new(alloc, value)?))
        }
        _ => Err(Unread::Malformed),
    }
}

#[cycle(decode)]
fn read_struct(
    alloc: Global,
    shapes: &Shapes,
    depth: usize,
    item: u32,
    reader: &mut Reader,
) -> Result<Value, Unread>
    ensures { Reads (λ value. value) result reader.new (struct_at shapes.now depth item reader.old) }
{
    if depth == 0 {
        return Err(Unread::Malformed);
    }
    match shapes.at(item) {
        Some(Shape::Fields(types)) => {
            let fields = read_values(alloc, shapes, depth - 1, types.as_slice(), reader)?;
            Ok(Value::Struct(item, fields))
        }
        _ => Err(Unread::Malformed),
    }
}

#[cycle(decode)]
fn read_values(
    alloc: Global,
    shapes: &Shapes,
    depth: usize,
    types: &[Ty],
    reader: &mut Reader,
) -> Result<Values, Unread>
    ensures { Reads (λ values. values) result reader.new (values_at shapes.now depth types.now reader.old) }
{
    let mut values = Items::new(alloc);
    for ty in types {
        values.push(read_value(alloc, shapes, depth, ty, reader)?)?;
    }
    Ok(values)
}

fn read_text(alloc: Global, reader: &mut Reader) -> Result<Value, Unread>
    ensures { Reads (λ value. value) result reader.new (text_at reader.old) }
{
    let bytes = reader.counted_u32()?;
    match Text::from_utf8(alloc, bytes)? {
        Some(text) => Ok(Value::Str(text)),
        None => Err(Unread::Malformed),
    }
}

fn read_raw(alloc: Global, reader: &mut Reader) -> Result<Value, Unread>
    ensures { Reads (λ value. value) result reader.new (raw_at reader.old) }
{
    let bytes = reader.counted_u32()?;
    Ok(Value::Raw(Bytes::from_slice(alloc, bytes)?))
}

fn read_variant(shapes: &Shapes, item: u32, reader: &mut Reader) -> Result<Value, Unread>
    ensures { Reads (λ value. value) result reader.new (variant_at shapes.now item reader.old) }
{
    let ordinal = reader.u16()?;
    if has_variant(shapes, item, ordinal) {
        Ok(Value::Enum(item, ordinal))
    } else {
        Err(Unread::Malformed)
    }
}

fn has_variant(shapes: &Shapes, item: u32, ordinal: u16) -> bool
    ensures { result ≡ is_variant ordinal (shape_at shapes.now item) }
{
    match shapes.at(item) {
        Some(Shape::Variants(count)) => u32::from(ordinal) < *count,
        _ => false,
    }
}
