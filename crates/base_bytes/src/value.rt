ghost use Rattle.std.specs.Prelude.{◌≡◌, ◌↔◌, IfOk, IsTrue};

use crate::{Bytes, Id, NoMemory, Text};
use sqlite_items::{Boxed, Items};
use std::alloc::Global;

/// A value of the policy language. The numbers are item numbers of the policy, from 0, and an enum's ordinal.
#[derive(Drop)]
pub enum Value {
    Int(i64),
    Bool(bool),
    Str(Text),
    Raw(Bytes),
    Ident(Id),
    Enum(u32, u16),
    Struct(u32, Values),
    Nothing,
    Some(Boxed<Value>),
}

/// A list of values.
pub type Values = Items<Value>;

impl Value {
    #[cycle(copy)]
    pub fn copy(&self, alloc: Global) -> Result<Value, NoMemory>
        ensures { IfOk result (λ value. value ≡ self.now) }
    {
        match self {
            Value::Int(number) => Ok(Value::Int(*number)),
            Value::Bool(truth) => Ok(Value::Bool(*truth)),
            Value::Str(text) => Ok(Value::Str(text.copy(alloc)?)),
            Value::Raw(bytes) => Ok(Value::Raw(bytes.copy(alloc)?)),
            Value::Ident(id) => Ok(Value::Ident(*id)),
            Value::Enum(item, ordinal) => Ok(Value::Enum(*item, *ordinal)),
            Value::Struct(item, fields) => {
                Ok(Value::Struct(*item, copy_values(alloc, fields.as_slice())?))
            }
            Value::Nothing => Ok(Value::Nothing),
            Value::Some(inner) => {
                let inner = inner.get().copy(alloc)?;
                Ok(Value::Some(Boxed::new(alloc, inner)?))
            }
        }
    }

    /// Whether the two are one value.
    #[cycle(sameness)]
    pub fn is_same(&self, other: &Value) -> bool
        ensures { IsTrue result ↔ (self.now ≡ other.now) }
    {
        match (self, other) {
            (Value::Int(number), Value::Int(other)) => number == other,
            (Value::Bool(truth), Value::Bool(other)) => truth == other,
            (Value::Str(text), Value::Str(other)) => text == other,
            (Value::Raw(bytes), Value::Raw(other)) => bytes.as_slice() == other.as_slice(),
            (Value::Ident(id), Value::Ident(other)) => id == other,
            (Value::Enum(item, ordinal), Value::Enum(other, place)) => {
                item == other && ordinal == place
            }
            (Value::Struct(item, fields), Value::Struct(other, others)) => {
                item == other && are_same_values(fields.as_slice(), others.as_slice())
            }
            (Value::Nothing, Value::Nothing) => true,
            (Value::Some(inner), Value::Some(other)) => inner.get().is_same(other.get()),
            _ => false,
        }
    }
}

/// A list of copies of the values.
#[cycle(copy)]
pub fn copy_values(alloc: Global, values: &[Value]) -> Result<Values, NoMemory>
    ensures { IfOk result (λ all. all ≡ values.now) }
{
    let mut all = Items::new(alloc);
    for value in values {
        all.push(value.copy(alloc)?)?;
    }
    Ok(all)
}

/// Whether the two lists hold the same values in the same order.
#[cycle(sameness)]
pub fn are_same_values(values: &[Value], others: &[Value]) -> bool
    ensures { IsTrue result ↔ (values.now ≡ others.now) }
{
    if values.len() != others.len() {
        return false;
    }
    for i in 0..values.len() {
        if !values[i].is_same(&others[i]) {
            return false;
        }
    }
    true
}
