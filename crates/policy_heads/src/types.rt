ghost use Rattle.std.specs.Prelude.{◌≡◌, IfOk};
ghost use Rattle.policy_rules.specs.Types.{fits, joined, written_type};

use base_bytes::NoMemory;
use policy_ast::FieldType;
use policy_rules::NamedType;
use sqlite_items::Boxed;
use std::alloc::Global;

/// The type that a policy writes.
pub fn written_type(alloc: Global, written: &FieldType) -> Result<NamedType, NoMemory>
    ensures { IfOk result (λ t. t ≡ written_type written.now) }
{
    match written {
        FieldType::Int => Ok(NamedType::Int),
        FieldType::Bool => Ok(NamedType::Bool),
        FieldType::Str => Ok(NamedType::Str),
        FieldType::Raw => Ok(NamedType::Raw),
        FieldType::Ident => Ok(NamedType::Ident),
        FieldType::Enum(name) => Ok(NamedType::Enum(name.copy(alloc)?)),
        FieldType::Struct(name) => Ok(NamedType::Struct(name.copy(alloc)?)),
        FieldType::Optional(inner) => {
            let inner = written_type(alloc, inner.get())?;
            Ok(NamedType::Optional(Boxed::new(alloc, inner)?))
        }
    }
}

pub fn copy_type(alloc: Global, t: &NamedType) -> Result<NamedType, NoMemory>
    ensures { IfOk result (λ copy. copy ≡ t.now) }
{
    match t {
        NamedType::Int => Ok(NamedType::Int),
        NamedType::Bool => Ok(NamedType::Bool),
        NamedType::Str => Ok(NamedType::Str),
        NamedType::Raw => Ok(NamedType::Raw),
        NamedType::Ident => Ok(NamedType::Ident),
        NamedType::Enum(name) => Ok(NamedType::Enum(name.copy(alloc)?)),
        NamedType::Struct(name) => Ok(NamedType::Struct(name.copy(alloc)?)),
        NamedType::Optional(inner) => {
            let inner = copy_type(alloc, inner.get())?;
            Ok(NamedType::Optional(Boxed::new(alloc, inner)?))
        }
        NamedType::Never => Ok(NamedType::Never),
    }
}

/// Whether a value of the first type may stand where the second is asked for.
pub fn fits(t: &NamedType, u: &NamedType) -> bool
    ensures { result ≡ fits t.now u.now }
{
    match (t, u) {
        (NamedType::Never, _) => true,
        (NamedType::Int, NamedType::Int) => true,
        (NamedType::Bool, NamedType::Bool) => true,
        (NamedType::Str, NamedType::Str) => true,
        (NamedType::Raw, NamedType::Raw) => true,
        (NamedType::Ident, NamedType::Ident) => true,
        (NamedType::Enum(name), NamedType::Enum(other)) => name == other,
        (NamedType::Struct(name), NamedType::Struct(other)) => name == other,
        (NamedType::Optional(inner), NamedType::Optional(other)) => fits(inner.get(), other.get()),
        _ => false,
    }
}

/// Of two types of which one fits the other: that other. Takes no memory.
pub fn joined(t: NamedType, u: NamedType) -> Option<NamedType>
    ensures { result ≡ joined t u }
{
    if fits(&t, &u) {
        Some(u)
    } else if fits(&u, &t) {
        Some(t)
    } else {
        None
    }
}
