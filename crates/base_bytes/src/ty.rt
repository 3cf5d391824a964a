ghost use Rattle.std.specs.Prelude.{◌≡◌, ◌↔◌, IfOk, IsTrue};

use crate::NoMemory;
use sqlite_items::Boxed;
use std::alloc::Global;

/// A type of values. The numbers are item numbers of the policy, from 0.
#[derive(Drop)]
pub enum Ty {
    Int,
    Bool,
    Str,
    Raw,
    Ident,
    Enum(u32),
    Struct(u32),
    Optional(Boxed<Ty>),
    /// The type of no value.
    Never,
}

impl Ty {
    pub fn copy(&self, alloc: Global) -> Result<Ty, NoMemory>
        ensures { IfOk result (λ ty. ty ≡ self.now) }
    {
        match self {
            Ty::Int => Ok(Ty::Int),
            Ty::Bool => Ok(Ty::Bool),
            Ty::Str => Ok(Ty::Str),
            Ty::Raw => Ok(Ty::Raw),
            Ty::Ident => Ok(Ty::Ident),
            Ty::Enum(item) => Ok(Ty::Enum(*item)),
            Ty::Struct(item) => Ok(Ty::Struct(*item)),
            Ty::Optional(inner) => {
                let inner = inner.get().copy(alloc)?;
                Ok(Ty::Optional(Boxed::new(alloc, inner)?))
            }
            Ty::Never => Ok(Ty::Never),
        }
    }

    /// Whether the two are one type.
    pub fn is_same(&self, other: &Ty) -> bool
        ensures { IsTrue result ↔ (self.now ≡ other.now) }
    {
        match (self, other) {
            (Ty::Int, Ty::Int) => true,
            (Ty::Bool, Ty::Bool) => true,
            (Ty::Str, Ty::Str) => true,
            (Ty::Raw, Ty::Raw) => true,
            (Ty::Ident, Ty::Ident) => true,
            (Ty::Enum(item), Ty::Enum(other)) => item == other,
            (Ty::Struct(item), Ty::Struct(other)) => item == other,
            (Ty::Optional(inner), Ty::Optional(other)) => inner.get().is_same(other.get()),
            (Ty::Never, Ty::Never) => true,
            _ => false,
        }
    }
}
