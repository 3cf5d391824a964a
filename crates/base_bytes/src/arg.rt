ghost use Rattle.std.specs.Prelude.{◌≡◌, IfOk};

use crate::{Bytes, Id, NoMemory, Text};
use sqlite_items::{Boxed, Items};
use std::alloc::Global;

/// An argument as a script writes it: names stand in place of item numbers, so it has no type before it is resolved.
#[derive(Drop)]
pub enum Arg {
    Int(i64),
    Bool(bool),
    Str(Text),
    Raw(Bytes),
    Ident(Id),
    /// The names of an enum and of one of its variants.
    Variant(Text, Text),
    /// The name of a struct, and its fields as written, each with its name.
    Fields(Text, Items<(Text, Arg)>),
    Nothing,
    Some(Boxed<Arg>),
}

impl Arg {
    #[cycle(arguments)]
    pub fn copy(&self, alloc: Global) -> Result<Arg, NoMemory>
        ensures { IfOk result (λ argument. argument ≡ self.now) }
    {
        match self {
            Arg::Int(number) => Ok(Arg::Int(*number)),
            Arg::Bool(truth) => Ok(Arg::Bool(*truth)),
            Arg::Str(text) => Ok(Arg::Str(text.copy(alloc)?)),
            Arg::Raw(bytes) => Ok(Arg::Raw(bytes.copy(alloc)?)),
            Arg::Ident(id) => Ok(Arg::Ident(*id)),
            Arg::Variant(name, variant) => {
                Ok(Arg::Variant(name.copy(alloc)?, variant.copy(alloc)?))
            }
            Arg::Fields(name, fields) => {
                let fields = copy_fields(alloc, fields.as_slice())?;
                Ok(Arg::Fields(name.copy(alloc)?, fields))
            }
            Arg::Nothing => Ok(Arg::Nothing),
            Arg::Some(inner) => {
                let inner = inner.get().copy(alloc)?;
                Ok(Arg::Some(Boxed::new(alloc, inner)?))
            }
        }
    }
}

#[cycle(arguments)]
fn copy_fields(alloc: Global, fields: &[(Text, Arg)]) -> Result<Items<(Text, Arg)>, NoMemory>
    ensures { IfOk result (λ all. all ≡ fields.now) }
{
    let mut all = Items::new(alloc);
    for (name, argument) in fields {
        let name = name.copy(alloc)?;
        all.push((name, argument.copy(alloc)?))?;
    }
    Ok(all)
}
