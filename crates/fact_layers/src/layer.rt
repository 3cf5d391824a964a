ghost use Rattle.std.specs.Prelude.{◌≡◌, IfOk, IsTrue, OnErr, OnOk};
ghost use Rattle.fact_layers.specs.working.Said.{FoldsOver, Puts, are_keyed};
ghost use Rattle.fact_store.specs.Rows.{are_keys};

use base_bytes::{NoMemory, Values, copy_values};
use fact_store::Wanted;
use std::alloc::Global;
use std::collections::BTreeMap;

/// What a layer says of places: the values of the row there, or that none is there.
pub(crate) type Layer = BTreeMap<Wanted, Option<Values>>;

/// The layer says this of the place from now on. The lowest layer just forgets a row that is removed, since none is below it.
pub(crate) fn put_in(
    layer: &mut Layer,
    is_lowest: bool,
    place: Wanted,
    said: Option<Values>,
) -> Result<(), NoMemory>
    ensures puts { OnOk result (Puts is_lowest place said layer.old.entries layer.new.entries) }
    ensures keyed { IsTrue (are_keys place.keys) → IsTrue (are_keyed layer.old.entries) → IsTrue (are_keyed layer.new.entries) }
    ensures err { OnErr result (layer.new.entries ≡ layer.old.entries) }
{
    match said {
        None if is_lowest => {
            layer.remove(&place);
            Ok(())
        }
        said => {
            layer.insert(place, said)?;
            Ok(())
        }
    }
}

fn copy_said(alloc: Global, said: &Option<Values>) -> Result<Option<Values>, NoMemory>
    ensures { IfOk result (λ other. other ≡ said.now) }
{
    match said {
        Some(values) => Ok(Some(copy_values(alloc, values.as_slice())?)),
        None => Ok(None),
    }
}

/// Puts all that the upper layer says into the other.
pub(crate) fn put_all(
    alloc: Global,
    layer: &mut Layer,
    is_lowest: bool,
    upper: &Layer,
) -> Result<(), NoMemory>
    requires { IsTrue (are_keyed upper.now.entries) }
    ensures puts { OnOk result (FoldsOver is_lowest upper.now.entries layer.old.entries layer.new.entries) }
    ensures keyed { IsTrue (are_keyed layer.old.entries) → IsTrue (are_keyed layer.new.entries) }
{
    for (place, said) in upper {
        put_in(
            layer,
            is_lowest,
            place.copy(alloc)?,
            copy_said(alloc, said)?,
        )?;
    }
    Ok(())
}
