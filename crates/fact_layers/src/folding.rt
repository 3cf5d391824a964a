ghost use Rattle.std.specs.Prelude.{◌≡◌, ◌≤◌, ◌++◌, IfOk, IsTrue, OnErr, OnOk, length};
ghost use Rattle.std.specs.Arc.{arc_value};
ghost use Rattle.fact_layers.specs.Layers.{shared};
ghost use Rattle.fact_layers.specs.working.Said.{IsFolded, PutsNewest, PutsOwn, Replaces, are_all_keyed};
ghost use Rattle.fact_store.specs.Rows.{are_keys};

use crate::layer::{Layer, put_all, put_in};
use base_bytes::{NoMemory, Values};
use fact_store::Wanted;
use std::alloc::Global;
use std::collections::BTreeMap;
use std::sync::Arc;

/// Layers are folded where the oldest of them has at most this part of what all newer ones have.
const FAN: usize = 4;

/// How many of the newest layers a new one takes in. Of the others each has more than a part of what all that are newer have, so that they are few.
fn fold_count(layers: &[Arc<Layer>]) -> usize
    ensures { result ≤ length layers.now }
{
    let mut newer = 1usize;
    let mut count = 0;
    for index in 0..layers.len() {
        let size = layers[index].len();
        if size <= newer / (FAN - 1) {
            count = index + 1;
        }
        newer = newer.saturating_add(size);
    }
    count
}

/// One layer that says what these say.
fn folded(alloc: Global, layers: &[Arc<Layer>], is_lowest: bool) -> Result<Layer, NoMemory>
    requires { IsTrue (are_all_keyed (shared layers.now)) }
    ensures { IfOk result (λ layer. IsFolded is_lowest (shared layers.now) layer.entries) }
{
    let mut all = BTreeMap::new(alloc);
    for done in 0..layers.len() {
        put_all(alloc, &mut all, is_lowest, &layers[layers.len() - 1 - done])?;
    }
    Ok(all)
}

/// Adds the layers at the end.
pub(crate) fn share(next: &mut Vec<Arc<Layer>>, layers: &[Arc<Layer>]) -> Result<(), NoMemory>
    ensures { OnOk result (shared next.new.items ≡ shared next.old.items ++ shared layers.now) }
{
    for layer in layers {
        next.push(Arc::try_clone(layer)?)?;
    }
    Ok(())
}

/// The layers with a new one in front, that says this of the place. It takes in the newest of the others.
fn begun(
    alloc: Global,
    layers: &[Arc<Layer>],
    place: Wanted,
    said: Option<Values>,
) -> Result<Vec<Arc<Layer>>, NoMemory>
    requires keyed { IsTrue (are_all_keyed (shared layers.now)) }
    requires keys { IsTrue (are_keys place.keys) }
    ensures { IfOk result (λ next. Replaces place said (shared layers.now) (shared next.items)) }
{
    let (newer, older) = layers.split_at(fold_count(layers));
    let is_lowest = older.is_empty();
    let mut newest = folded(alloc, newer, is_lowest)?;
    put_in(&mut newest, is_lowest, place, said)?;
    let mut next = Vec::with_capacity(alloc, older.len())?;
    next.push(Arc::new(alloc, newest)?)?;
    share(&mut next, older)?;
    Ok(next)
}

/// Puts it into the layer where no copy shares it, and else hands it back.
fn put_own(
    layer: &mut Arc<Layer>,
    is_lowest: bool,
    place: Wanted,
    said: Option<Values>,
) -> Result<Option<(Wanted, Option<Values>)>, NoMemory>
    ensures { PutsOwn is_lowest place said (arc_value layer.old).entries (arc_value layer.new).entries result }
{
    match Arc::get_mut(layer) {
        Some(own) => {
            put_in(own, is_lowest, place, said)?;
            Ok(None)
        }
        None => Ok(Some((place, said))),
    }
}

/// Puts it into the newest layer where no copy shares it, and else hands it back.
fn put_newest(
    layers: &mut Vec<Arc<Layer>>,
    place: Wanted,
    said: Option<Values>,
) -> Result<Option<(Wanted, Option<Values>)>, NoMemory>
    requires keyed { IsTrue (are_all_keyed (shared layers.old.items)) }
    requires keys { IsTrue (are_keys place.keys) }
    ensures { PutsNewest place said (shared layers.old.items) (shared layers.new.items) result }
{
    let is_lowest = layers.len() == 1;
    match layers.first_mut() {
        Some(newest) => put_own(newest, is_lowest, place, said),
        None => Ok(Some((place, said))),
    }
}

/// The layers say this of the place from now on: the newest where no copy shares it, and else a new one.
pub(crate) fn put(
    layers: &mut Vec<Arc<Layer>>,
    alloc: Global,
    place: Wanted,
    said: Option<Values>,
) -> Result<(), NoMemory>
    requires keyed { IsTrue (are_all_keyed (shared layers.old.items)) }
    requires keys { IsTrue (are_keys place.keys) }
    ensures ok { OnOk result (Replaces place said (shared layers.old.items) (shared layers.new.items)) }
    ensures err { OnErr result (shared layers.new.items ≡ shared layers.old.items) }
{
    match put_newest(layers, place, said)? {
        Some((place, said)) => {
            *layers = begun(alloc, layers.as_slice(), place, said)?;
            Ok(())
        }
        None => Ok(()),
    }
}
