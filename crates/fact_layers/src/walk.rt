ghost use Rattle.std.specs.Prelude.{◌≡◌, IsTrue};
ghost use Rattle.std.specs.Option.{option_copied, option_map};
ghost use Rattle.std.specs.Range.Bound.{bound_map};
ghost use Rattle.fact_layers.specs.Layers.{layered, shared};
ghost use Rattle.fact_layers.specs.working.Said.{are_all_keyed, held};
ghost use Rattle.fact_layers.specs.working.Walk.{IsBehindQuery, found_next, named, rows_behind, seen};
ghost use Rattle.fact_store.specs.Matching.{selected};
ghost use Rattle.fact_store.specs.Rows.{are_keys};

use crate::layer::Layer;
use crate::layers::{held, nearest};
use base_bytes::Values;
use fact_store::{Wanted, has_named, is_place_within};
use std::ops::Bound;
use std::sync::Arc;

/// What stands at the place, if it has the named values.
fn named_at<'a>(layers: &'a [Arc<Layer>], wanted: &Wanted, place: &Wanted) -> Option<&'a Values>
    ensures { option_copied result ≡ named wanted.now (held place.now (shared layers.now)) }
{
    let values = held(layers, place)?;
    if has_named(wanted.values.as_slice(), values.as_slice()) {
        Some(values)
    } else {
        None
    }
}

/// The next row behind the bound that the query finds: its place and its values.
pub(crate) fn next_row<'a>(
    layers: &'a [Arc<Layer>],
    wanted: &Wanted,
    start: Bound<&'a Wanted>,
) -> Option<(&'a Wanted, &'a Values)>
    requires keyed { IsTrue (are_all_keyed (shared layers.now)) }
    requires keys { IsTrue (are_keys wanted.now.keys) }
    requires behind { IsBehindQuery wanted.now (bound_map (λ x. x.now) start) }
    ensures { selected wanted.now (rows_behind (bound_map (λ x. x.now) start.entry) (layered (shared layers.now))) ≡ found_next wanted.now (layered (shared layers.now)) (option_map seen result) }
{
    let mut from = start;
    while let Some(place) = nearest(layers, from) {
        if !is_place_within(wanted, place) {
            return None;
        }
        if let Some(values) = named_at(layers, wanted, place) {
            return Some((place, values));
        }
        from = Bound::Excluded(place);
    }
    None
}
