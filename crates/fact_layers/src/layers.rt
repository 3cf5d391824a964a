ghost use Rattle.std.specs.Prelude.{◌≡◌, [], ◌∷◌};
ghost use Rattle.std.specs.Option.{option_copied};
ghost use Rattle.std.specs.Range.Bound.{bound_map};
ghost use Rattle.fact_layers.specs.Layers.{shared};
ghost use Rattle.fact_layers.specs.working.Nearest.{IsNearest, lesser};
ghost use Rattle.fact_layers.specs.working.Said.{held};

use crate::layer::Layer;
use base_bytes::Values;
use fact_store::Wanted;
use std::ops::Bound;
use std::sync::Arc;

/// What stands at the place: the newest layer that speaks of it says so.
pub(crate) fn held<'a>(layers: &'a [Arc<Layer>], place: &Wanted) -> Option<&'a Values>
    ensures { option_copied result ≡ held place.now (shared layers.now) }
{
    for layer in layers {
        if let Some(said) = layer.get(place) {
            return said.as_ref();
        }
    }
    None
}

/// The least place behind the bound of which a layer speaks.
pub(crate) fn nearest<'a>(layers: &'a [Arc<Layer>], from: Bound<&Wanted>) -> Option<&'a Wanted>
    ensures { IsNearest (bound_map (λ x. x.now) from.entry) (shared layers.now) (option_copied result) }
{
    let mut least = None;
    for layer in layers {
        least = lesser(least, nearest_in(layer, from));
    }
    least
}

fn nearest_in<'a>(layer: &'a Layer, from: Bound<&Wanted>) -> Option<&'a Wanted>
    ensures { IsNearest (bound_map (λ x. x.now) from.entry) (layer.now.entries ∷ []) (option_copied result) }
{
    match layer.range((from, Bound::Unbounded)).next() {
        Some((place, _)) => Some(place),
        None => None,
    }
}

fn lesser<'a>(place: Option<&'a Wanted>, other: Option<&'a Wanted>) -> Option<&'a Wanted>
    ensures { option_copied result ≡ lesser (option_copied place.entry) (option_copied other.entry) }
{
    match (place, other) {
        (Some(place), Some(other)) => {
            if other.cmp(place).is_lt() {
                Some(other)
            } else {
                Some(place)
            }
        }
        (Some(place), None) => Some(place),
        (None, other) => other,
    }
}
