ghost use Rattle.std.specs.Prelude.{◌≡◌, false, map, IfOk};
ghost use Rattle.std.specs.List.{list_all};
ghost use Rattle.policy_depths.specs.working.Rounds.{passes_in, round};

use base_bytes::NoMemory;
use sqlite_items::Items;
use std::alloc::Global;

/// From which places no more than `longest` steps follow one another, where each place leads to those of its list.
pub fn round(alloc: Global, steps: &[Items<usize>], longest: usize) -> Result<Items<bool>, NoMemory>
    ensures { IfOk result (λ table. table ≡ round steps.now longest) }
{
    let mut table = first_round(alloc, steps)?;
    for _turn in 0..longest {
        table = next_round(alloc, steps, table.as_slice())?;
    }
    Ok(table)
}

fn first_round(alloc: Global, steps: &[Items<usize>]) -> Result<Items<bool>, NoMemory>
    ensures { IfOk result (λ table. table ≡ map (λ places. false) steps.now) }
{
    let mut table = Items::new(alloc);
    for _places in steps {
        table.push(false)?;
    }
    Ok(table)
}

fn next_round(
    alloc: Global,
    steps: &[Items<usize>],
    table: &[bool],
) -> Result<Items<bool>, NoMemory>
    ensures { IfOk result (λ next. next ≡ map (λ places. list_all (passes_in table.now) places) steps.now) }
{
    let mut next = Items::new(alloc);
    for places in steps {
        next.push(all_pass(table, places.as_slice()))?;
    }
    Ok(next)
}

fn all_pass(table: &[bool], places: &[usize]) -> bool
    ensures { result ≡ list_all (passes_in table.now) places.now }
{
    for place in places {
        if !passes_in(table, *place) {
            return false;
        }
    }
    true
}

/// Whether the place passes in the table; one that isn't in it does.
pub fn passes_in(table: &[bool], place: usize) -> bool
    ensures { result ≡ passes_in table.now place }
{
    match table.get(place) {
        Some(passes) => *passes,
        None => true,
    }
}
