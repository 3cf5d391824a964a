ghost use Rattle.std.specs.Prelude.{◌≡◌, ◌≤◌, ◌⊎◌, length};
ghost use Rattle.std.specs.List.{common_prefix_len};
ghost use Rattle.replica.specs.working.Changes.{same_entry};

use braid_run::Entry;

/// Whether two entries are of one command.
fn is_same(one: &Entry, other: &Entry) -> bool
    ensures { result ≡ same_entry one.now other.now }
{
    one.id == other.id
}

/// The smaller one of two numbers.
fn shorter(one: usize, other: usize) -> usize
    ensures within { (result ≤ one) × (result ≤ other) }
    ensures whole { (one ≤ result) ⊎ (other ≤ result) }
{
    if one < other { one } else { other }
}

/// How many entries two lists share from their first on.
pub fn shared_front(olds: &[Entry], news: &[Entry]) -> usize
    ensures shared { result ≡ common_prefix_len same_entry olds.now news.now }
    ensures within { result ≤ length news.now }
{
    let len = shorter(olds.len(), news.len());
    for place in 0..len {
        if !is_same(&olds[place], &news[place]) {
            return place;
        }
    }
    len
}
