ghost use Rattle.std.specs.Prelude.{◌≡◌, ◌<◌, ◌+◌, ◌^◌, ℕ, IfOk, IfSome, length, slice_get, get_or};
ghost use Rattle.std.specs.List.{All};
ghost use Rattle.braid.specs.working.Links.{listed, listed_links, sum_of, times};

use crate::closure::Links;
use base_bytes::NoMemory;
use std::alloc::Global;

/// One child more of the command with this number.
fn add_child(children: &mut Vec<usize>, number: Option<usize>)
    requires { All (λ k. (k < length children.old.items) × (get_or children.old.items k 0 < 2 ^ 32)) (listed number) }
    ensures length { length children.new.items ≡ length children.old.items }
    ensures counted { (k : ℕ) → get_or children.new.items k 0 ≡ times k (listed number) + get_or children.old.items k 0 }
{
    if let Some(number) = number {
        children[number] += 1;
    }
}

/// How many children each command of a closure has there. A command is the child of each of its parents.
pub fn children(alloc: Global, links: &[Links]) -> Result<Vec<usize>, NoMemory>
    requires few { length links.now < 2 ^ 31 }
    requires within { All (λ them. All (λ k. k < length links.now) (listed_links them)) links.now }
    ensures length { IfOk result (λ children. length children.items ≡ length links.now) }
    ensures counted { IfOk result (λ children. (k : ℕ) → get_or children.items k 0 ≡ sum_of (λ them. times k (listed_links them)) links.now) }
{
    let mut children = vec![in alloc; 0usize; links.len()]?;
    for them in links {
        add_child(&mut children, them.left);
        add_child(&mut children, them.right);
    }
    Ok(children)
}
