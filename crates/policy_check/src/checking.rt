ghost use Rattle.std.specs.Prelude.{◌≡◌, ℕ, IfOk, IfErr, MatchOption};
ghost use Rattle.policy_check.specs.Faults.{IsTypeFault};
ghost use Rattle.policy_check.specs.working.Firsts.{IsFirstIll};
ghost use Rattle.policy_rules.specs.WellTyped.{HasTypeFault, IsWellTyped, IsWellTypedAt, items_of};

use crate::fault::TypeFault;
use crate::judge::Judge;
use base_bytes::NoMemory;
use policy_ast::Policy;
use policy_rules::laws::statements_and_items_are_judged;
use policy_types::Checked;
use std::alloc::Global;

/// The number of the first item that isn't well typed.
fn first_ill(alloc: Global, judge: &Judge<'_>) -> Result<Option<usize>, NoMemory>
    ensures { IfOk result (λ first. MatchOption first ((n : ℕ) → IsWellTypedAt judge.now n) (λ number. IsFirstIll judge.now number)) }
{
    statements_and_items_are_judged();
    for number in 0..judge.len() {
        if !judge.is_item(alloc, number)? {
            return Ok(Some(number));
        }
    }
    Ok(None)
}

/// The line in which the first item begins that isn't well typed.
fn first_line(alloc: Global, policy: &Policy) -> Result<Option<u32>, NoMemory>
    ensures { IfOk result (λ line. MatchOption line (IsWellTyped policy.now) (λ line. HasTypeFault policy.now line)) }
{
    let judge = Judge::new(alloc, policy)?;
    match first_ill(alloc, &judge)? {
        Some(number) => Ok(Some(policy.items()[number].line)),
        None => Ok(None),
    }
}

/// The policy as one that is known to be well typed. It is refused exactly where an item isn't well typed, with the line in which the
/// first such item begins. The time grows as the policy does, but for look-ups in maps.
pub fn check(alloc: Global, policy: Policy) -> Result<Checked, TypeFault>
    ensures policy { IfOk result (λ checked. checked ≡ policy) }
    ensures well_typed { IfOk result (λ checked. IsWellTyped policy) }
    ensures fault { IfErr result (λ fault. IsTypeFault policy fault) }
{
    match first_line(alloc, &policy)? {
        Some(item_line) => Err(TypeFault::IllTyped { item_line }),
        None => Ok(Checked::new(policy)),
    }
}
