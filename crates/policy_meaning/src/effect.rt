ghost use Rattle.std.specs.Prelude.{◌≡◌, [], ◌∷◌, ◌++◌, length, IfOk, OnOk, OnErr};

use base_bytes::{NoMemory, Values, copy_values};
use sqlite_items::Items;
use std::alloc::Global;
use std::marker::Model;

/// What a block tells the world beside its writes: the item number of the effect, and the values of its fields in declared order.
#[derive(Drop)]
pub struct Effect {
    pub effect: u32,
    pub fields: Values,
}

impl Effect {
    pub fn copy(&self, alloc: Global) -> Result<Effect, NoMemory>
        ensures { IfOk result (λ other. other ≡ self.now) }
    {
        Ok(Effect {
            effect: self.effect,
            fields: copy_values(alloc, self.fields.as_slice())?,
        })
    }
}

/// A list of effects, which contracts see as the list.
#[derive(Drop)]
pub struct Effects {
    effects: Items<Effect>,
}

impl Model for Effects {
    ghost use Rattle.std.specs.Prelude.{List};
    ghost use Rattle.std.specs.Coded.{coded_list};
    ghost use Rattle.policy_meaning.specs.declared.effect.Effect.{Effect};
    ghost use Rattle.policy_meaning.specs.contracts.effect.Effect as effect;

    ghost Value = { List Effect };

    ghost coded = { coded_list effect.the_row.coded };

    ghost view = { λ it. it.effects };
}

impl Effects {
    /// No effects. Takes no memory.
    pub fn new(alloc: Global) -> Effects
        ensures { result ≡ [] }
    {
        Effects {
            effects: Items::new(alloc),
        }
    }

    /// Copies of the effects.
    pub fn from_slice(alloc: Global, effects: &[Effect]) -> Result<Effects, NoMemory>
        ensures { IfOk result (λ it. it ≡ effects.now) }
    {
        let mut all = Effects::new(alloc);
        for effect in effects {
            all.push(alloc, effect.copy(alloc)?)?;
        }
        Ok(all)
    }

    pub fn as_slice(&self) -> &[Effect]
        ensures { result.now ≡ self.now }
    {
        self.effects.as_slice()
    }

    pub fn len(&self) -> usize
        ensures { result ≡ length self.now }
    {
        self.effects.len()
    }

    /// Adds one effect at the end; without memory the effects stay as they were.
    pub fn push(&mut self, _alloc: Global, effect: Effect) -> Result<(), NoMemory>
        ensures ok { OnOk result (self.new ≡ self.old ++ effect ∷ []) }
        ensures err { OnErr result (self.new ≡ self.old) }
    {
        self.effects.push(effect)?;
        Ok(())
    }

    pub fn copy(&self, alloc: Global) -> Result<Effects, NoMemory>
        ensures { IfOk result (λ other. other ≡ self.now) }
    {
        Effects::from_slice(alloc, self.as_slice())
    }
}
