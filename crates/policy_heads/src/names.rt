ghost use Rattle.std.specs.Prelude.{◌≡◌, [], ◌||◌, not, IfOk, OnOk, ℕ, List};
ghost use Rattle.std.specs.Str.{bytes_eq};
ghost use Rattle.policy_rules.specs.Names.{Name, is_among};

use base_bytes::NoMemory;
use policy_ast::Name;
use std::alloc::Global;
use std::collections::BTreeSet;
use std::marker::Model;

/// A set of names that were written elsewhere. Contracts see it as a list of its names.
#[derive(Drop)]
pub struct NameSet<'a> {
    names: BTreeSet<&'a [u8]>,
}

impl<'a> Model for NameSet<'a> {
    ghost use Rattle.std.specs.Prelude.{List, ℕ, map};

    ghost Value = { List (List ℕ) };

    ghost view = { λ s. map (λ k. k.now) s.names.keys };
}

impl<'a> NameSet<'a> {
    /// No names. Takes no memory.
    pub fn new(alloc: Global) -> NameSet<'a>
        ensures { result ≡ [] }
    {
        NameSet {
            names: BTreeSet::new(alloc),
        }
    }

    /// The set of these names.
    pub fn from_slice(alloc: Global, names: &'a [Name]) -> Result<NameSet<'a>, NoMemory>
        ensures { IfOk result (λ set. (q : List ℕ) → is_among q set ≡ is_among q names.now) }
    {
        let mut set = NameSet::new(alloc);
        for name in names {
            set.insert(name)?;
        }
        Ok(set)
    }

    /// Adds a name, and tells whether it is new.
    pub fn insert(&mut self, name: &'a Name) -> Result<bool, NoMemory>
        ensures is_new { IfOk result (λ is_new. is_new ≡ not (is_among name.now self.old)) }
        ensures added { OnOk result ((q : List ℕ) → is_among q self.new ≡ (is_among q self.old || bytes_eq q name.now)) }
    {
        Ok(self.names.insert(name.as_str().as_bytes())?)
    }

    /// Whether the name is one of the set.
    pub fn contains(&self, name: &Name) -> bool
        ensures { result ≡ is_among name.now self.now }
    {
        self.names.contains(name.as_str().as_bytes())
    }
}
