//! The values that the arms of a `match` list.

ghost use Rattle.std.specs.Prelude.{◌≡◌, [], ◌∷◌, ◌++◌, not, true, IfOk, OnOk, List};
ghost use Rattle.std.specs.List.{list_any};
ghost use Rattle.policy_ast.specs.declared.pattern.PatternLiteral.{PatternLiteral};
ghost use Rattle.policy_ast.specs.declared.literal.Literal.TheVariants as literal;
ghost use Rattle.policy_ast.specs.declared.pattern.PatternLiteral.TheVariants as pattern;
ghost use Rattle.policy_rules.specs.Coverage.{same_pattern};
ghost use Rattle.policy_infer.specs.working.Listed.{listed_value};

use base_bytes::NoMemory;
use indexmap::IndexSet;
use policy_ast::{Literal, Name, PatternLiteral};
use std::alloc::Global;
use std::marker::Model;

/// A value that is listed, by what it borrows of the policy.
#[derive(Clone, Copy, PartialEq, Eq, Hash)]
enum Listed<'a> {
    Number(i64),
    Text(&'a str),
    True,
    False,
    Variant(&'a str, &'a str),
    None,
}

/// Values of which no two are the same, in the order in which they came. Contracts see it as their list.
#[derive(Drop)]
pub struct PatternSet<'a> {
    values: IndexSet<Listed<'a>>,
}

impl<'a> Model for PatternSet<'a> {
    ghost use Rattle.std.specs.Prelude.{List, map};
    ghost use Rattle.std.specs.Coded.{coded_list};
    ghost use Rattle.policy_ast.specs.declared.pattern.PatternLiteral.{PatternLiteral};
    ghost use Rattle.policy_ast.specs.contracts.pattern.PatternLiteral as pattern;
    ghost use Rattle.policy_infer.specs.working.Listed.{listed_value};

    ghost Value = { List PatternLiteral };

    ghost coded = { coded_list pattern.the_row.coded };

    ghost view = { λ s. map listed_value s.values.keys };
}

/// The value that a pattern lists.
fn value_of(pattern: &PatternLiteral) -> Listed<'_>
    ensures { listed_value result ≡ pattern.now }
{
    match pattern {
        PatternLiteral::Literal(Literal::Number(number)) => Listed::Number(*number),
        PatternLiteral::Literal(Literal::Text(text)) => Listed::Text(text.as_str()),
        PatternLiteral::Literal(Literal::True) => Listed::True,
        PatternLiteral::Literal(Literal::False) => Listed::False,
        PatternLiteral::Literal(Literal::Variant(name, variant)) => {
            Listed::Variant(name.as_str(), variant.as_str())
        }
        PatternLiteral::None => Listed::None,
    }
}

impl<'a> PatternSet<'a> {
    /// No values. Takes no memory.
    pub fn new(alloc: Global) -> PatternSet<'a>
        ensures { result ≡ [] }
    {
        PatternSet {
            values: IndexSet::new(alloc),
        }
    }

    /// Adds a value at the end, and tells whether it is new.
    pub fn insert(&mut self, pattern: &'a PatternLiteral) -> Result<bool, NoMemory>
        ensures is_new { IfOk result (λ is_new. is_new ≡ not (list_any (same_pattern pattern.now) self.old)) }
        ensures added { IfOk result (λ is_new. is_new ≡ true → self.new ≡ self.old ++ pattern.now ∷ []) }
    {
        Ok(self.values.insert(value_of(pattern))?)
    }

    /// Whether `true` is there.
    pub fn has_true(&self) -> bool
        ensures { result ≡ list_any (same_pattern (pattern.Literal literal.True)) self.now }
    {
        self.values.contains(&Listed::True)
    }

    /// Whether `false` is there.
    pub fn has_false(&self) -> bool
        ensures { result ≡ list_any (same_pattern (pattern.Literal literal.False)) self.now }
    {
        self.values.contains(&Listed::False)
    }

    /// Whether this variant of this enum is there.
    pub fn has_variant(&self, name: &Name, variant: &Name) -> bool
        ensures { result ≡ list_any (same_pattern (pattern.Literal (literal.Variant name.now variant.now))) self.now }
    {
        let value = Listed::Variant(name.as_str(), variant.as_str());
        self.values.contains(&value)
    }
}
