//! What a value is held against: the patterns of facts, and those of the arms of a `match`.

use crate::{Literal, Name};
use sqlite_items::Items;

/// `name: expr`, or `name: ?` without a value.
#[derive(Drop)]
pub struct Free<E> {
    pub name: Name,
    pub value: Option<E>,
}

/// `Fact[key: expr, ..]=>{value: expr, ..}`: the fact, what its keys are to be and, where that part is written, its values.
/// `E` is `Expr`, which holds patterns too, and alone leads back to itself.
#[derive(Drop)]
pub struct Pattern<E> {
    pub fact: Name,
    pub keys: Items<Free<E>>,
    pub values: Option<Items<Free<E>>>,
}

/// Which values an arm takes.
#[derive(Drop)]
pub enum ArmPattern {
    /// `_`
    Any,
    /// Any of these, of which there is at least one.
    Literals(Items<PatternLiteral>),
}

/// A value that an arm takes.
#[derive(Drop)]
pub enum PatternLiteral {
    Literal(Literal),
    /// `None`, which an optional value may be.
    None,
}
