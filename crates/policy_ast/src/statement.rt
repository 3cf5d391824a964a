use crate::{ArmPattern, Expr, FinishStmt, Let, Name, Pattern};
use sqlite_items::{Boxed, Items};

/// A statement.
#[derive(Drop)]
pub enum Stmt {
    Let(Let<Expr>),
    Check(Expr),
    If(IfStmt<Stmt>),
    /// What is looked at, and the arms of which the first that takes it runs.
    Match(Expr, Items<Arm<Stmt>>),
    Finish(Items<FinishStmt>),
    /// The pattern, the name of each row that matches, and the block that runs for it.
    Map(Pattern<Expr>, Name, Items<Stmt>),
    Publish(Expr),
    Return(Expr),
}

/// `if head { .. }`, with what follows `else` where that is written. `S` is `Stmt`, which alone leads back to itself.
#[derive(Drop)]
pub struct IfStmt<S> {
    pub head: Expr,
    pub then: Items<S>,
    pub otherwise: Option<Else<S>>,
}

/// What follows `else`.
#[derive(Drop)]
pub enum Else<S> {
    Block(Items<S>),
    /// The `if` statement that follows `else` at once; the grammar puts no other statement here.
    If(Boxed<S>),
}

/// An arm of a `match`.
#[derive(Drop)]
pub struct Arm<S> {
    pub pattern: ArmPattern,
    pub body: Items<S>,
}
