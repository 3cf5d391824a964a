use crate::{Bind, Literal, Name, Pattern};
use sqlite_items::{Boxed, Items};

/// An operator before its operand.
#[derive(Clone, Copy, PartialEq, Eq)]
pub enum Unary {
    /// `!`
    Not,
    /// `unwrap`
    Unwrap,
    /// `check_unwrap`
    CheckUnwrap,
}

/// An operator between two values that are compared.
#[derive(Clone, Copy, PartialEq, Eq)]
pub enum Comparison {
    /// `==`
    Equal,
    /// `!=`
    NotEqual,
    /// `<`
    Less,
    /// `<=`
    LessOrEqual,
    /// `>`
    Greater,
    /// `>=`
    GreaterOrEqual,
}

/// What an optional value is tested for by `is`.
#[derive(Clone, Copy, PartialEq, Eq)]
pub enum Presence {
    Some,
    None,
}

/// An operation on two numbers, written as a call.
#[derive(Clone, Copy, PartialEq, Eq)]
pub enum Arithmetic {
    /// `add`
    Add,
    /// `sub`
    Sub,
    /// `saturating_add`
    SaturatingAdd,
    /// `saturating_sub`
    SaturatingSub,
}

/// What is asked of the number of facts that match.
#[derive(Clone, Copy, PartialEq, Eq)]
pub enum Count {
    /// `at_least`
    AtLeast,
    /// `at_most`
    AtMost,
    /// `exactly`
    Exactly,
    /// `count_up_to`
    CountUpTo,
}

/// An expression. Parentheses are gone, and `a && b && c` is `(a && b) && c`.
#[derive(Drop)]
pub enum Expr {
    Or(Boxed<Expr>, Boxed<Expr>),
    And(Boxed<Expr>, Boxed<Expr>),
    Compare(Boxed<Expr>, Comparison, Boxed<Expr>),
    /// `expr is Some` or `expr is None`
    Is(Boxed<Expr>, Presence),
    Unary(Unary, Boxed<Expr>),
    /// `expr.field`
    Field(Boxed<Expr>, Name),
    Literal(Literal),
    None,
    Some(Boxed<Expr>),
    This,
    Name(Name),
    /// `module::function(arguments)`
    ForeignCall(Name, Name, Items<Expr>),
    Call(Name, Items<Expr>),
    /// `Name { field: expr, .. }`
    Struct(Name, Items<Bind<Expr>>),
    Arithmetic(Arithmetic, Boxed<Expr>, Boxed<Expr>),
    Query(Pattern<Expr>),
    Exists(Pattern<Expr>),
    Count(Count, i64, Pattern<Expr>),
    If(Boxed<IfExpr<Expr>>),
}

/// `if head { .. } else ..` as an expression. `E` is `Expr`.
#[derive(Drop)]
pub struct IfExpr<E> {
    pub head: E,
    pub then: ExprBlock<E>,
    pub otherwise: ElseExpr<E>,
}

/// What follows `else` in an expression.
#[derive(Drop)]
pub enum ElseExpr<E> {
    Block(ExprBlock<E>),
    /// The `if` expression that follows `else` at once; the grammar puts no other expression here.
    If(E),
}

/// `{ let name = expr .. : expr }`: names for values, and the expression that is the block's value.
#[derive(Drop)]
pub struct ExprBlock<E> {
    pub lets: Items<Let<E>>,
    pub value: E,
}

/// `let name = expr`
#[derive(Drop)]
pub struct Let<E> {
    pub name: Name,
    pub value: E,
}
