//! Tokens of the policy language, and the trees that its items, statements and expressions are read into.
#![tactic(auto)]

mod bind;
mod expr;
mod field;
mod finish;
mod item;
pub mod laws;
mod literal;
mod name;
mod part;
mod pattern;
mod policy;
mod statement;
pub mod symbols;
mod token;
pub mod token_laws;
mod variants;
mod version;

pub use bind::Bind;
pub use expr::{
    Arithmetic, Comparison, Count, ElseExpr, Expr, ExprBlock, IfExpr, Let, Presence, Unary,
};
pub use field::{EffectField, Field, FieldType};
pub use finish::FinishStmt;
pub use item::{Attribute, Item, Section};
pub use literal::Literal;
pub use name::{Name, is_name};
pub use part::Part;
pub use pattern::{ArmPattern, Free, Pattern, PatternLiteral};
pub use policy::{PlacedItem, Policy};
pub use statement::{Arm, Else, IfStmt, Stmt};
pub use token::{Token, TokenKind};
pub use variants::VariantNames;
pub use version::Version;
