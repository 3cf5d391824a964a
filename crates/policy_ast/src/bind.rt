use crate::Name;

/// `name: expr`. The type of the expressions is a parameter, because an expression holds this too: so `Expr` alone
/// leads back to itself.
#[derive(Drop)]
pub struct Bind<E> {
    pub name: Name,
    pub value: E,
}
