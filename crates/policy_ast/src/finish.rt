use crate::{Bind, Expr, Name, Pattern};
use sqlite_items::Items;

/// A statement of a `finish` block or of a finish function.
#[derive(Drop)]
pub enum FinishStmt {
    Create {
        fact: Name,
        keys: Items<Bind<Expr>>,
        values: Items<Bind<Expr>>,
    },
    Update {
        from: Pattern<Expr>,
        to: Items<Bind<Expr>>,
    },
    Delete {
        fact: Name,
        keys: Items<Bind<Expr>>,
    },
    Emit(Expr),
    /// A call of a finish function.
    Call(Name, Items<Expr>),
}
