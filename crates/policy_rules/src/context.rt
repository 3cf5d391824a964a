use crate::NamedType;
use policy_ast::Name;

/// What kind of block an expression or a statement stands in.
#[derive(Clone, Copy, PartialEq, Eq)]
pub enum Block {
    /// The policy block or the recall block of a command, outside of `finish`.
    Command,
    Function,
    Action,
    /// A `finish` block or the body of a finish function.
    Finish,
}

/// Where an expression or a statement stands.
#[derive(Drop)]
pub struct Context {
    pub block: Block,
    /// The command in whose policy or recall block this is, `finish` included.
    pub this: Option<Name>,
    /// The declared type of the function in whose body this is.
    pub result: Option<NamedType>,
}
