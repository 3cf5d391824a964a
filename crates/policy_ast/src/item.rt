use crate::{EffectField, Field, FieldType, FinishStmt, Literal, Name, Stmt, VariantNames};
use sqlite_items::Items;

/// An item of a policy.
#[derive(Drop)]
pub enum Item {
    Use(Name),
    Let(Name, Literal),
    Enum(Name, VariantNames),
    Struct(Name, Items<Field>),
    Effect(Name, Items<EffectField>),
    Fact {
        is_immutable: bool,
        name: Name,
        keys: Items<Field>,
        values: Items<Field>,
    },
    Command(Name, Items<Section>),
    Function {
        name: Name,
        parameters: Items<Field>,
        result: FieldType,
        body: Items<Stmt>,
    },
    FinishFunction {
        name: Name,
        parameters: Items<Field>,
        body: Items<FinishStmt>,
    },
    Action {
        name: Name,
        parameters: Items<Field>,
        body: Items<Stmt>,
    },
}

/// A section of a command.
#[derive(Drop)]
pub enum Section {
    Attributes(Items<Attribute>),
    Fields(Items<Field>),
    /// The one form that a `seal` block has.
    Seal,
    /// The one form that an `open` block has.
    Open,
    Policy(Items<Stmt>),
    Recall(Items<Stmt>),
}

/// `name: literal`
#[derive(Drop)]
pub struct Attribute {
    pub name: Name,
    pub value: Literal,
}
