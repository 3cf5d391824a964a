use crate::Name;
use sqlite_items::Boxed;

/// A type as a policy writes it, with the names of enums and structs still to be looked up.
#[derive(Drop)]
pub enum FieldType {
    /// `int`
    Int,
    /// `bool`
    Bool,
    /// `string`
    Str,
    /// `bytes`
    Raw,
    /// `id`
    Ident,
    /// `enum Name`
    Enum(Name),
    /// `struct Name`
    Struct(Name),
    /// `optional type`
    Optional(Boxed<FieldType>),
}

/// `name type`: a field of a struct, fact, effect or command, or a parameter.
#[derive(Drop)]
pub struct Field {
    pub name: Name,
    pub field_type: FieldType,
}

/// A field of an effect, after which the word `dynamic` may stand.
#[derive(Drop)]
pub struct EffectField {
    pub field: Field,
    pub is_dynamic: bool,
}
