use policy_ast::Name;
use sqlite_items::Boxed;

/// A type as the rules speak of it. Enums and structs stand by name, which means the first item of that name; two types are one where
/// they are written alike, whether or not there is such an item.
#[derive(Drop)]
pub enum NamedType {
    Int,
    Bool,
    Str,
    Raw,
    Ident,
    Enum(Name),
    Struct(Name),
    Optional(Boxed<NamedType>),
    /// The type of no value, as inside the type of `None`. No policy writes it.
    Never,
}

/// A name that stands for a value of a type: a field, a parameter or a local name.
#[derive(Drop)]
pub struct Named {
    pub name: Name,
    pub ty: NamedType,
}
