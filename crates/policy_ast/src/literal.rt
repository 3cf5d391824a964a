use crate::Name;
use base_bytes::Text;

/// A value that is written out.
#[derive(Drop)]
pub enum Literal {
    Number(i64),
    Text(Text),
    True,
    False,
    /// `Enum::Variant`
    Variant(Name, Name),
}
