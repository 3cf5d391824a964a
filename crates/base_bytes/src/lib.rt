//! Values, identifiers, small lists and digests: the plain data that every other crate speaks of.
#![tactic(auto)]

mod arg;
mod bytes;
mod decode;
mod digest;
mod encode;
mod id;
mod ids;
mod key_order;
mod laws;
mod no_memory;
mod reader;
mod shapes;
mod steps;
mod tag;
mod text;
mod ty;
mod unread;
mod value;
mod words;

pub use arg::Arg;
pub use bytes::Bytes;
pub use decode::decode_value;
pub use digest::sha256;
pub use encode::encode_value;
pub use id::Id;
pub use ids::Ids;
pub use key_order::{compare, variant_place};
pub use laws::payloads_are_unambiguous;
pub use no_memory::NoMemory;
pub use reader::Reader;
pub use shapes::{Shape, Shapes};
pub use steps::Steps;
pub use tag::Tag;
pub use text::Text;
pub use ty::Ty;
pub use unread::{Unread, or_none};
pub use value::{Value, Values, are_same_values, copy_values};
pub use words::{begins_with_letter, is_word};
