use base_bytes::Bytes;

/// The text of a line that makes a message, and the message, where it makes one.
#[derive(Drop)]
pub struct Said {
    pub text: Bytes,
    pub message: Option<Bytes>,
}
