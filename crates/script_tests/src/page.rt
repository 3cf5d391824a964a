use base_bytes::{Arg, Bytes, NoMemory};
use script_texts::value_text;
use std::alloc::Global;

/// A text that grows piece by piece. Whether memory was there for all of it is asked once, at its end.
#[derive(Drop)]
pub struct Page {
    alloc: Global,
    text: String,
    is_cut: bool,
}

impl Page {
    pub fn new(alloc: Global) -> Page {
        Page {
            alloc,
            text: String::new(alloc),
            is_cut: false,
        }
    }

    pub fn put(&mut self, piece: &str) {
        if self.text.push_str(piece).is_err() {
            self.is_cut = true;
        }
    }

    pub fn put_number(&mut self, number: u32) {
        match number.to_string(self.alloc) {
            Ok(piece) => self.put(piece.as_str()),
            Err(_) => self.is_cut = true,
        }
    }

    /// Puts a value as it is printed.
    pub fn put_value(&mut self, value: &Arg) {
        match value_text(self.alloc, value) {
            Ok(piece) => self.put_bytes(piece.as_slice()),
            Err(_) => self.is_cut = true,
        }
    }

    /// Puts a text that was printed.
    pub fn put_text(&mut self, text: Result<Bytes, NoMemory>) {
        match text {
            Ok(piece) => self.put_bytes(piece.as_slice()),
            Err(_) => self.is_cut = true,
        }
    }

    /// Puts bytes in hex.
    pub fn put_hex(&mut self, bytes: &[u8]) {
        match hex::encode(self.alloc, bytes) {
            Ok(piece) => self.put(piece.as_str()),
            Err(_) => self.is_cut = true,
        }
    }

    fn put_bytes(&mut self, bytes: &[u8]) {
        match std::str::from_utf8(bytes) {
            Ok(piece) => self.put(piece),
            Err(_) => self.put("?"),
        }
    }

    /// The whole text.
    pub fn into_text(self) -> Result<String, NoMemory> {
        let Page { text, is_cut, .. } = self;
        if is_cut { Err(NoMemory) } else { Ok(text) }
    }
}
