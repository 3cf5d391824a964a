use base_bytes::NoMemory;
use std::alloc::Global;

/// A text that grows piece by piece. Whether memory was there for all of it is asked once, at its end.
#[derive(Drop)]
pub struct Page {
    alloc: Global,
    text: String,
    is_cut: bool,
}

impl Page {
    pub fn new(alloc: Global) -> Page {
        Page {
            alloc,
            text: String::new(alloc),
            is_cut: false,
        }
    }

    pub fn put(&mut self, piece: &str) {
        if self.text.push_str(piece).is_err() {
            self.is_cut = true;
        }
    }

    /// Puts what stands between two parts, where there is one before.
    pub fn put_between(&mut self, is_first: bool, piece: &str) {
        if !is_first {
            self.put(piece);
        }
    }

    pub fn put_number(&mut self, number: i64) {
        match format!(in self.alloc; "{number}") {
            Ok(piece) => self.put(piece.as_str()),
            Err(_) => self.is_cut = true,
        }
    }

    pub fn put_count(&mut self, count: usize) {
        match format!(in self.alloc; "{count}") {
            Ok(piece) => self.put(piece.as_str()),
            Err(_) => self.is_cut = true,
        }
    }

    /// The whole text.
    pub fn into_text(self) -> Result<String, NoMemory> {
        let Page { text, is_cut, .. } = self;
        if is_cut { Err(NoMemory) } else { Ok(text) }
    }
}
