//! Lines that are counted as they are written.

ghost use Rattle.std.specs.Prelude.{◌≡◌, ◌≤◌, ◌<◌, ◌+◌, ◌++◌, IfOk, OnOk, length, map, ◌∷◌, []};
ghost use Rattle.script_texts.specs.Shown.{count_text};

use base_bytes::{Bytes, NoMemory, Text};
use script_texts::count_text;
use std::alloc::Global;

/// The text of some lines, and how many there are.
#[derive(Drop)]
pub struct Lines {
    pub count: usize,
    pub text: Bytes,
}

impl Lines {
    pub fn new(alloc: Global) -> Lines
        ensures none { result.count ≡ 0 }
        ensures text { result.text ≡ [] }
    {
        Lines {
            count: 0,
            text: Bytes::new(alloc),
        }
    }

    /// Adds a line, which isn't empty. So there are never more lines than bytes.
    pub fn push(&mut self, alloc: Global, line: &[u8]) -> Result<(), NoMemory>
        requires few { self.old.count ≤ length self.old.text }
        requires some { 0 < length line.now }
        ensures few { OnOk result (self.new.count ≤ length self.new.text) }
        ensures counted { OnOk result (self.new.count ≡ self.old.count + 1) }
        ensures text { OnOk result (self.new.text ≡ self.old.text ++ line.now) }
    {
        self.text.extend(alloc, line)?;
        let has_room = self.count < self.text.len();
        prove!(has_room);
        self.count += 1;
        Ok(())
    }

    /// The line that says how many follow, and the lines.
    pub fn headed(self, alloc: Global, verb: &str, name: &Text) -> Result<Bytes, NoMemory>
        ensures { IfOk result (λ text. text ≡ count_text verb.now (name.now ∷ []) self.count ++ self.text) }
    {
        let mut text = count_text(alloc, verb, &[name.as_str()], self.count)?;
        text.extend(alloc, self.text.as_slice())?;
        Ok(text)
    }
}
