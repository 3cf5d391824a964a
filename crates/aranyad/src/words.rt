use base_bytes::{NoMemory, Text};
use std::alloc::Global;
use std::env::FillError;
use std::rt::Env;

/// A word of the command line, or None behind the last. A word that isn't UTF-8 is the empty word.
fn word<R: Env>(rt: &R, alloc: Global, place: usize) -> Result<Option<Text>, NoMemory> {
    let mut room = 256usize;
    for _ in 0..usize::BITS {
        let mut bytes = vec![in alloc; 0u8; room]?;
        match rt.arg(place, &mut bytes) {
            Ok(length) => {
                bytes.truncate(length);
                let text = Text::from_utf8(alloc, bytes.as_slice())?;
                return Ok(Some(text.unwrap_or(Text::new(alloc))));
            }
            Err(FillError::NotPresent) => return Ok(None),
            Err(FillError::TooLong) => room = room.saturating_add(room),
        }
    }
    Err(NoMemory)
}

/// The words after the program's name.
pub fn words<R: Env>(rt: &R, alloc: Global) -> Result<Vec<Text>, NoMemory> {
    let mut words = Vec::new(alloc);
    for place in 1..usize::MAX {
        match word(rt, alloc, place)? {
            Some(word) => words.push(word)?,
            None => break,
        }
    }
    Ok(words)
}
