// A sink that takes few bytes a call.
use outside::{Failed, Sink};

/// A sink of which a write takes at most so many bytes, and at least one.
#[derive(Drop)]
pub struct NarrowSink<K> {
    pub sink: K,
    pub most: usize,
}

impl<K: Sink> Sink for NarrowSink<K> {
    ghost written = { λ narrow. K.written narrow.sink };

    ghost faults = { λ narrow. K.faults narrow.sink };

    ghost faults_fit = { λ narrow. K.faults_fit narrow.sink };

    fn write(&mut self, piece: &[u8]) -> Result<usize, Failed> {
        let count = piece.len().min(self.most.max(1));
        self.sink.write(&piece[..count])
    }
}
