// A writer of the host as a sink.
ghost use Rattle.std.specs.Prelude.{◌≡◌, ◌<◌, None, length};
ghost use Rattle.std.specs.Io.KnownBytes.{WriteAppends};
ghost use Rattle.outside.specs.Causes.{HasCause, faults_after};
ghost use Rattle.outside.specs.Host.{host_sink_writer, host_sink_faults};
ghost use Rattle.outside.specs.Sink.{TakesSome};

use crate::count::Count;
use crate::{Failed, Sink};
use std::io::Write;

/// A sink over a writer. What was written isn't told.
#[derive(Drop)]
pub struct HostSink<W: Write + Drop> {
    writer: W,
    faults: Count,
}

impl<W: Write + Drop> HostSink<W> {
    /// A sink over this writer, which is to keep nothing back: it is never flushed. Takes no memory.
    pub fn new(writer: W) -> HostSink<W>
        ensures writer { host_sink_writer result ≡ writer }
        ensures faults { host_sink_faults result ≡ 0 }
    {
        HostSink {
            writer,
            faults: Count::new(),
        }
    }
}

impl<W: Write + Drop> Sink for HostSink<W> {
    ghost written = { λ sink. None };

    ghost faults = { host_sink_faults };

    ghost faults_fit = { λ sink. sink.faults.fits };

    fn write(&mut self, piece: &[u8]) -> Result<usize, Failed>
        requires { 0 < length piece.now }
        ensures count { TakesSome result piece.now }
        ensures cause { HasCause (host_sink_faults self.old) (host_sink_faults self.new) result }
        ensures faults { host_sink_faults self.new ≡ faults_after result (host_sink_faults self.old) }

        // A writer that tells what it holds gains exactly the bytes that were taken.
        ensures passes { WriteAppends (W.contents (host_sink_writer self.old))
            (W.contents (host_sink_writer self.new)) result piece.now }
    {
        match self.writer.write(piece) {
            Ok(count) if count > 0 => Ok(count),
            _ => {
                self.faults.raise();
                Err(Failed)
            }
        }
    }
}
