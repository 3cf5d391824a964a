// A script is read: `bench/script` takes the time.
use script::{ScriptFault, read_script};
use std::io;

pub const SAMPLE: &str =
    "replica a\ninit a begin()\nact a put(P { a: Some(1), b: 0x00 })\nfacts a\n";

/// How many lines a script has, or which is refused.
pub fn report_script(rt: &HostRuntime, script: &[u8]) -> io::Result<()> {
    match read_script(rt.alloc(), script) {
        Ok(lines) => println!(rt; "lines {}", lines.len()),
        Err(ScriptFault::Refused { line }) => println!(rt; "script refused: line {line}"),
        Err(ScriptFault::NoMemory) => Err(io::Error::from(io::ErrorKind::OutOfMemory)),
    }
}
