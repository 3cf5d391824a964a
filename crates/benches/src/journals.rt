use base_bytes::{Id, Text};
use journal::{Commit, open_journal};
use outside::{Disk, FileDisk};
use std::io;
use std::io::{Error, ErrorKind};

/// The policy of the journals that are opened.
const DIGEST: [u8; 32] = [17; 32];

/// How many bytes a plain read asks for at once.
const PIECE: usize = 65_536;

/// How many commits and commands a journal holds.
#[derive(Clone, Copy)]
pub struct Held {
    pub commits: usize,
    pub commands: usize,
}

fn disk_at<'a>(rt: &'a HostRuntime, path: &str) -> io::Result<FileDisk<&'a HostRuntime>> {
    match Text::from_slice(rt.alloc(), path) {
        Ok(path) => Ok(FileDisk::new(rt, path)),
        Err(_) => Err(Error::from(ErrorKind::OutOfMemory)),
    }
}

/// Opens the journal in the file at this path, and begins one where there is none.
pub fn open_at(rt: &HostRuntime, path: &str) -> io::Result<Held> {
    let commits = match open_journal(rt.alloc(), disk_at(rt, path)?, &Id::new(DIGEST)) {
        Ok((_journal, commits)) => commits,
        Err(_) => return Err(Error::from(ErrorKind::InvalidData)),
    };
    let mut commands = 0usize;
    for (_, commit) in &commits {
        if let Commit::Commands(list) = commit {
            commands = commands.saturating_add(list.len());
        }
    }
    Ok(Held {
        commits: commits.len(),
        commands,
    })
}

/// Reads the file at this path in pieces, one over the other, and answers how many bytes it has.
pub fn scan_at(rt: &HostRuntime, path: &str) -> io::Result<u64> {
    let mut disk = disk_at(rt, path)?;
    let mut piece = vec![in rt.alloc(); 0u8; PIECE]?;
    let mut place = 0u64;
    for _ in 0..u64::MAX {
        match disk.read_at(place, piece.as_mut_slice()) {
            Ok(0) => break,
            Ok(count) => place = place.saturating_add(count as u64),
            Err(_) => return Err(Error::from(ErrorKind::InvalidData)),
        }
    }
    Ok(place)
}

/// Reads the file at this path in pieces and keeps them all, and answers how many there are.
pub fn keep_at(rt: &HostRuntime, path: &str) -> io::Result<usize> {
    let mut disk = disk_at(rt, path)?;
    let mut pieces = Vec::new(rt.alloc());
    let mut place = 0u64;
    for _ in 0..u64::MAX {
        let mut piece = vec![in rt.alloc(); 0u8; PIECE]?;
        match disk.read_at(place, piece.as_mut_slice()) {
            Ok(0) => break,
            Ok(count) => place = place.saturating_add(count as u64),
            Err(_) => return Err(Error::from(ErrorKind::InvalidData)),
        }
        pieces.push(piece)?;
    }
    Ok(pieces.len())
}
