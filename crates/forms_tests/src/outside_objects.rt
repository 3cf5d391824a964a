use base_bytes::{Bytes, Id, NoMemory, Tag, Text};
use outside::{
    Disk, Envelope, Failed, FileDisk, Files, HostFiles, HostSink, ListEnvelope, MemoryDisk,
    MemoryFiles, MemorySink, ReadFail, Sink, TagEnvelope, author_of,
};
use std::alloc::Global;
use std::io::{ErrorKind, Write};
use std::process::Abort;
use std::test::*;
use std::{fs, io};

// Whether a read of this name gives these bytes, or fails where none are given.
fn reads<F: Files>(
    alloc: Global,
    files: &mut F,
    name: &str,
    limit: u64,
    want: Option<&str>,
) -> Result<bool, NoMemory> {
    let name = Text::from_slice(alloc, name)?;
    match (files.read(alloc, name, limit), want) {
        (Ok(bytes), Some(want)) => Ok(bytes.as_slice() == want.as_bytes()),
        (Err(ReadFail::NoMemory), _) => Err(NoMemory),
        (Err(ReadFail::Failed), None) => Ok(true),
        _ => Ok(false),
    }
}

// The sixth read is planned to fail.
#[test]
fn files_in_memory_are_read(rt: HostRuntime) -> Result<(), Fail> {
    let alloc = rt.alloc();
    let mut held = Vec::new(alloc);
    for (name, bytes) in [("plan", "ship"), ("note", "abc"), ("plan", "other")] {
        let name = Text::from_slice(alloc, name)?;
        held.push((name, Bytes::from_slice(alloc, bytes.as_bytes())?))?;
    }
    let mut files = MemoryFiles::new(alloc, held, vec![in alloc; 6]?);
    for (name, limit, want) in [
        ("plan", 9, Some("ship")),
        ("plan", 3, Some("ship")),
        ("plan", 1, Some("sh")),
        ("note", 0, Some("a")),
        ("gone", 9, None),
        ("note", 9, None),
        ("note", 9, Some("abc")),
    ] {
        assert!(rt;
            reads(alloc, &mut files, name, limit, want)?,
            "{name} to {limit}"
        );
    }
    Ok(())
}

#[test]
fn a_sink_in_memory_keeps_what_it_took(rt: HostRuntime) -> Result<(), Fail> {
    let alloc = rt.alloc();
    let mut sink = MemorySink::new(alloc, vec![in alloc; 2]?);
    assert!(rt; sink.write(b"ab")? == 2);
    assert!(rt; sink.write(b"lost") == Err(Failed));
    assert!(rt; sink.bytes() == b"ab".as_slice());
    assert!(rt; sink.write(b"c")? == 1);
    assert!(rt; sink.bytes() == b"abc".as_slice());
    Ok(())
}

// A write that is planned to fail leaves the first half of its piece.
#[test]
fn a_disk_in_memory_is_written(rt: HostRuntime) -> Result<(), Fail> {
    let alloc = rt.alloc();
    let bytes = Bytes::from_slice(alloc, b"abcd")?;
    let mut disk = MemoryDisk::new(alloc, bytes, vec![in alloc; 3, 5]?);
    for (at, piece, works, want) in [
        (1, "XY", true, "aXYd"),
        (3, "12", true, "aXY12"),
        (0, "torn", false, "toY12"),
        (5, "3", true, "toY123"),
        (5, "4567", false, "toY1245"),
    ] {
        assert!(rt; at <= disk.bytes().len() as u64);
        assert!(rt;
            disk.write_at(at, piece.as_bytes()).is_ok() == works,
            "at {at}"
        );
        assert!(rt; disk.bytes() == want.as_bytes(), "at {at}");
    }
    Ok(())
}

#[test]
fn a_disk_in_memory_is_read(rt: HostRuntime) -> Result<(), Fail> {
    let alloc = rt.alloc();
    let bytes = Bytes::from_slice(alloc, b"abcd")?;
    let mut disk = MemoryDisk::new(alloc, bytes, vec![in alloc; 3, 5]?);
    for (at, want, filled) in [
        (0, Ok(3), "abc"),
        (2, Ok(2), "cd."),
        (0, Err(Failed), "..."),
        (4, Ok(0), "..."),
    ] {
        let mut into = [b'.'; 3];
        assert!(rt; disk.read_at(at, &mut into) == want, "at {at}");
        assert!(rt; into.as_slice() == filled.as_bytes(), "at {at}");
    }
    assert!(rt; disk.sync() == Err(Failed));
    assert!(rt; disk.sync() == Ok(()));
    assert!(rt; disk.len() == Ok(4));
    Ok(())
}

const AUTHOR: [u8; 32] = [34; 32];

// SHA-256 of the text `aranya-tag:`, the author and `body`, as another program makes it.
const TAG: [u8; 32] = [
    0x38, 0x23, 0xad, 0x36, 0x1c, 0x92, 0x87, 0x45, 0x09, 0xfa, 0xa1, 0x06, 0x50, 0x3d, 0x9e, 0x21,
    0xe7, 0x41, 0x22, 0xc6, 0x0a, 0xba, 0x1f, 0x94, 0x7a, 0x36, 0x10, 0x22, 0xee, 0xe9, 0x42, 0xea,
];

// The tag of a seal, which opens, while nothing does of which one byte is another.
fn assert_seals<E: Envelope>(rt: &impl Abort, envelope: &mut E) -> Result<Tag, Failed> {
    let sealed = envelope.seal(&Id::new(AUTHOR), b"body")?;
    assert!(rt; sealed.as_slice() == TAG.as_slice());
    let mut author = AUTHOR;
    author[31] = 35;
    let mut tag = TAG;
    tag[31] = 0xeb;
    assert!(rt; envelope.opens(&Id::new(AUTHOR), b"body", &sealed));
    assert!(rt; !envelope.opens(&Id::new(author), b"body", &sealed));
    assert!(rt; !envelope.opens(&Id::new(AUTHOR), b"bodz", &sealed));
    let tag = Tag::from_slice(&tag).unwrap();
    assert!(rt; !envelope.opens(&Id::new(AUTHOR), b"body", &tag));
    Ok(sealed)
}

#[test]
fn envelopes_open_what_they_seal(rt: HostRuntime) -> Result<(), Fail> {
    let alloc = rt.alloc();
    let author = Id::new(AUTHOR);
    let mut list = ListEnvelope::new(alloc, vec![in alloc; 2]?);
    let listed = assert_seals(&rt, &mut list)?;
    let tagged = assert_seals(&rt, &mut TagEnvelope)?;
    assert!(rt; list.opens(&author, b"body", &tagged));
    assert!(rt; TagEnvelope.opens(&author, b"body", &listed));
    assert!(rt; list.seal(&author, b"body").is_err());
    let author = author_of(&Text::from_slice(alloc, "a")?);
    let text = hex::encode(alloc, author.as_slice())?;
    assert!(rt;
        text.as_str() == "58f468f820d490d5fadd64f8a6425a391cd001765dc4edd9dff0b5f3fadc4a96"
    );
    Ok(())
}

// A name that is a folder's is read as little as one that isn't there.
#[test]
fn files_of_the_host_are_read(rt: HostRuntime) -> Result<(), Fail> {
    fs::write(&rt, "outside_test.txt", "ship")?;
    let mut files = HostFiles::new(rt);
    for (name, limit, want) in [
        ("outside_test.txt", 9, Some("ship")),
        ("outside_test.txt", 3, Some("ship")),
        ("outside_test.txt", 1, Some("sh")),
        ("outside_gone.txt", 9, None),
        (".", 9, None),
    ] {
        assert!(rt;
            reads(rt.alloc(), &mut files, name, limit, want)?,
            "{name} to {limit}"
        );
    }
    fs::remove_file(&rt, "outside_test.txt")?;
    Ok(())
}

// The first call makes the file, and another disk finds what was written there. A name that is a folder's is no disk.
#[test]
fn a_disk_of_the_host_keeps_its_file(rt: HostRuntime) -> Result<(), Fail> {
    let alloc = rt.alloc();
    let name = "outside_disk_test.bin";
    let mut disk = FileDisk::new(&rt, Text::from_slice(alloc, name)?);
    assert!(rt; fs::metadata(&rt, name).is_err());
    assert!(rt; disk.len() == Ok(0));
    assert!(rt; disk.write_at(0, b"abcd").is_ok());
    assert!(rt; disk.sync().is_ok());
    assert!(rt; disk.write_at(2, b"XYZ").is_ok());
    assert!(rt; disk.len() == Ok(5));
    let mut other = FileDisk::new(&rt, Text::from_slice(alloc, name)?);
    let mut into = [b'.'; 4];
    assert!(rt; other.read_at(3, &mut into) == Ok(2));
    assert!(rt; into.as_slice() == b"YZ..".as_slice());
    let mut folder = FileDisk::new(&rt, Text::from_slice(alloc, ".")?);
    assert!(rt; folder.sync() == Err(Failed));
    fs::remove_file(&rt, name)?;
    Ok(())
}

#[derive(Drop)]
struct Broken;

impl Write for Broken {
    fn write(&mut self, _bytes: &[u8]) -> io::Result<usize> {
        Err(ErrorKind::BrokenPipe.into())
    }

    fn flush(&mut self) -> io::Result<()> {
        Ok(())
    }
}

// Over a list, a place for three bytes, and a writer that fails.
#[test]
fn a_sink_of_the_host_hands_on_what_it_takes(rt: HostRuntime) -> Result<(), Fail> {
    let mut list = Vec::new(rt.alloc());
    assert!(rt; HostSink::new(&mut list).write(b"ab")? == 2);
    assert!(rt; HostSink::new(&mut list).write(b"c")? == 1);
    assert!(rt; list.as_slice() == b"abc".as_slice());
    let mut place = [0; 3];
    let mut sink = HostSink::new(place.as_mut_slice());
    assert!(rt; sink.write(b"ab")? == 2);
    assert!(rt; sink.write(b"cd")? == 1);
    assert!(rt; sink.write(b"d") == Err(Failed));
    assert!(rt; HostSink::new(Broken).write(b"a") == Err(Failed));
    Ok(())
}
