// Tables of runs of `run_command` on the objects in memory.
ghost use Rattle.std.specs.Prelude.{◌≡◌, length};

mod checks;
mod devices;
mod documents;
mod documents_of_rows;
mod journal_rows;
mod limits;
mod long_session_rows;
mod narrow_sink;
mod numbering_envelope;
mod order_rows;
mod refusal_rows;
mod rows;
mod scripts;
mod session_rows;
mod team_rows;
mod value_rows;
mod words;

use crate::run_command::run_command;
use crate::tests::journal_rows::{Failed, Opened};
use crate::tests::narrow_sink::NarrowSink;
use crate::tests::numbering_envelope::NumberingEnvelope;
use crate::tests::rows::{FIRST, Row};
use base_bytes::{Bytes, NoMemory, Text};
use outside::{Envelope, ListEnvelope, MemoryDisk, MemoryFiles, MemorySink};
use std::alloc::Global;
use std::process::Abort;
use std::test::*;

// A text whose last space is repeated until there are so many bytes.
fn filled(alloc: Global, text: &str, length: usize) -> Result<Bytes, NoMemory> {
    let text = text.as_bytes();
    let place = text.iter().rposition(|byte| *byte == b' ').unwrap_or(0);
    let (front, rest) = text.split_at(place);
    let mut bytes = Bytes::from_slice(alloc, front)?;
    bytes.extend(
        alloc,
        vec![in alloc; b' '; length.saturating_sub(text.len())]?.as_slice(),
    )?;
    bytes.extend(alloc, rest)?;
    Ok(bytes)
}

// The calls that are to fail, of which there is at most one.
fn failing(alloc: Global, number: u64) -> Result<Vec<u64>, NoMemory> {
    let mut numbers = Vec::new(alloc);
    numbers.push(number)?;
    Ok(numbers)
}

fn row_words(alloc: Global, row: &Row) -> Result<Vec<Text>, NoMemory> {
    let mut words = Vec::new(alloc);
    for word in row.words {
        words.push(Text::from_slice(alloc, word)?)?;
    }
    Ok(words)
}

fn row_files(alloc: Global, row: &Row) -> Result<MemoryFiles, NoMemory> {
    let mut files = Vec::new(alloc);
    let mut policy = filled(alloc, row.policy, row.policy_length)?;
    policy.extend(alloc, row.policy_end)?;
    files.push((Text::from_slice(alloc, "policy")?, policy))?;
    let script = filled(alloc, row.script, row.script_length)?;
    files.push((Text::from_slice(alloc, "script")?, script))?;
    Ok(MemoryFiles::new(alloc, files, failing(alloc, row.failing_read)?))
}

// Whether bytes are these pieces, one behind the other.
fn are_pieces(bytes: &[u8], pieces: &[&str]) -> bool {
    let mut rest = bytes;
    for piece in pieces {
        match rest.strip_prefix(piece.as_bytes()) {
            Some(behind) => rest = behind,
            None => return false,
        }
    }
    rest.is_empty()
}

// Makes the run of a row with this envelope over these disks, and asserts its status and all that it wrote.
fn assert_row_over<R: Abort, E: Envelope>(
    rt: &R,
    alloc: Global,
    row: &Row,
    env: &mut E,
    disks: &mut Vec<MemoryDisk>,
) -> Result<(), NoMemory>
    requires { length disks.old.items ≡ 8 }
    ensures { length disks.new.items ≡ 8 }
{
    let words = row_words(alloc, row)?;
    let mut files = row_files(alloc, row)?;
    let mut out = NarrowSink {
        sink: MemorySink::new(alloc, failing(alloc, row.failing_write)?),
        most: row.taken,
    };
    let status = run_command(alloc, words.as_slice(), &mut files, disks, env, &mut out);
    assert!(rt;
        status.number() == row.status,
        "{}: status {}",
        row.name,
        status.number()
    );
    assert!(rt;
        are_pieces(out.sink.bytes(), row.text),
        "{}: another text",
        row.name
    );
    Ok(())
}

// The same over empty disks.
fn assert_row_sealed<R: Abort, E: Envelope>(
    rt: &R,
    alloc: Global,
    row: &Row,
    env: &mut E,
) -> Result<(), NoMemory> {
    let mut disks = crate::empty_disks(alloc)?;
    assert_row_over(rt, alloc, row, env, &mut disks)
}

// The same with an envelope whose seals fail as the row says.
fn assert_row<R: Abort>(rt: &R, alloc: Global, row: &Row) -> Result<(), NoMemory> {
    let mut env = ListEnvelope::new(alloc, failing(alloc, row.failing_seal)?);
    assert_row_sealed(rt, alloc, row, &mut env)
}

fn assert_rows<R: Abort>(rt: &R, alloc: Global, rows: &[Row]) -> Result<(), NoMemory> {
    for row in rows {
        assert_row(rt, alloc, row)?;
    }
    Ok(())
}

// The same where the first disk has these bytes, and fails at the call of this number. Answers the bytes that it has then.
fn assert_row_on<R: Abort>(
    rt: &R,
    alloc: Global,
    row: &Row,
    bytes: Bytes,
    failing_call: u64,
) -> Result<Bytes, NoMemory> {
    let mut disks = crate::empty_disks(alloc)?;
    disks[0] = MemoryDisk::new(alloc, bytes, failing(alloc, failing_call)?);
    let mut env = ListEnvelope::new(alloc, failing(alloc, row.failing_seal)?);
    assert_row_over(rt, alloc, row, &mut env, &mut disks)?;
    Bytes::from_slice(alloc, disks[0].bytes())
}

// So many bytes of a journal, of which the one at the place is 7.
fn front_of(alloc: Global, journal: &[u8], length: usize, seven: usize) -> Result<Bytes, NoMemory> {
    let mut front = Bytes::new(alloc);
    for (place, byte) in journal.iter().enumerate() {
        if place < length {
            front.push(alloc, if place == seven { 7 } else { *byte })?;
        }
    }
    Ok(front)
}

// Whether a journal has the length and the gates of the first example's.
fn is_first_journal(journal: &[u8]) -> bool {
    for (place, gate) in journal_rows::GATES {
        match journal.get(place) {
            Some(byte) if *byte == gate => {}
            _ => return false,
        }
    }
    journal.len() == journal_rows::WHOLE
}

// Makes the runs of a row on fronts of the journal.
fn assert_opened<R: Abort>(
    rt: &R,
    alloc: Global,
    journal: &[u8],
    opened: &Opened,
) -> Result<(), NoMemory> {
    let row = Row {
        name: opened.name,
        policy: opened.policy,
        script: opened.script,
        status: opened.status,
        text: opened.text,
        ..FIRST
    };
    for length in opened.from..opened.to {
        let front = front_of(alloc, journal, length, opened.seven)?;
        assert_row_on(rt, alloc, &row, front, opened.failing_call)?;
    }
    Ok(())
}

fn assert_all_opened<R: Abort>(
    rt: &R,
    alloc: Global,
    journal: &[u8],
    rows: &[Opened],
) -> Result<(), NoMemory> {
    for opened in rows {
        assert_opened(rt, alloc, journal, opened)?;
    }
    Ok(())
}

#[test]
fn journals_are_kept_and_opened_again(rt: HostRuntime) -> Result<(), Fail> {
    let alloc = rt.alloc();
    let journal = assert_row_on(&rt, alloc, &FIRST, Bytes::new(alloc), 0)?;
    assert!(rt; is_first_journal(journal.as_slice()));
    assert_all_opened(&rt, alloc, journal.as_slice(), &journal_rows::ROWS)?;
    Ok(())
}

// Makes the first example's run on an empty disk whose call of this number fails, and then a run that opens what the disk has.
fn assert_failed<R: Abort>(
    rt: &R,
    alloc: Global,
    failing_call: u64,
    failed: &Failed,
) -> Result<(), NoMemory> {
    let row = Row {
        name: "a disk that fails",
        status: 6,
        text: failed.text,
        ..FIRST
    };
    let left = assert_row_on(rt, alloc, &row, Bytes::new(alloc), failing_call)?;
    let again = Row {
        name: "a disk that failed",
        script: journal_rows::ONE_LINE,
        text: failed.held,
        ..FIRST
    };
    assert_row_on(rt, alloc, &again, left, 0)?;
    Ok(())
}

#[test]
fn a_disk_that_failed_holds_whole_commits(rt: HostRuntime) -> Result<(), Fail> {
    for failed in &journal_rows::FAILED {
        for failing_call in failed.from..failed.to {
            assert_failed(&rt, rt.alloc(), failing_call, failed)?;
        }
    }
    Ok(())
}

#[test]
fn other_words_print_the_usage_line(rt: HostRuntime) -> Result<(), Fail> {
    for (name, words) in words::OTHERS {
        let row = Row {
            name,
            words,
            status: 2,
            text: words::USAGE,
            ..FIRST
        };
        assert_row(&rt, rt.alloc(), &row)?;
    }
    Ok(())
}

#[test]
fn documents_are_refused_with_their_line(rt: HostRuntime) -> Result<(), Fail> {
    for (name, policy, policy_end, text) in documents::REFUSED {
        let row = Row {
            name,
            policy,
            policy_end,
            status: 1,
            text,
            ..FIRST
        };
        assert_row(&rt, rt.alloc(), &row)?;
    }
    Ok(())
}

#[test]
fn policies_are_judged_without_a_script(rt: HostRuntime) -> Result<(), Fail> {
    assert_rows(&rt, rt.alloc(), &checks::ROWS)?;
    Ok(())
}

#[test]
fn scripts_run_or_are_refused(rt: HostRuntime) -> Result<(), Fail> {
    for rows in [
        scripts::ROWS.as_slice(),
        words::STORES.as_slice(),
        team_rows::ROWS.as_slice(),
        order_rows::ROWS.as_slice(),
        session_rows::ROWS.as_slice(),
        long_session_rows::ROWS.as_slice(),
        value_rows::ROWS.as_slice(),
        refusal_rows::ROWS.as_slice(),
    ] {
        assert_rows(&rt, rt.alloc(), rows)?;
    }
    Ok(())
}

#[test]
fn files_are_judged_in_order_up_to_their_limits(rt: HostRuntime) -> Result<(), Fail> {
    assert_rows(&rt, rt.alloc(), &limits::ROWS)?;
    Ok(())
}

#[test]
fn each_device_fails_in_turn(rt: HostRuntime) -> Result<(), Fail> {
    for (name, failing_read, failing_write, failing_seal, status, text) in devices::FAILURES {
        let row = Row {
            name,
            failing_read,
            failing_write,
            failing_seal,
            status,
            text,
            ..FIRST
        };
        assert_row(&rt, rt.alloc(), &row)?;
    }
    Ok(())
}

#[test]
fn a_narrow_sink_gets_the_whole_text(rt: HostRuntime) -> Result<(), Fail> {
    assert_rows(&rt, rt.alloc(), &devices::NARROW)?;
    Ok(())
}

#[test]
fn a_run_needs_no_told_tags(rt: HostRuntime) -> Result<(), Fail> {
    let mut env = NumberingEnvelope { seals: 0 };
    assert_row_sealed(&rt, rt.alloc(), &FIRST, &mut env)?;
    assert_row_sealed(&rt, rt.alloc(), &FIRST, &mut env)?;
    assert!(rt; env.seals == 4);
    Ok(())
}
