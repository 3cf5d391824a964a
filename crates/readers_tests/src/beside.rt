ghost use Rattle.std.specs.Prelude.{◌≡◌, false};
ghost use denote.Param.Send.{IsSync};

use crate::samples::{all_rows, commit, counting_row, counts, rows_after};
use fact_readers::{FactReader, FactWriter, Naming, Opened, readers};
use std::alloc::Global;
use std::marker::Brand;
use std::process::Abort;
use std::sync::Wait;
use std::test::*;
use std::thread::{Threads, join};

/// How many commits the writer publishes, one by one.
const COMMITS: u32 = 10_000;

/// How many reads a reader makes of each kind, if it doesn't see the last commit before.
const READS: u32 = 1_000_000;

/// Publishes all commits, and says whether it did.
fn write_all<J: Naming, R: Wait + Sync>(rt: &R, alloc: Global, writer: &mut FactWriter<J>) -> bool
    requires { writer.old.told_last ≡ false }
{
    'commits: for at in 0..COMMITS {
        let Ok(changes) = commit(alloc, at + 1) else {
            return false;
        };
        if writer.append(changes).is_err() {
            return false;
        }
        if writer.publish(rt) != Ok(u64::from(at + 1)) {
            return false;
        }
    }
    true
}

/// Whether there are as many rows as after so many commits.
fn is_count_after((commits, rows): (u64, u64)) -> bool {
    match u32::try_from(commits) {
        Ok(commits) => rows == rows_after(commits),
        Err(_) => false,
    }
}

/// Reads until it sees the last commit, and counts the answers that aren't those after the commits that they name, or go back.
fn read_on<J: Naming, R: Wait + Sync>(rt: &R, alloc: Global, reader: &mut FactReader<J>) -> u32 {
    let all = all_rows(alloc);
    let Ok(one) = counting_row(alloc) else {
        return 1;
    };
    let (mut last, mut wrong) = (0u64, 0u32);
    'reads: for _ in 0..READS {
        let found = reader.count_up_to(rt, &all, u64::MAX);
        if found.0 < last || !is_count_after(found) {
            wrong = wrong.saturating_add(1);
        }
        match reader.first(rt, alloc, &one) {
            Ok((commits, row)) => {
                last = commits;
                if commits < found.0 || !counts(row, commits) {
                    wrong = wrong.saturating_add(1);
                }
            }
            Err(_) => return wrong.saturating_add(1),
        }
        if last == u64::from(COMMITS) {
            return wrong;
        }
    }
    wrong
}

/// The readers one after the other: how many of their answers are wrong.
fn read_each<J: Naming, R: Wait + Sync>(
    rt: &R,
    alloc: Global,
    readers: &mut [FactReader<J>],
) -> u32 {
    let mut wrong = 0u32;
    for reader in readers {
        wrong = wrong.saturating_add(read_on(rt, alloc, reader));
    }
    wrong
}

/// Two readers beside each other.
fn two<J: Naming + Send + Sync, R: Threads + Wait + Sync>(
    rt: &R,
    alloc: Global,
    readers: &mut [FactReader<J>],
) -> u32
    requires { IsSync R.row }
{
    let (one, other) = readers.split_at_mut(readers.len() / 2);
    let (one, other) = join(
        rt,
        || read_each(rt, alloc, one),
        || read_each(rt, alloc, other),
    );
    one.saturating_add(other)
}

/// Four readers beside each other.
fn four<J: Naming + Send + Sync, R: Threads + Wait + Sync>(
    rt: &R,
    alloc: Global,
    readers: &mut [FactReader<J>],
) -> u32
    requires { IsSync R.row }
{
    let (one, other) = readers.split_at_mut(readers.len() / 2);
    let (one, other) = join(
        rt,
        || -> u32
            requires { IsSync R.row }
        { two(rt, alloc, one) },
        || -> u32
            requires { IsSync R.row }
        { two(rt, alloc, other) },
    );
    one.saturating_add(other)
}

/// Four readers beside a writer, and a read of each after a `tell_last`.
fn watched<J: Naming + Send + Sync, R: Threads + Wait + Abort + Sync>(
    rt: &R,
    alloc: Global,
    opened: Opened,
) -> Result<(), Fail>
    requires sync { IsSync R.row }
    requires book { opened ≡ J.book }
{
    let wanted = all_rows(alloc);
    let (mut writer, mut all) = readers::<J, R>(rt, alloc, opened, 4)?;
    let seats = all.as_mut_slice();
    let there = &mut writer;
    let (wrong, written) = join(
        rt,
        || -> u32
            requires { IsSync R.row }
        { four(rt, alloc, seats) },
        || -> bool
            requires { there.now.told_last ≡ false }
        { write_all(rt, alloc, there) },
    );
    let mut ended = 0u32;
    for mut reader in all {
        reader.learn(writer.tell_last());
        let found = reader.count_up_to(rt, &wanted, u64::MAX);
        if found == (u64::from(COMMITS), rows_after(COMMITS)) {
            ended = ended.saturating_add(1);
        }
    }
    writer.close(rt);
    assert!(rt; written);
    assert_eq!(rt; wrong, 0);
    assert_eq!(rt; ended, 4);
    Ok(())
}

#[test]
fn each_answer_is_that_after_the_commits_that_it_names(rt: HostRuntime) -> Result<(), Fail> {
    watched::<Brand, _>(&rt, rt.alloc(), Opened::new())
}
