ghost use Rattle.std.specs.Prelude.{◌≡◌, ◌<◌, ◌≤◌, ◌++◌, [], IfOk, OnOk, length, replicate};
ghost use Rattle.fact_readers.specs.Writers.{IsPlain, without_commits};
ghost use Rattle.fact_readers.specs.Readers.{seen_only};

use crate::book::{Front, Naming, Opened};
use crate::change::RowChange;
use crate::commit::Commit;
use crate::reader::FactReader;
use crate::version::Version;
use crate::writer::{Copies, FactWriter};
use base_bytes::NoMemory;
use left_right::Absorb;
use left_right::writer::Writer;
use std::alloc::Global;
use std::sync::Wait;

/// Adds so many readers that have seen what the front has.
#[tactic(auto, using(crate::proofs::Versions::replicate_more))]
fn seat<J: Naming>(
    copies: &Copies<J>,
    front: &Front<J>,
    readers: &mut Vec<FactReader<J>>,
    count: u32,
) -> Result<(), NoMemory>
where
    Version<J>: Absorb<Commit<J>, State = [[RowChange; 0]; 0]>,
    ensures { OnOk result (readers.new.items ≡ readers.old.items ++ replicate count (seen_only front.now)) }
{
    for _ in 0..count {
        let seat = copies.factory().reader()?;
        readers.push(FactReader::new(seat, front.again()))?;
    }
    Ok(())
}

/// A writer without commits and so many readers that have seen none; or memory runs out. It may wait.
pub fn readers<J: Naming, R: Wait + Sync>(
    rt: &R,
    alloc: Global,
    opened: Opened,
    count: u32,
) -> Result<(FactWriter<J>, Vec<FactReader<J>>), NoMemory>
where
    Version<J>: Absorb<Commit<J>, State = [[RowChange; 0]; 0]>,
    requires count { (0 < count) × (count ≤ 8) }
    requires book { opened ≡ J.book }
    requires plain { IsPlain ⟦<Version<J> as Absorb<Commit<J>>>⟧.state ⟦<Version<J> as Absorb<Commit<J>>>⟧.applied }
    ensures writer { IfOk result (λ r. r.0 ≡ without_commits) }
    ensures readers { IfOk result (λ r. r.1.items ≡ replicate count (seen_only [])) }
{
    let (book, front) = opened.named::<J>();
    let first = Version::new(alloc, front.again());
    let second = Version::new(alloc, front.again());
    let mut readers = Vec::new(alloc);
    let copies: Copies<J> = Writer::new(alloc, first, second, count as usize)?;
    if seat(&copies, &front, &mut readers, count).is_err() {
        copies.take(rt);
        return Err(NoMemory);
    }
    Ok((FactWriter::over(alloc, book, front, copies), readers))
}
