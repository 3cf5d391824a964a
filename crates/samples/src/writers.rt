// Graphs of many commands, made by numbers that are drawn from a seed.
ghost use Rattle.std.specs.Prelude.{◌<◌};

use crate::made::Step;
use base_bytes::NoMemory;
use std::alloc::Global;

/// Numbers that a seed determines.
#[derive(Drop)]
struct Draws {
    state: usize,
}

impl Draws {
    /// A number below the bound, or 0 at the bound 0.
    fn below(&mut self, bound: usize) -> usize {
        self.state = self
            .state
            .wrapping_mul(6_364_136_223_846_793_005)
            .wrapping_add(1_442_695_040_888_963_407);
        if bound == 0 {
            0
        } else {
            (self.state >> 33) % bound
        }
    }
}

/// What a writer does next: of eight steps one merges the other head, if the writer has one of its own, and one finalizes.
fn next_step(draws: &mut Draws, own: usize, other: usize, place: usize) -> Step {
    let payload = (place % 256) as u8;
    match draws.below(8) {
        0 if own > 0 && own != other => Step::Merge(own, other),
        1 => Step::Finalize(own, payload),
        _ => Step::Basic(u32::try_from(draws.below(4)).unwrap_or(0), own, payload),
    }
}

/// The steps of a graph of so many commands by so many writers. Each writer goes on from its last command, and now and then
/// merges the last one of another.
pub fn by_writers(
    alloc: Global,
    size: usize,
    writers: usize,
    seed: usize,
) -> Result<Vec<Step>, NoMemory> {
    let mut draws = Draws { state: seed };
    let mut heads = vec![in alloc; 0usize; writers]?;
    let mut steps = Vec::new(alloc);
    steps.push(Step::Init(0))?;
    for place in 1..size {
        let writer = draws.below(writers);
        let other = draws.below(writers);
        let own_head = heads.get(writer).copied().unwrap_or(0);
        let other_head = heads.get(other).copied().unwrap_or(0);
        steps.push(next_step(&mut draws, own_head, other_head, place))?;
        if writer < heads.len() {
            heads[writer] = place;
        }
    }
    Ok(steps)
}
