// A state that takes commands one by one, with cuts and entries as the batches of two strands have them.
use crate::{Tried, add};
use base_bytes::{Id, NoMemory};
use braid_run::{Entries, Entry, Outcome, Ran, State};
use command::{Graph, id_of};
use fact_store::{FactBase, Facts};
use policy_meaning::Effects;
use samples::made::{Step, command};
use std::alloc::Global;
use std::test::*;

fn entry(alloc: Global, id: Id) -> Entry {
    Entry {
        id,
        outcome: Outcome::Pass,
        effects: Effects::new(alloc),
    }
}

/// An entry of this id, then entries of those.
fn ran(alloc: Global, id: Id, others: &[Id]) -> Result<Ran<Facts>, NoMemory> {
    let mut entries = Entries::new(alloc);
    entries.push(alloc, entry(alloc, id))?;
    for id in others {
        entries.push(alloc, entry(alloc, *id))?;
    }
    Ok(Ran {
        facts: Facts::empty(alloc),
        entries,
    })
}

/// Adds the command of a step, keeps so many entries, and puts its own and those of others behind them. Answers its id.
fn grown(
    alloc: Global,
    state: &mut Tried,
    step: Step,
    cut: usize,
    others: &[Id],
) -> Result<Option<Id>, NoMemory> {
    let Some(command) = command(alloc, state.graph(), step)? else {
        return Ok(None);
    };
    let id = id_of(&command);
    let ran = ran(alloc, id, others)?;
    match add(alloc, state, command, cut, ran)? {
        true => Ok(Some(id)),
        false => Ok(None),
    }
}

fn are_of(entries: &Entries, ids: &[Id]) -> bool {
    let entries = entries.as_slice();
    if entries.len() != ids.len() {
        return false;
    }
    for i in 0..ids.len() {
        if i < entries.len() && entries[i].id != ids[i] {
            return false;
        }
    }
    true
}

fn holds(state: &Tried, graph_id: Id, commands: usize, entries: &[Id]) -> bool {
    state.graph_id() == Some(graph_id)
        && state.graph().len() == commands
        && are_of(state.entries(), entries)
}

fn is_empty(state: &Tried) -> bool {
    state.graph_id().is_none() && state.graph().len() == 0 && state.entries().len() == 0
}

/// The state of an init, named by it.
fn begun(alloc: Global) -> Result<Option<(Tried, Id)>, NoMemory> {
    let mut state: Tried = State::empty(alloc)?;
    let Some(init) = command(alloc, state.graph(), Step::Init(0))? else {
        return Ok(None);
    };
    let id = id_of(&init);
    state.name_graph(id);
    match grown(alloc, &mut state, Step::Init(0), 0, &[])? {
        Some(id) => Ok(Some((state, id))),
        None => Ok(None),
    }
}

/// Two strands behind an init, of which the second is run first.
fn two_strands(alloc: Global, state: &mut Tried) -> Result<Option<(Id, Id)>, NoMemory> {
    let Some(low) = grown(alloc, state, Step::Basic(1, 0, 1), 1, &[])? else {
        return Ok(None);
    };
    match grown(alloc, state, Step::Basic(10, 0, 2), 1, &[low])? {
        Some(high) => Ok(Some((low, high))),
        None => Ok(None),
    }
}

#[test]
fn a_state_begins_empty(rt: HostRuntime) -> Result<(), Fail> {
    let state: Tried = State::empty(rt.alloc())?;
    assert!(rt; is_empty(&state));
    Ok(())
}

// The copy holds what the state held, and stays when the state goes on.
#[test]
fn a_state_grows_and_its_copy_stays(rt: HostRuntime) -> Result<(), Fail> {
    let alloc = rt.alloc();
    let Some((mut state, init)) = begun(alloc)? else {
        assert!(rt; false, "no init");
        return Ok(());
    };
    let Some((low, high)) = two_strands(alloc, &mut state)? else {
        assert!(rt; false, "no strands");
        return Ok(());
    };
    let copy = state.copy(alloc)?;
    let last = grown(alloc, &mut state, Step::Basic(7, 2, 3), 1, &[])?;
    assert!(rt; holds(&copy, init, 3, &[init, high, low]));
    assert!(rt; last.is_some_and(|last| holds(&state, init, 4, &[init, last])));
    Ok(())
}

#[test]
fn entries_are_copied(rt: HostRuntime) -> Result<(), Fail> {
    let alloc = rt.alloc();
    let one = Id::new([1; 32]);
    let other = Id::new([2; 32]);
    let made = ran(alloc, one, &[other])?;
    let mut copy = Entries::from_slice(alloc, made.entries.as_slice())?;
    copy.reserve(alloc, 1)?;
    assert!(rt; are_of(&made.entries, &[one, other]));
    assert!(rt; are_of(&copy.copy(alloc)?, &[one, other]));
    Ok(())
}
