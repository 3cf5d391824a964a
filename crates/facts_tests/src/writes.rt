use crate::samples::{
    Held, Key, Query, Sample, assert_finds, filled, keys_of, row_of, values_of, wanted,
};
use base_bytes::NoMemory;
use fact_layers::LayeredFacts;
use fact_store::{FactBase, Facts, WriteFault};
use std::alloc::Global;
use std::process::Abort;
use std::test::*;

const AT_ONE: &'static [Key] = &[Key::Int(1), Key::Int(1)];

const AT_TWO: &'static [Key] = &[Key::Int(1), Key::Int(2)];

const ONE: Sample = (1, &[Key::Int(1), Key::Int(1)], &[Held::Int(1)]);

const TWO: Sample = (
    1,
    &[Key::Int(1), Key::Int(2)],
    &[Held::Int(2), Held::Int(20)],
);

const THREE: Sample = (2, &[], &[Held::Int(3)]);

const ROWS: [Sample; 3] = [ONE, TWO, THREE];

/// Rows that aren't there.
const SHORTER: Sample = (1, &[Key::Int(1)], &[Held::Int(9)]);

const LESSER: Sample = (1, &[Key::Int(1), Key::Int(0)], &[]);

const TRUTH: Sample = (1, &[Key::Int(1), Key::Bool(false)], &[Held::Nothing]);

const LONGER: Sample = (2, &[Key::Int(0)], &[Held::Int(9), Held::Text("x")]);

/// Rows that are there, with other values.
const OTHER_ONE: Sample = (1, &[Key::Int(1), Key::Int(1)], &[Held::Int(9)]);

const OTHER_TWO: Sample = (1, &[Key::Int(1), Key::Int(2)], &[]);

const OTHER_THREE: Sample = (2, &[], &[Held::Int(9)]);

/// A change of the base: a row to create, values for a row that has some, or a row to delete.
#[derive(Clone, Copy)]
enum Change {
    Create(Sample),
    Update(Query, &'static [Held]),
    Delete(u32, &'static [Key]),
}

/// A write, its fault if it has one, and the rows of facts 1 and 2 behind it.
type Case = (
    Change,
    Option<WriteFault>,
    &'static [Sample],
    &'static [Sample],
);

const CASES: [Case; 20] = [
    (
        Change::Create(OTHER_ONE),
        Some(WriteFault::Exists),
        &[ONE, TWO],
        &[THREE],
    ),
    (
        Change::Create(OTHER_THREE),
        Some(WriteFault::Exists),
        &[ONE, TWO],
        &[THREE],
    ),
    (Change::Create(LESSER), None, &[LESSER, ONE, TWO], &[THREE]),
    (
        Change::Create(SHORTER),
        None,
        &[SHORTER, ONE, TWO],
        &[THREE],
    ),
    (Change::Create(TRUTH), None, &[ONE, TWO, TRUTH], &[THREE]),
    (Change::Create(LONGER), None, &[ONE, TWO], &[THREE, LONGER]),
    (
        Change::Update((1, &[Key::Int(1)], &[]), &[Held::Int(9)]),
        Some(WriteFault::Missing),
        &[ONE, TWO],
        &[THREE],
    ),
    (
        Change::Update((3, &[], &[]), &[Held::Int(9)]),
        Some(WriteFault::Missing),
        &[ONE, TWO],
        &[THREE],
    ),
    (
        Change::Update((1, &[Key::Int(1)], &[Some(Held::Int(1))]), &[Held::Int(9)]),
        Some(WriteFault::Missing),
        &[ONE, TWO],
        &[THREE],
    ),
    (
        Change::Update((1, &[], &[Some(Held::Int(4))]), &[Held::Int(9)]),
        Some(WriteFault::Missing),
        &[ONE, TWO],
        &[THREE],
    ),
    (
        Change::Update((2, &[], &[Some(Held::Int(4))]), &[Held::Int(9)]),
        Some(WriteFault::Differs),
        &[ONE, TWO],
        &[THREE],
    ),
    (
        Change::Update((2, &[], &[None, Some(Held::Int(3))]), &[Held::Int(9)]),
        Some(WriteFault::Differs),
        &[ONE, TWO],
        &[THREE],
    ),
    (
        Change::Update((1, AT_TWO, &[None, Some(Held::Int(21))]), &[]),
        Some(WriteFault::Differs),
        &[ONE, TWO],
        &[THREE],
    ),
    (
        Change::Update((1, AT_TWO, &[Some(Held::Int(2)), Some(Held::Int(2))]), &[]),
        Some(WriteFault::Differs),
        &[ONE, TWO],
        &[THREE],
    ),
    (
        Change::Update((2, &[], &[Some(Held::Int(3))]), &[Held::Int(9)]),
        None,
        &[ONE, TWO],
        &[OTHER_THREE],
    ),
    (
        Change::Update((1, AT_TWO, &[None, Some(Held::Int(20)), None]), &[]),
        None,
        &[ONE, OTHER_TWO],
        &[THREE],
    ),
    (
        Change::Delete(1, &[Key::Int(1)]),
        Some(WriteFault::Missing),
        &[ONE, TWO],
        &[THREE],
    ),
    (
        Change::Delete(0, &[]),
        Some(WriteFault::Missing),
        &[ONE, TWO],
        &[THREE],
    ),
    (Change::Delete(1, AT_ONE), None, &[TWO], &[THREE]),
    (Change::Delete(2, &[]), None, &[ONE, TWO], &[]),
];

const QUERIES_OF_NONE: [Query; 4] = [
    (0, &[], &[]),
    (1, &[], &[None]),
    (1, AT_TWO, &[]),
    (1, AT_TWO, &[Some(Held::Int(2))]),
];

/// Writes of a base that has no rows.
const CASES_OF_NONE: [Case; 6] = [
    (Change::Create(TWO), None, &[TWO], &[]),
    (Change::Create(THREE), None, &[], &[THREE]),
    (
        Change::Update((2, &[], &[]), &[Held::Int(9)]),
        Some(WriteFault::Missing),
        &[],
        &[],
    ),
    (
        Change::Update((1, AT_TWO, &[Some(Held::Int(2))]), &[]),
        Some(WriteFault::Missing),
        &[],
        &[],
    ),
    (Change::Delete(2, &[]), Some(WriteFault::Missing), &[], &[]),
    (
        Change::Delete(1, AT_TWO),
        Some(WriteFault::Missing),
        &[],
        &[],
    ),
];

fn changed<F: FactBase>(alloc: Global, facts: &mut F, change: Change) -> Result<(), WriteFault> {
    match change {
        Change::Create(sample) => {
            let row = row_of(alloc, sample)?;
            facts.create(alloc, row)
        }
        Change::Update(old, values) => {
            let old = wanted(alloc, old)?;
            let values = values_of(alloc, values)?;
            facts.update(alloc, &old, values)
        }
        Change::Delete(fact, keys) => {
            let keys = keys_of(alloc, keys)?;
            facts.delete(alloc, fact, &keys)
        }
    }
}

/// The base has just these rows of facts 1 and 2.
fn assert_holds<F: FactBase>(
    rt: &impl Abort,
    alloc: Global,
    facts: &F,
    ones: &[Sample],
    twos: &[Sample],
) -> Result<(), NoMemory> {
    assert_finds(rt, alloc, facts, (1, &[], &[]), ones)?;
    assert_finds(rt, alloc, facts, (2, &[], &[]), twos)
}

/// The change of the base answers and leaves what the case says.
fn assert_changes<F: FactBase>(
    rt: &impl Abort,
    alloc: Global,
    mut facts: F,
    case: Case,
) -> Result<(), NoMemory> {
    let (change, fault, ones, twos) = case;
    assert!(rt; changed(alloc, &mut facts, change).err() == fault);
    assert_holds(rt, alloc, &facts, ones, twos)
}

fn assert_writes<F: FactBase>(rt: &impl Abort, alloc: Global) -> Result<(), WriteFault> {
    for case in CASES {
        let facts: F = filled(alloc, &ROWS)?;
        assert_changes(rt, alloc, facts, case)?;
    }
    Ok(())
}

#[test]
fn writes_change_one_row_or_none(rt: HostRuntime) -> Result<(), Fail> {
    let alloc = rt.alloc();
    assert_writes::<Facts>(&rt, alloc)?;
    assert_writes::<LayeredFacts>(&rt, alloc)?;
    Ok(())
}

fn assert_copies<F: FactBase>(rt: &impl Abort, alloc: Global) -> Result<(), WriteFault> {
    let facts: F = filled(alloc, &ROWS)?;
    for case in CASES {
        assert_changes(rt, alloc, facts.copy(alloc)?, case)?;
    }
    assert_holds(rt, alloc, &facts, &[ONE, TWO], &[THREE])?;
    Ok(())
}

// Each of the writes changes a copy, and the base that was copied stays.
#[test]
fn a_changed_copy_leaves_the_first(rt: HostRuntime) -> Result<(), Fail> {
    let alloc = rt.alloc();
    assert_copies::<Facts>(&rt, alloc)?;
    assert_copies::<LayeredFacts>(&rt, alloc)?;
    Ok(())
}

fn assert_begins<F: FactBase>(rt: &impl Abort, alloc: Global) -> Result<(), NoMemory> {
    let facts = F::empty(alloc);
    for query in QUERIES_OF_NONE {
        assert_finds(rt, alloc, &facts, query, &[])?;
    }
    for case in CASES_OF_NONE {
        assert_changes(rt, alloc, facts.copy(alloc)?, case)?;
        assert_changes(rt, alloc, F::empty(alloc), case)?;
    }
    assert_holds(rt, alloc, &facts, &[], &[])
}

#[test]
fn a_base_begins_empty(rt: HostRuntime) -> Result<(), Fail> {
    let alloc = rt.alloc();
    assert_begins::<Facts>(&rt, alloc)?;
    assert_begins::<LayeredFacts>(&rt, alloc)?;
    Ok(())
}
