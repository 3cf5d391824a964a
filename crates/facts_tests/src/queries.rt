use crate::samples::{Held, Key, Query, Sample, assert_finds, filled};
use base_bytes::NoMemory;
use fact_layers::LayeredFacts;
use fact_store::{FactBase, Facts, WriteFault};
use std::alloc::Global;
use std::process::Abort;
use std::test::*;

/// Rows in fact order, numbered from 0: facts with no key, with one key of each type, and with three keys. Most have their number for a value; row 21 has that of row 19, and those of fact 8 have none, two or three values.
const ROWS: [Sample; 32] = [
    (0, &[], &[]),
    (1, &[Key::Int(-2)], &[Held::Int(1)]),
    (1, &[Key::Int(-1)], &[Held::Int(2)]),
    (1, &[Key::Int(0)], &[Held::Int(3)]),
    (1, &[Key::Int(10)], &[Held::Int(4)]),
    (2, &[Key::Bool(false)], &[Held::Int(5)]),
    (2, &[Key::Bool(true)], &[Held::Int(6)]),
    (3, &[Key::Text("")], &[Held::Int(7)]),
    (3, &[Key::Text("B")], &[Held::Int(8)]),
    (3, &[Key::Text("a")], &[Held::Int(9)]),
    (3, &[Key::Text("aa")], &[Held::Int(10)]),
    (3, &[Key::Text("é")], &[Held::Int(11)]),
    (4, &[Key::Raw(&[])], &[Held::Int(12)]),
    (4, &[Key::Raw(&[127])], &[Held::Int(13)]),
    (4, &[Key::Raw(&[127, 0])], &[Held::Int(14)]),
    (4, &[Key::Raw(&[128])], &[Held::Int(15)]),
    (5, &[Key::Ident(0, 1)], &[Held::Int(16)]),
    (5, &[Key::Ident(0, 255)], &[Held::Int(17)]),
    (5, &[Key::Ident(1, 0)], &[Held::Int(18)]),
    (6, &[Key::Enum(1, 9)], &[Held::Int(19)]),
    (6, &[Key::Enum(1, 256)], &[Held::Int(20)]),
    (6, &[Key::Enum(2, 0)], &[Held::Int(19)]),
    (
        7,
        &[Key::Int(1), Key::Text("a"), Key::Bool(false)],
        &[Held::Int(22)],
    ),
    (
        7,
        &[Key::Int(1), Key::Text("a"), Key::Bool(true)],
        &[Held::Int(23)],
    ),
    (
        7,
        &[Key::Int(1), Key::Text("ab"), Key::Bool(false)],
        &[Held::Int(24)],
    ),
    (
        7,
        &[Key::Int(2), Key::Text(""), Key::Bool(true)],
        &[Held::Int(25)],
    ),
    (8, &[Key::Raw(&[1]), Key::Ident(0, 9), Key::Enum(3, 1)], &[]),
    (
        8,
        &[Key::Raw(&[1]), Key::Ident(0, 9), Key::Enum(3, 2)],
        &[Held::Int(1), Held::Int(27)],
    ),
    (
        8,
        &[Key::Raw(&[1]), Key::Ident(9, 0), Key::Enum(3, 0)],
        &[Held::Int(1), Held::Int(28), Held::Text("x")],
    ),
    (
        8,
        &[Key::Raw(&[1, 0]), Key::Ident(0, 0), Key::Enum(0, 0)],
        &[Held::Text("1"), Held::Enum(3, 1), Held::Nothing],
    ),
    (
        8,
        &[Key::Raw(&[2]), Key::Ident(0, 0), Key::Enum(0, 0)],
        &[Held::Enum(3, 1), Held::Something(27)],
    ),
    (4_294_967_295, &[Key::Int(0)], &[Held::Int(31)]),
];

/// A query, and the numbers of the rows that it finds.
type Case = (Query, &'static [usize]);

const CASES: [Case; 52] = [
    ((0, &[], &[]), &[0]),
    ((1, &[], &[]), &[1, 2, 3, 4]),
    ((2, &[], &[]), &[5, 6]),
    ((3, &[], &[]), &[7, 8, 9, 10, 11]),
    ((4, &[], &[]), &[12, 13, 14, 15]),
    ((5, &[], &[]), &[16, 17, 18]),
    ((6, &[], &[]), &[19, 20, 21]),
    ((7, &[], &[]), &[22, 23, 24, 25]),
    ((8, &[], &[]), &[26, 27, 28, 29, 30]),
    ((4_294_967_295, &[], &[]), &[31]),
    ((9, &[], &[]), &[]),
    ((0, &[Key::Int(0)], &[]), &[]),
    ((1, &[Key::Int(0)], &[]), &[3]),
    ((1, &[Key::Int(5)], &[]), &[]),
    ((3, &[Key::Text("a")], &[]), &[9]),
    ((4, &[Key::Raw(&[127])], &[]), &[13]),
    ((5, &[Key::Ident(1, 0)], &[]), &[18]),
    ((5, &[Key::Ident(1, 1)], &[]), &[]),
    ((6, &[Key::Enum(1, 9)], &[]), &[19]),
    ((7, &[Key::Int(1)], &[]), &[22, 23, 24]),
    ((7, &[Key::Int(1), Key::Text("a")], &[]), &[22, 23]),
    (
        (7, &[Key::Int(1), Key::Text("a"), Key::Bool(true)], &[]),
        &[23],
    ),
    (
        (
            7,
            &[Key::Int(1), Key::Text("a"), Key::Bool(true), Key::Int(0)],
            &[],
        ),
        &[],
    ),
    ((7, &[Key::Int(2)], &[]), &[25]),
    ((7, &[Key::Int(3)], &[]), &[]),
    ((7, &[Key::Text("a")], &[]), &[]),
    ((8, &[Key::Raw(&[1])], &[]), &[26, 27, 28]),
    ((8, &[Key::Raw(&[1]), Key::Ident(0, 9)], &[]), &[26, 27]),
    (
        (8, &[Key::Raw(&[1]), Key::Ident(0, 9), Key::Enum(3, 2)], &[]),
        &[27],
    ),
    ((0, &[], &[None]), &[0]),
    ((0, &[], &[Some(Held::Int(0))]), &[]),
    ((6, &[], &[Some(Held::Int(19))]), &[19, 21]),
    ((7, &[], &[None]), &[22, 23, 24, 25]),
    ((7, &[], &[None, None]), &[22, 23, 24, 25]),
    ((7, &[], &[Some(Held::Int(24))]), &[24]),
    ((7, &[], &[Some(Held::Int(24)), None]), &[24]),
    ((7, &[], &[Some(Held::Int(24)), Some(Held::Int(24))]), &[]),
    ((7, &[Key::Int(1)], &[Some(Held::Int(23))]), &[23]),
    ((7, &[Key::Int(1)], &[Some(Held::Int(25))]), &[]),
    ((8, &[], &[None, None, None]), &[26, 27, 28, 29, 30]),
    ((8, &[], &[Some(Held::Int(1))]), &[27, 28]),
    ((8, &[], &[Some(Held::Int(1)), Some(Held::Int(28))]), &[28]),
    ((8, &[], &[Some(Held::Int(1)), Some(Held::Int(29))]), &[]),
    ((8, &[], &[None, Some(Held::Int(27))]), &[27]),
    ((8, &[], &[None, Some(Held::Something(27))]), &[30]),
    ((8, &[], &[None, Some(Held::Nothing)]), &[]),
    ((8, &[], &[None, None, Some(Held::Nothing)]), &[29]),
    ((8, &[], &[None, None, Some(Held::Text("x"))]), &[28]),
    ((8, &[], &[Some(Held::Text("1"))]), &[29]),
    ((8, &[], &[Some(Held::Enum(3, 1))]), &[30]),
    ((8, &[Key::Raw(&[1])], &[None, Some(Held::Enum(3, 1))]), &[]),
    (
        (
            8,
            &[Key::Raw(&[1]), Key::Ident(0, 9), Key::Enum(3, 1)],
            &[Some(Held::Int(1))],
        ),
        &[],
    ),
];

/// The samples of these numbers. A number of no sample fails the test.
fn numbered(alloc: Global, samples: &[Sample], numbers: &[usize]) -> Result<Vec<Sample>, NoMemory> {
    let mut found = Vec::new(alloc);
    for number in numbers {
        match samples.get(*number) {
            Some(sample) => found.push(*sample)?,
            None => return Err(NoMemory),
        }
    }
    Ok(found)
}

fn assert_queries<F: FactBase>(rt: &impl Abort, alloc: Global) -> Result<(), WriteFault> {
    let facts: F = filled(alloc, &ROWS)?;
    for (query, numbers) in CASES {
        let samples = numbered(alloc, &ROWS, numbers)?;
        assert_finds(rt, alloc, &facts, query, samples.as_slice())?;
    }
    Ok(())
}

#[test]
fn queries_find_the_rows_of_their_prefix_in_order(rt: HostRuntime) -> Result<(), Fail> {
    let alloc = rt.alloc();
    assert_queries::<Facts>(&rt, alloc)?;
    assert_queries::<LayeredFacts>(&rt, alloc)?;
    Ok(())
}
