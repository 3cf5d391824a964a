use crate::sample::{Change, change_of, group, number};
use base_bytes::NoMemory;
use std::alloc::Global;
use std::collections::BTreeMap;

type Rows = BTreeMap<(i64, i64), i64>;

fn filled(alloc: Global, rows: u32) -> Result<Rows, NoMemory> {
    let mut map = BTreeMap::new(alloc);
    for turn in 0..rows {
        map.insert((group(turn), number(turn)), i64::from(turn))?;
    }
    Ok(map)
}

fn first(map: &Rows, turn: u32) -> u64 {
    let group = group(turn);
    let mut rest = map.range((group, i64::MIN)..);
    match rest.next() {
        Some((key, number)) if key.0 == group => number.unsigned_abs(),
        _ => 0,
    }
}

/// What `facts::query` does, over a plain map.
pub fn query(alloc: Global, rows: u32, rounds: u32) -> Result<u64, NoMemory> {
    let map = filled(alloc, rows)?;
    let mut sum = 0u64;
    for turn in 0..rounds {
        sum = sum.wrapping_add(first(&map, turn));
    }
    Ok(sum)
}

/// What `facts::copy` does, over a plain map.
pub fn copy(alloc: Global, rows: u32, rounds: u32) -> Result<u64, NoMemory> {
    let map = filled(alloc, rows)?;
    let mut sum = 0u64;
    for turn in 0..rounds {
        let copy = map.clone()?;
        sum = sum.wrapping_add(first(&copy, turn));
    }
    Ok(sum)
}

fn changed(map: &mut Rows, change: Change) -> Result<bool, NoMemory> {
    match change {
        Change::Update(row) => match map.get_mut(&(group(row), number(row))) {
            Some(value) => {
                *value = i64::from(row);
                Ok(true)
            }
            None => Ok(false),
        },
        Change::Delete(row) => Ok(map.remove(&(group(row), number(row))).is_some()),
        Change::Create(row) => {
            let old = map.insert((group(row), number(row)), i64::from(row))?;
            Ok(old.is_none())
        }
    }
}

/// What `facts::change` does, over a plain map.
pub fn change(alloc: Global, rows: u32, rounds: u32) -> Result<u64, NoMemory> {
    let mut map = filled(alloc, rows)?;
    let mut sum = 0u64;
    for turn in 0..rounds {
        if changed(&mut map, change_of(turn, rows))? {
            sum = sum.wrapping_add(1);
        }
    }
    Ok(sum)
}

/// What `facts::chain` does, over a plain map.
pub fn chain(alloc: Global, rows: u32, rounds: u32) -> Result<u64, NoMemory> {
    let mut map = filled(alloc, rows)?;
    for turn in 0..rounds {
        let mut copy = map.clone()?;
        let row = rows.wrapping_add(turn);
        copy.insert((group(row), number(row)), i64::from(row))?;
        map = copy;
    }
    Ok(first(&map, rows))
}
