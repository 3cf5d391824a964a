ghost use Rattle.std.specs.Prelude.{◌≡◌};

use crate::samples::{all_rows, commit, rows_after};
use fact_readers::{Naming, Opened, readers};
use std::alloc::Global;
use std::marker::Brand;
use std::process::Abort;
use std::sync::Wait;
use std::test::*;

#[test]
fn a_reader_sees_what_it_is_told(rt: HostRuntime) -> Result<(), Fail> {
    told::<Brand, _>(&rt, rt.alloc(), Opened::new())
}

/// One reader of two reads before, between and after two commits.
fn told<J: Naming, R: Wait + Abort + Sync>(
    rt: &R,
    alloc: Global,
    opened: Opened,
) -> Result<(), Fail>
    requires { opened ≡ J.book }
{
    let (one, two) = (commit(alloc, 1)?, commit(alloc, 2)?);
    let wanted = all_rows(alloc);
    let (mut writer, mut all) = readers::<J, R>(rt, alloc, opened, 2)?;
    let mut reads = [None, None, None];
    if let Some(mut reader) = all.pop() {
        reads[0] = Some(reader.count_up_to(rt, &wanted, 9));
        if writer.append(one).is_ok() && writer.publish(rt).is_ok() {
            reader.learn(writer.tell());
        }
        reads[1] = Some(reader.count_up_to(rt, &wanted, 9));
        if writer.append(two).is_ok() && writer.publish(rt).is_ok() {
            reader.learn(writer.tell_last());
        }
        reads[2] = Some(reader.count_up_to(rt, &wanted, 2));
    }
    writer.close(rt);
    assert_eq!(rt; reads, [Some((0, 0)), Some((1, 2)), Some((2, 2))]);
    assert!(rt; rows_after(1) == 2 && rows_after(2) == 3);
    Ok(())
}
