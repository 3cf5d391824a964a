//! The tables of policies, and those of the folder `examples`.

use crate::table::{first_difference, verdict_of};
use crate::{blocks, commands, expressions, items, names, patterns, policies, statements};
use language_tests::policies::{FIRST, PRIORITIES, TEAM};
use std::test::*;

#[test]
fn policies_are_judged_as_written(rt: HostRuntime) -> Result<(), Fail> {
    for table in [
        items::ROWS,
        commands::ROWS,
        names::ROWS,
        expressions::FITTING,
        expressions::FORMS,
        expressions::FACTS_AND_NAMES,
        patterns::PATTERNS,
        patterns::WRITES,
        statements::PLACES,
        statements::ARMS,
        blocks::BLOCKS,
        blocks::CALLS,
        policies::ROWS,
    ] {
        let found = first_difference(rt.alloc(), table)?;
        assert!(rt; found.as_str() == "", "{}", found.as_str());
    }
    Ok(())
}

#[test]
fn examples_are_well_typed(rt: HostRuntime) -> Result<(), Fail> {
    for (document, want) in [(FIRST, "ok 6"), (PRIORITIES, "ok 25"), (TEAM, "ok 21")] {
        let found = verdict_of(rt.alloc(), document)?;
        assert!(rt; found.as_str() == want, "{}", found.as_str());
    }
    Ok(())
}
