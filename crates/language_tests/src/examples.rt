//! The items of whole policies.

use crate::policies::{FIRST, PRIORITIES, TEAM};
use crate::read::kinds_shown;
use std::test::*;

#[test]
fn examples_have_their_items(rt: HostRuntime) -> Result<(), Fail> {
    for (document, want) in [
        (FIRST, "6, 1 effect, 1 fact, 2 command, 2 action"),
        (
            PRIORITIES,
            "25, 2 effect, 4 fact, 8 command, 1 finish function, 10 action",
        ),
        (
            TEAM,
            "21, 1 use, 1 enum, 4 effect, 2 fact, 5 command, 1 function, 1 finish function, 6 action",
        ),
    ] {
        let found = kinds_shown(rt.alloc(), document)?;
        assert!(rt; found.as_str() == want, "{}", found.as_str());
    }
    Ok(())
}
