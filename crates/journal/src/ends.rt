// How the end of a journal moves on.
ghost use Rattle.std.specs.Prelude.{◌≡◌, ◌+◌, [], ◌↔◌, false, IsTrue};
ghost use Rattle.journal.specs.Commits.{MayStand, begins_with_init, count_of};
ghost use Rattle.journal.specs.Outline.{outline_of};
ghost use Rattle.journal.specs.Ends.{outline_at};
ghost use Rattle.journal.specs.working.Sizes.{Takes};

use crate::commit::Commit;
use crate::end::End;
use command::{Command, Commands};

/// Behind the first record.
pub fn first_end() -> End
    ensures { outline_at result ≡ outline_of [] }
{
    End {
        gate: 38,
        commands: 0,
        is_fresh: true,
    }
}

/// Behind one commit more, whose record ends at this place.
pub fn end_behind(end: &End, commit: &Commit, place: u64) -> End
    requires place { MayStand end.now.is_fresh commit.now }
    requires size { Takes commit.now (end.now.gate + 5) place }
    ensures gate { result.gate ≡ place }
    ensures commands { result.commands ≡ end.now.commands + count_of commit.now }
    ensures fresh { result.is_fresh ≡ false }
{
    let count = match commit {
        Commit::Graph(_) => 0,
        Commit::Commands(commands) => commands.len() as u64,
    };
    End {
        gate: place,
        commands: end.commands + count,
        is_fresh: false,
    }
}

fn begins_with_init(commands: &Commands) -> bool
    ensures { result ≡ begins_with_init commands.now }
{
    match commands.as_slice() {
        [Command::Init { .. }, ..] => true,
        _ => false,
    }
}

/// Whether the commit may stand there.
pub fn may_stand(is_fresh: bool, commit: &Commit) -> bool
    ensures { IsTrue result ↔ MayStand is_fresh commit.now }
{
    match commit {
        Commit::Graph(_) => is_fresh,
        Commit::Commands(commands) => !is_fresh || begins_with_init(commands),
    }
}
