ghost use Rattle.std.specs.Prelude.{◌≡◌, ◌<◌, ◌≤◌, ◌++◌, ◌∷◌, [], All, IsTrue, IfOk, MatchBool, MatchResult, MatchOption, None, true, false, drop, fold, length};
ghost use Rattle.std.specs.List.{list_all};
ghost use Rattle.std.specs.Option.{option_to_list};
ghost use Rattle.fact_readers.specs.Changes.{is_keyed};
ghost use Rattle.fact_readers.specs.working.Book.{IsLaid};
ghost use Rattle.fact_readers.specs.Writers.{IsPlain, Writing, all_published, one_more_pending, told_the_last, without_commits};
ghost use Rattle.fact_readers.specs.Readers.{seen_only};

use crate::book::{Book, Front, Naming, Opened};
use crate::change::{Handed, RowChange};
use crate::commit::{Commit, Queued};
use crate::reader::FactReader;
use crate::told::Told;
use crate::version::Version;
use base_bytes::NoMemory;
use core::mem::replace_with;
use crossbeam_utils::rule::Unruled;
use left_right::Absorb;
use left_right::writer::Writer;
use std::alloc::{AllocError, Global};
use std::collections::LinkedList;
use std::marker::Model;
use std::sync::Wait;

/// The two copies, as the writer has them.
pub type Copies<J> = Writer<Version<J>, Commit<J>, (), Unruled>;

/// Publishes commits. It isn't dropped: `close` ends it. Contracts see it as the commits that are published,
/// those that are pending, and whether a `tell_last` was made.
pub struct FactWriter<J: Naming>
where
    Version<J>: Absorb<Commit<J>, State = [[RowChange; 0]; 0]>,
{
    book: Book<J>,
    /// The commits that the book has.
    front: Front<J>,
    copies: Copies<J>,
    /// One that the book has, and the copies don't know of yet.
    held: Option<Commit<J>>,
    /// Those that the book doesn't have yet.
    queue: LinkedList<Queued>,
    told_last: bool,
}

impl<J: Naming> Model for FactWriter<J>
where
    Version<J>: Absorb<Commit<J>, State = [[RowChange; 0]; 0]>,
{
    ghost use Rattle.std.specs.Coded.{codes};
    ghost use Rattle.base_bytes.specs.contracts.value.Value as value;
    ghost use Rattle.std.specs.Prelude.{◌≡◌, ◌++◌, drop};
    ghost use Rattle.std.specs.Option.{option_to_list};
    ghost use Rattle.fact_readers.specs.working.Book.{IsLaid};
    ghost use Rattle.fact_readers.specs.Writers.{IsPlain, Writing};

    ghost Value = { Writing };

    ghost coded = { Prim.hlevel (codes, value.the_row.coded) };

    ghost view = { λ w. record { published = w.copies.desk.shown.value; pending = drop w.copies.behind w.copies.log.items ++ (option_to_list w.held ++ w.queue); told_last = w.told_last } };

    ghost invariant = { λ w. IsLaid w.front w.copies.desk.shown.value (drop w.copies.behind w.copies.log.items) w.held × IsPlain ⟦<Version<J> as Absorb<Commit<J>>>⟧.state ⟦<Version<J> as Absorb<Commit<J>>>⟧.applied };
}

/// Lays the next commit of the queue into the book, and takes it out of the queue.
fn lay<J: Naming>(
    book: &Book<J>,
    front: &mut Front<J>,
    queue: &mut LinkedList<Queued>,
) -> Option<Commit<J>>
    ensures { MatchOption result ((front.new ≡ front.old) × (queue.new ≡ queue.old)) (λ c. (front.new ≡ front.old ++ c ∷ []) × (queue.old ≡ c ∷ queue.new)) }
{
    let Some(next) = queue.front() else {
        return None;
    };
    if !front.add(book, &next.changes) {
        return None;
    }
    let Some(queued) = queue.pop_front() else {
        unreachable!()
    };
    Some(Commit::laid(queued, front.again()))
}

/// Gives the copies the commit that is held, and says whether none is held now.
fn hand<J: Naming>(copies: &mut Copies<J>, held: &mut Option<Commit<J>>) -> bool
where
    Version<J>: Absorb<Commit<J>, State = [[RowChange; 0]; 0]>,
    ensures desk { copies.new.desk ≡ copies.old.desk }
    ensures handed { MatchBool result
        ((held.new ≡ None) × (drop copies.new.behind copies.new.log.items ≡ drop copies.old.behind copies.old.log.items ++ option_to_list held.old))
        ((held.new ≡ held.old) × (drop copies.new.behind copies.new.log.items ≡ drop copies.old.behind copies.old.log.items)) }
{
    let Some(commit) = held.take() else {
        return true;
    };
    match copies.append(commit) {
        Ok(()) => true,
        Err(commit) => {
            *held = Some(commit);
            false
        }
    }
}

/// Gives the copies the commit that is held and holds the next one of the queue, and says whether it did both.
fn step<J: Naming>(
    book: &Book<J>,
    front: &mut Front<J>,
    copies: &mut Copies<J>,
    held: &mut Option<Commit<J>>,
    queue: &mut LinkedList<Queued>,
) -> bool
where
    Version<J>: Absorb<Commit<J>, State = [[RowChange; 0]; 0]>,
    requires { IsLaid front.old copies.old.desk.shown.value (drop copies.old.behind copies.old.log.items) held.old }
    ensures laid { IsLaid front.new copies.new.desk.shown.value (drop copies.new.behind copies.new.log.items) held.new }
    ensures desk { copies.new.desk ≡ copies.old.desk }
    ensures pending { drop copies.new.behind copies.new.log.items ++ (option_to_list held.new ++ queue.new) ≡ drop copies.old.behind copies.old.log.items ++ (option_to_list held.old ++ queue.old) }
{
    if !hand(copies, held) {
        return false;
    }
    let Some(commit) = lay(book, front, queue) else {
        return false;
    };
    *held = Some(commit);
    true
}

/// Gives the copies all commits, and says whether it did.
fn hand_all<J: Naming>(
    book: &Book<J>,
    front: &mut Front<J>,
    copies: &mut Copies<J>,
    held: &mut Option<Commit<J>>,
    queue: &mut LinkedList<Queued>,
) -> bool
where
    Version<J>: Absorb<Commit<J>, State = [[RowChange; 0]; 0]>,
    requires { IsLaid front.old copies.old.desk.shown.value (drop copies.old.behind copies.old.log.items) held.old }
    ensures laid { IsLaid front.new copies.new.desk.shown.value (drop copies.new.behind copies.new.log.items) held.new }
    ensures desk { copies.new.desk ≡ copies.old.desk }
    ensures pending { drop copies.new.behind copies.new.log.items ++ (option_to_list held.new ++ queue.new) ≡ drop copies.old.behind copies.old.log.items ++ (option_to_list held.old ++ queue.old) }
    ensures all { IsTrue result → (held.new ≡ None) × (queue.new ≡ []) }
{
    for _ in 0..queue.len() {
        if !step(book, front, copies, held, queue) {
            return false;
        }
    }
    if !hand(copies, held) {
        return false;
    }
    queue.is_empty()
}

/// Lets readers see all that the copies were given.
fn show<J: Naming, R: Wait>(rt: &R, copies: Copies<J>) -> (Copies<J>, Result<(), AllocError>)
where
    Version<J>: Absorb<Commit<J>, State = [[RowChange; 0]; 0]>,
    ensures { IsPlain ⟦<Version<J> as Absorb<Commit<J>>>⟧.state ⟦<Version<J> as Absorb<Commit<J>>>⟧.applied → MatchResult result.1
        (λ _. (result.0.desk.shown.value ≡ copies.desk.shown.value ++ drop copies.behind copies.log.items) × (drop result.0.behind result.0.log.items ≡ []))
        (λ _. (result.0.desk.shown.value ≡ copies.desk.shown.value) × (drop result.0.behind result.0.log.items ≡ drop copies.behind copies.log.items)) }
{
    copies.publish_as::<Unruled, R>(rt)
}

impl<J: Naming> FactWriter<J>
where
    Version<J>: Absorb<Commit<J>, State = [[RowChange; 0]; 0]>,
{
    /// A writer over copies without commits.
    pub(crate) fn over(
        alloc: Global,
        book: Book<J>,
        front: Front<J>,
        copies: Copies<J>,
    ) -> FactWriter<J>
        requires empty { (front ≡ []) × (copies.desk.shown.value ≡ []) × (drop copies.behind copies.log.items ≡ []) }
        requires plain { IsPlain ⟦<Version<J> as Absorb<Commit<J>>>⟧.state ⟦<Version<J> as Absorb<Commit<J>>>⟧.applied }
        ensures { result ≡ without_commits }
    {
        FactWriter {
            book,
            front,
            copies,
            held: None,
            queue: LinkedList::new(alloc),
            told_last: false,
        }
    }

    /// Adds one commit to those that are pending, or hands it back where memory runs out.
    pub fn append(&mut self, commit: Vec<RowChange>) -> Result<(), Handed>
        requires keys { IsTrue (list_all is_keyed commit.items) }
        requires goes_on { self.old.told_last ≡ false }
        ensures { MatchResult result (λ _. self.new ≡ one_more_pending self.old commit.items) (λ handed. (handed.commit.items ≡ commit.items) × (self.new ≡ self.old)) }
    {
        match self.queue.push_back(Queued { changes: commit }) {
            Ok(()) => Ok(()),
            Err(failed) => {
                let Queued { changes } = failed.value;
                Err(Handed { commit: changes })
            }
        }
    }

    /// Publishes all pending commits at once, and answers how many are published. It may wait for readers
    /// that are in a read.
    pub fn publish<R: Wait + Sync>(&mut self, rt: &R) -> Result<u64, NoMemory>
        requires { self.old.told_last ≡ false }
        ensures { MatchResult result (λ count. (self.new ≡ all_published self.old) × (count ≡ length self.new.published)) (λ _. self.new ≡ self.old) }
    {
        if !hand_all(
            &self.book,
            &mut self.front,
            &mut self.copies,
            &mut self.held,
            &mut self.queue,
        ) {
            return Err(NoMemory);
        }
        let shown = replace_with(&mut self.copies, rt, |copies, rt| show(rt, copies));
        if shown.is_err() {
            return Err(NoMemory);
        }
        Ok(self.copies.published().front().count())
    }

    /// The commits that are published now.
    pub fn tell(&mut self) -> Told<J>
        ensures told { result ≡ (self.old.published, false) }
        ensures same { self.new ≡ self.old }
    {
        Told::new(self.copies.published().front(), false)
    }

    /// The same, as the last ones: nothing is published after it.
    pub fn tell_last(&mut self) -> Told<J>
        ensures told { result ≡ (self.old.published, true) }
        ensures ended { self.new ≡ told_the_last self.old }
    {
        self.told_last = true;
        Told::new(self.copies.published().front(), true)
    }

    /// Ends the writer. What is still pending is lost. It may wait.
    pub fn close<R: Wait + Sync>(self, rt: &R) {
        let FactWriter {
            book: _,
            front: _,
            copies,
            held: _,
            queue: _,
            told_last: _,
        } = self;
        copies.take(rt);
    }
}
