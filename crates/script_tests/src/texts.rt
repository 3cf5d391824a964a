use crate::page::Page;
use base_bytes::{Arg, Bytes, Id, NoMemory, Text};
use script_texts::{
    CommandRefusal, FaultWord, Input, LineRefusal, MessageName, Pass, PolicyFault, ShownCommand,
    answered_text, checked_text, command_text, count_text, damaged_text, done_text, effect_text,
    generated_text, heard_text, held_text, joined_text, journal_policy_text, lines_refused_text,
    message_text, no_message_text, no_subject_text, policy_refused_text, published_text, read_text,
    reader_text, refused_command_text, refused_text, replica_text, row_text, said_text,
    snapshot_policy_text, snapshot_refused_text, snapshot_text, summary_text, synced_text,
    taken_text, too_large_text, turn_text, usage_text, watched_text,
};
use sqlite_items::{Boxed, Items};
use std::alloc::Global;
use std::test::*;

const REPLIES: &str =
    "replica a holds 3\ninit a: published 1, merges 0, cut 0, entries 1\nact a: published 2, merges 1, cut 3, entries 4\njoin b: ok\nask a: message 1\ninject: message 12\ntake a ffffffffffffffffffffffffffffffffffffffffffffffffffffffffffffffff: message ffffffffffffffffffffffffffffffffffffffffffffffffffffffffffffffff\nnext a: done\nnext a: no message\nanswer a: message 2, commands 64, more yes\nanswer a: message 3, commands 0, more no\ntake b: added 1, repeat 2, refused 3, cut 4, entries 5\nsync a b: answers 1, added 2, repeat 3, refused 4\nrestart a: holds 65536\nfacts a: 2\nsession facts a: 0\n";

const COMMANDS: &str =
    "  refused ffffffffffffffffffffffffffffffffffffffffffffffffffffffffffffffff: collision\n  refused ffffffffffffffffffffffffffffffffffffffffffffffffffffffffffffffff: other init\n  refused ffffffffffffffffffffffffffffffffffffffffffffffffffffffffffffffff: missing parent 0000000000000000000000000000000000000000000000000000000000000000\n  refused ffffffffffffffffffffffffffffffffffffffffffffffffffffffffffffffff: wrong cut\n  refused ffffffffffffffffffffffffffffffffffffffffffffffffffffffffffffffff: bad envelope\n  refused ffffffffffffffffffffffffffffffffffffffffffffffffffffffffffffffff: unknown command\n  refused ffffffffffffffffffffffffffffffffffffffffffffffffffffffffffffffff: wrong kind\n  refused ffffffffffffffffffffffffffffffffffffffffffffffffffffffffffffffff: payload\n  refused ffffffffffffffffffffffffffffffffffffffffffffffffffffffffffffffff: check\n  refused ffffffffffffffffffffffffffffffffffffffffffffffffffffffffffffffff: fault unwrap\n  refused ffffffffffffffffffffffffffffffffffffffffffffffffffffffffffffffff: fault exists\n  refused ffffffffffffffffffffffffffffffffffffffffffffffffffffffffffffffff: fault missing\n  refused ffffffffffffffffffffffffffffffffffffffffffffffffffffffffffffffff: fault differs\n  refused ffffffffffffffffffffffffffffffffffffffffffffffffffffffffffffffff: fault turns\n  refused ffffffffffffffffffffffffffffffffffffffffffffffffffffffffffffffff: fault too long\n  refused ffffffffffffffffffffffffffffffffffffffffffffffffffffffffffffffff: parallel finalize ffffffffffffffffffffffffffffffffffffffffffffffffffffffffffffffff\n  refused ffffffffffffffffffffffffffffffffffffffffffffffffffffffffffffffff: full\n";

const LINES: &str =
    "act a: refused no graph\nact a: refused has graph\nact a: refused unknown action\nact a: refused arguments\nact a: refused check\nact a: refused fault turns\nact a: refused command Put: check\nact a: refused command Put: missing parent 0000000000000000000000000000000000000000000000000000000000000000\nact a: refused collision ffffffffffffffffffffffffffffffffffffffffffffffffffffffffffffffff\nact a: refused full\nact a: refused malformed\nact a: refused other graph 0000000000000000000000000000000000000000000000000000000000000000\n";

const SHOWN: &str =
    "  Count[]=>{n: -1}\n  Log[at: 1, who: id:ffffffffffffffffffffffffffffffffffffffffffffffffffffffffffffffff]=>{}\n  Note[topic: \"a\\\"b\\\\c\\nd\"]=>{raw: 0x00ff, is: true, role: Role::Owner, some: Some(None), in: P {}, on: P { x: 1, y: false }}\n  Did { v: 7 }\n  Lost {} recalled\n  0000000000000000000000000000000000000000000000000000000000000000 init Begin\n  ffffffffffffffffffffffffffffffffffffffffffffffffffffffffffffffff basic Low priority 4294967295 parent 0000000000000000000000000000000000000000000000000000000000000000\n  0000000000000000000000000000000000000000000000000000000000000000 finalize Close parent ffffffffffffffffffffffffffffffffffffffffffffffffffffffffffffffff\n  ffffffffffffffffffffffffffffffffffffffffffffffffffffffffffffffff merge 0000000000000000000000000000000000000000000000000000000000000000 ffffffffffffffffffffffffffffffffffffffffffffffffffffffffffffffff\n";

const MODES: &str =
    "usage: aranyad check POLICY | run POLICY SCRIPT [--store DIR] | code POLICY | gen N | serve POLICY SCRIPT --rounds N\npolicy ok: items 26\npolicy refused: not utf-8, line 1\npolicy refused: no front matter, line 1\npolicy refused: wrong version, line 2\npolicy refused: open block, line 4\npolicy refused: bad token, line 8\npolicy refused: syntax, line 7\npolicy refused: type, line 9\nscript refused: line 100001\ncalls refused: line 1\nmessages refused: line 2\ntoo large: policy\ntoo large: script\ntoo large: calls\ntoo large: snapshot\ntoo large: messages\njournal a refused: damaged at 18446744073709551615\njournal a refused: other policy ffffffffffffffffffffffffffffffffffffffffffffffffffffffffffffffff\ngen 6553: lines 13\na: commands 1, facts 2, effects 3, digest ffffffffffffffffffffffffffffffffffffffffffffffffffffffffffffffff\n  1 main:   2 calls:   3 sync b: session a: said 1, effects 2\n  b: heard 1, refused 0\nwatch a Log: commits 4\nreader 2: reads 9\n  4 2\nwatch refused: no replica c\nwatch refused: no fact c\nsnapshot refused: no replica c\nsnapshot refused: no finalize\nsnapshot refused: malformed\nsnapshot refused: unclosed\nsnapshot refused: other policy ffffffffffffffffffffffffffffffffffffffffffffffffffffffffffffffff\nsnapshot ffffffffffffffffffffffffffffffffffffffffffffffffffffffffffffffff: commands 3\n";

/// An id of one byte, over and over.
fn id_of(byte: u8) -> Id {
    Id::new([byte; 32])
}

fn put_replies(alloc: Global, page: &mut Page, a: &Text) {
    let last = MessageName::Digest(id_of(255));
    let first = MessageName::Number(1);
    let second = MessageName::Number(2);
    let third = MessageName::Number(3);
    let twelfth = MessageName::Number(12);
    let hex = "ffffffffffffffffffffffffffffffffffffffffffffffffffffffffffffffff";
    page.put_text(replica_text(alloc, a, 3));
    page.put_text(published_text(alloc, "init", &["a"], 1, 0, 0, 1));
    page.put_text(published_text(alloc, "act", &["a"], 2, 1, 3, 4));
    page.put_text(joined_text(alloc, "join", &["b"]));
    page.put_text(message_text(alloc, "ask", &["a"], &first));
    page.put_text(message_text(alloc, "inject", &[], &twelfth));
    page.put_text(message_text(alloc, "take", &["a", hex], &last));
    page.put_text(done_text(alloc, "next", &["a"]));
    page.put_text(no_message_text(alloc, "next", &["a"]));
    page.put_text(answered_text(alloc, "answer", &["a"], &second, 64, true));
    page.put_text(answered_text(alloc, "answer", &["a"], &third, 0, false));
    page.put_text(taken_text(alloc, "take", &["b"], 1, 2, 3, 4, 5));
    page.put_text(synced_text(alloc, "sync", &["a", "b"], 1, 2, 3, 4));
    page.put_text(held_text(alloc, "restart", &["a"], 65536));
    page.put_text(count_text(alloc, "facts", &["a"], 2));
    page.put_text(count_text(alloc, "session facts", &["a"], 0));
}

#[test]
fn replies_are_printed(rt: HostRuntime) -> Result<(), Fail> {
    let alloc = rt.alloc();
    let a = Text::from_slice(alloc, "a")?;
    let mut page = Page::new(alloc);
    put_replies(alloc, &mut page, &a);
    let found = page.into_text()?;
    assert!(rt; found.as_str() == REPLIES, "{}", found.as_str());
    Ok(())
}

fn put_refused(alloc: Global, page: &mut Page, why: CommandRefusal) {
    page.put_text(refused_command_text(alloc, &id_of(255), &why));
}

fn put_fault(alloc: Global, page: &mut Page, word: FaultWord) {
    put_refused(alloc, page, CommandRefusal::Fault(word));
}

#[test]
fn refused_commands_are_printed(rt: HostRuntime) -> Result<(), Fail> {
    let alloc = rt.alloc();
    let mut page = Page::new(alloc);
    put_refused(alloc, &mut page, CommandRefusal::Collision);
    put_refused(alloc, &mut page, CommandRefusal::OtherInit);
    put_refused(alloc, &mut page, CommandRefusal::MissingParent(id_of(0)));
    put_refused(alloc, &mut page, CommandRefusal::WrongCut);
    put_refused(alloc, &mut page, CommandRefusal::BadEnvelope);
    put_refused(alloc, &mut page, CommandRefusal::UnknownCommand);
    put_refused(alloc, &mut page, CommandRefusal::WrongKind);
    put_refused(alloc, &mut page, CommandRefusal::Payload);
    put_refused(alloc, &mut page, CommandRefusal::Check);
    put_fault(alloc, &mut page, FaultWord::Unwrap);
    put_fault(alloc, &mut page, FaultWord::Exists);
    put_fault(alloc, &mut page, FaultWord::Missing);
    put_fault(alloc, &mut page, FaultWord::Differs);
    put_fault(alloc, &mut page, FaultWord::Turns);
    put_fault(alloc, &mut page, FaultWord::TooLong);
    put_refused(
        alloc,
        &mut page,
        CommandRefusal::ParallelFinalize(id_of(255)),
    );
    put_refused(alloc, &mut page, CommandRefusal::Full);
    let found = page.into_text()?;
    assert!(rt; found.as_str() == COMMANDS, "{}", found.as_str());
    Ok(())
}

fn put_line(alloc: Global, page: &mut Page, why: LineRefusal) {
    page.put_text(refused_text(alloc, "act", &["a"], &why));
}

#[test]
fn refused_lines_are_printed(rt: HostRuntime) -> Result<(), Fail> {
    let alloc = rt.alloc();
    let checked = LineRefusal::Command(Text::from_slice(alloc, "Put")?, CommandRefusal::Check);
    let orphan = CommandRefusal::MissingParent(id_of(0));
    let orphaned = LineRefusal::Command(Text::from_slice(alloc, "Put")?, orphan);
    let mut page = Page::new(alloc);
    put_line(alloc, &mut page, LineRefusal::NoGraph);
    put_line(alloc, &mut page, LineRefusal::HasGraph);
    put_line(alloc, &mut page, LineRefusal::UnknownAction);
    put_line(alloc, &mut page, LineRefusal::Arguments);
    put_line(alloc, &mut page, LineRefusal::Check);
    put_line(alloc, &mut page, LineRefusal::Fault(FaultWord::Turns));
    put_line(alloc, &mut page, checked);
    put_line(alloc, &mut page, orphaned);
    put_line(alloc, &mut page, LineRefusal::Collision(id_of(255)));
    put_line(alloc, &mut page, LineRefusal::Full);
    put_line(alloc, &mut page, LineRefusal::Malformed);
    put_line(alloc, &mut page, LineRefusal::OtherGraph(id_of(0)));
    let found = page.into_text()?;
    assert!(rt; found.as_str() == LINES, "{}", found.as_str());
    Ok(())
}

fn text(alloc: Global, text: &str) -> Result<Text, NoMemory> {
    Text::from_slice(alloc, text)
}

/// A field behind others.
fn with(
    alloc: Global,
    mut fields: Items<(Text, Arg)>,
    name: &str,
    value: Arg,
) -> Result<Items<(Text, Arg)>, NoMemory> {
    fields.push((text(alloc, name)?, value))?;
    Ok(fields)
}

fn two_fields(alloc: Global) -> Result<Items<(Text, Arg)>, NoMemory> {
    let fields = with(alloc, Items::new(alloc), "x", Arg::Int(1))?;
    with(alloc, fields, "y", Arg::Bool(false))
}

fn simple(alloc: Global) -> Result<Items<(Text, Arg)>, NoMemory> {
    let raw = Arg::Raw(Bytes::from_slice(alloc, b"\x00\xff")?);
    let owner = Arg::Variant(text(alloc, "Role")?, text(alloc, "Owner")?);
    let fields = with(alloc, Items::new(alloc), "raw", raw)?;
    let fields = with(alloc, fields, "is", Arg::Bool(true))?;
    with(alloc, fields, "role", owner)
}

/// A value of each kind.
fn kinds(alloc: Global) -> Result<Items<(Text, Arg)>, NoMemory> {
    let some = Arg::Some(Boxed::new(alloc, Arg::Nothing)?);
    let fields = with(alloc, simple(alloc)?, "some", some)?;
    let none = Arg::Fields(text(alloc, "P")?, Items::new(alloc));
    let fields = with(alloc, fields, "in", none)?;
    let two = Arg::Fields(text(alloc, "P")?, two_fields(alloc)?);
    with(alloc, fields, "on", two)
}

/// Puts a row with such keys and values.
fn put_row(
    alloc: Global,
    page: &mut Page,
    name: &str,
    keys: &Items<(Text, Arg)>,
    values: &Items<(Text, Arg)>,
) -> Result<(), NoMemory> {
    let name = text(alloc, name)?;
    page.put_text(row_text(alloc, &name, keys.as_slice(), values.as_slice()));
    Ok(())
}

fn put_counts(alloc: Global, page: &mut Page) -> Result<(), NoMemory> {
    let none = Items::new(alloc);
    let minus = with(alloc, Items::new(alloc), "n", Arg::Int(-1))?;
    put_row(alloc, page, "Count", &none, &minus)
}

fn put_log(alloc: Global, page: &mut Page) -> Result<(), NoMemory> {
    let none = Items::new(alloc);
    let at = with(alloc, Items::new(alloc), "at", Arg::Int(1))?;
    let at = with(alloc, at, "who", Arg::Ident(id_of(255)))?;
    put_row(alloc, page, "Log", &at, &none)
}

fn put_note(alloc: Global, page: &mut Page) -> Result<(), NoMemory> {
    let quoted = Arg::Str(text(alloc, "a\"b\\c\nd")?);
    let topic = with(alloc, Items::new(alloc), "topic", quoted)?;
    let kinds = kinds(alloc)?;
    put_row(alloc, page, "Note", &topic, &kinds)
}

fn put_effects(alloc: Global, page: &mut Page) -> Result<(), NoMemory> {
    let fields = with(alloc, Items::new(alloc), "v", Arg::Int(7))?;
    let did = Arg::Fields(text(alloc, "Did")?, fields);
    let lost = Arg::Fields(text(alloc, "Lost")?, Items::new(alloc));
    page.put_text(effect_text(alloc, &did, false));
    page.put_text(effect_text(alloc, &lost, true));
    Ok(())
}

fn put_commands(alloc: Global, page: &mut Page) -> Result<(), NoMemory> {
    let zero = id_of(0);
    let last = id_of(255);
    let init = ShownCommand::Init(text(alloc, "Begin")?);
    let basic = ShownCommand::Basic(text(alloc, "Low")?, 4294967295, zero);
    let finalize = ShownCommand::Finalize(text(alloc, "Close")?, last);
    page.put_text(command_text(alloc, &zero, &init));
    page.put_text(command_text(alloc, &last, &basic));
    page.put_text(command_text(alloc, &zero, &finalize));
    page.put_text(command_text(alloc, &last, &ShownCommand::Merge(zero, last)));
    Ok(())
}

#[test]
fn rows_effects_and_commands_are_printed(rt: HostRuntime) -> Result<(), Fail> {
    let alloc = rt.alloc();
    let mut page = Page::new(alloc);
    put_counts(alloc, &mut page)?;
    put_log(alloc, &mut page)?;
    put_note(alloc, &mut page)?;
    put_effects(alloc, &mut page)?;
    put_commands(alloc, &mut page)?;
    let found = page.into_text()?;
    assert!(rt; found.as_str() == SHOWN, "{}", found.as_str());
    Ok(())
}

fn put_files(alloc: Global, page: &mut Page, a: &Text) {
    page.put(usage_text());
    page.put_text(checked_text(alloc, 26));
    page.put_text(policy_refused_text(alloc, PolicyFault::NotUtf8, 1));
    page.put_text(policy_refused_text(alloc, PolicyFault::NoFrontMatter, 1));
    page.put_text(policy_refused_text(alloc, PolicyFault::WrongVersion, 2));
    page.put_text(policy_refused_text(alloc, PolicyFault::OpenBlock, 4));
    page.put_text(policy_refused_text(alloc, PolicyFault::BadToken, 8));
    page.put_text(policy_refused_text(alloc, PolicyFault::Syntax, 7));
    page.put_text(policy_refused_text(alloc, PolicyFault::IllTyped, 9));
    page.put_text(lines_refused_text(alloc, Input::Script, 100001));
    page.put_text(lines_refused_text(alloc, Input::Calls, 1));
    page.put_text(lines_refused_text(alloc, Input::Messages, 2));
    page.put_text(too_large_text(alloc, Input::Policy));
    page.put_text(too_large_text(alloc, Input::Script));
    page.put_text(too_large_text(alloc, Input::Calls));
    page.put_text(too_large_text(alloc, Input::Snapshot));
    page.put_text(too_large_text(alloc, Input::Messages));
    page.put_text(damaged_text(alloc, a, 18446744073709551615));
    page.put_text(journal_policy_text(alloc, a, &id_of(255)));
}

fn put_modes(alloc: Global, page: &mut Page, a: &Text, b: &Text, c: &Text, log: &Text) {
    page.put_text(generated_text(alloc, 6553, 13));
    page.put_text(summary_text(alloc, a, 1, 2, 3, &id_of(255)));
    page.put_text(turn_text(alloc, 1, &Pass::Main));
    page.put_text(turn_text(alloc, 2, &Pass::Calls));
    put_turn(alloc, page, b);
    page.put_text(said_text(alloc, a, 1, 2));
    page.put_text(heard_text(alloc, b, 1, 0));
    page.put_text(watched_text(alloc, a, log, 4));
    page.put_text(reader_text(alloc, 2, 9));
    page.put_text(read_text(alloc, 4, 2));
    page.put_text(no_subject_text(alloc, "watch", "replica", c));
    page.put_text(no_subject_text(alloc, "watch", "fact", c));
    page.put_text(no_subject_text(alloc, "snapshot", "replica", c));
    page.put_text(snapshot_refused_text(alloc, "no finalize"));
    page.put_text(snapshot_refused_text(alloc, "malformed"));
    page.put_text(snapshot_refused_text(alloc, "unclosed"));
    page.put_text(snapshot_policy_text(alloc, &id_of(255)));
    page.put_text(snapshot_text(alloc, &id_of(255), 3));
}

fn put_turn(alloc: Global, page: &mut Page, name: &Text) {
    match name.copy(alloc) {
        Ok(name) => page.put_text(turn_text(alloc, 3, &Pass::Sync(name))),
        Err(error) => page.put_text(Err(error)),
    }
}

#[test]
fn modes_print_their_lines(rt: HostRuntime) -> Result<(), Fail> {
    let alloc = rt.alloc();
    let a = text(alloc, "a")?;
    let b = text(alloc, "b")?;
    let c = text(alloc, "c")?;
    let log = text(alloc, "Log")?;
    let mut page = Page::new(alloc);
    put_files(alloc, &mut page, &a);
    put_modes(alloc, &mut page, &a, &b, &c, &log);
    let found = page.into_text()?;
    assert!(rt; found.as_str() == MODES, "{}", found.as_str());
    Ok(())
}
