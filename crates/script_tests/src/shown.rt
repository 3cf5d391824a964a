//! Shows what a script is read as: its lines, each written in one way, with `;` between them; or `refused` and a number.

use crate::page::Page;
use base_bytes::{Arg, NoMemory, Text};
use script::{Line, ScriptFault, read_script};
use std::alloc::Global;

/// What a script is read as.
pub fn script_shown(alloc: Global, script: &[u8]) -> Result<String, NoMemory> {
    let mut page = Page::new(alloc);
    match read_script(alloc, script) {
        Ok(lines) => put_lines(&mut page, lines.as_slice()),
        Err(ScriptFault::Refused { line }) => put_refused(&mut page, line),
        Err(ScriptFault::NoMemory) => return Err(NoMemory),
    }
    page.into_text()
}

/// How many lines a script has, or the number of the line that is refused.
pub fn script_counted(alloc: Global, script: &[u8]) -> Result<Result<usize, u32>, NoMemory> {
    match read_script(alloc, script) {
        Ok(lines) => Ok(Ok(lines.len())),
        Err(ScriptFault::Refused { line }) => Ok(Err(line)),
        Err(ScriptFault::NoMemory) => Err(NoMemory),
    }
}

fn put_refused(page: &mut Page, line: u32) {
    page.put("refused ");
    page.put_number(line);
}

fn put_lines(page: &mut Page, lines: &[Line]) {
    let mut before = "";
    for line in lines {
        page.put(before);
        put_line(page, line);
        before = ";";
    }
}

fn put_line(page: &mut Page, line: &Line) {
    match line {
        Line::Replica(name) => put_named(page, "replica ", name),
        Line::Init(name, action, arguments) => {
            put_call(page, "init ", name, action, arguments.as_slice())
        }
        Line::Join(name, other) => put_two(page, "join ", name, other),
        Line::Act(name, action, arguments) => {
            put_call(page, "act ", name, action, arguments.as_slice())
        }
        Line::Sync(name, other) => put_two(page, "sync ", name, other),
        Line::Ask(name) => put_named(page, "ask ", name),
        Line::Next(name, number) => put_message(page, "next ", name, *number),
        Line::Answer(name, number) => put_message(page, "answer ", name, *number),
        Line::Take(name, number) => put_message(page, "take ", name, *number),
        Line::Inject(message) => put_injected(page, message.as_slice()),
        Line::Restart(name) => put_named(page, "restart ", name),
        Line::Facts(name) => put_named(page, "facts ", name),
        Line::Effects(name) => put_named(page, "effects ", name),
        Line::Graph(name) => put_named(page, "graph ", name),
        Line::Blank => page.put("-"),
    }
}

fn put_named(page: &mut Page, verb: &str, name: &Text) {
    page.put(verb);
    page.put(name.as_str());
}

fn put_two(page: &mut Page, verb: &str, name: &Text, other: &Text) {
    put_named(page, verb, name);
    put_named(page, " ", other);
}

fn put_message(page: &mut Page, verb: &str, name: &Text, number: u32) {
    put_named(page, verb, name);
    page.put(" ");
    page.put_number(number);
}

fn put_injected(page: &mut Page, message: &[u8]) {
    page.put("inject ");
    page.put_hex(message);
}

fn put_call(page: &mut Page, verb: &str, name: &Text, action: &Text, arguments: &[Arg]) {
    put_two(page, verb, name, action);
    let mut before = "(";
    if arguments.is_empty() {
        page.put(before);
    }
    for argument in arguments {
        page.put(before);
        page.put_value(argument);
        before = ", ";
    }
    page.put(")");
}
