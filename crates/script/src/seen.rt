//! What the lines of a script declare.

ghost use Rattle.std.specs.Prelude.{◌≡◌, OnOk, IsTrue};
ghost use Rattle.script.specs.Scripts.{declares, has_message, has_place, has_room, nothing_yet, with_line};
ghost use Rattle.script.specs.working.ReadingScripts.{declared};

use crate::line::Line;
use base_bytes::{NoMemory, Text};
use sqlite_items::Items;
use std::alloc::Global;

/// How many replicas a script may declare.
const MOST_REPLICAS: usize = 8;

/// How many lines of a script may make a message.
const MOST_MESSAGES: u32 = 8192;

/// The replicas by name, in order, and how many lines make a message.
#[derive(Drop)]
pub struct Seen {
    names: Items<Text>,
    messages: u32,
}

impl Seen {
    pub fn new(alloc: Global) -> Seen
        ensures { declared result ≡ nothing_yet }
    {
        Seen {
            names: Items::new(alloc),
            messages: 0,
        }
    }

    fn declares(&self, name: &Text) -> bool
        ensures { result ≡ declares (declared self.now) name.now }
    {
        self.names
            .as_slice()
            .iter()
            .any(|other| other.as_slice() == name.as_slice())
    }

    /// Whether a line has made the message of this number.
    fn has_message(&self, number: u32) -> bool
        ensures { result ≡ has_message (declared self.now) number }
    {
        number <= self.messages
    }

    /// Whether a further line may make a message.
    fn has_room(&self) -> bool
        ensures { result ≡ has_room (declared self.now) }
    {
        self.messages < MOST_MESSAGES
    }

    /// Whether a line may stand behind those that were seen.
    pub fn has_place(&self, line: &Line) -> bool
        ensures { result ≡ has_place (declared self.now) line.now }
    {
        match line {
            Line::Replica(name) => !self.declares(name) && self.names.len() < MOST_REPLICAS,
            Line::Join(name, other) | Line::Sync(name, other) => {
                self.declares(name) && self.declares(other)
            }
            Line::Ask(name) => self.declares(name) && self.has_room(),
            Line::Next(name, number) | Line::Answer(name, number) => {
                self.declares(name) && self.has_message(*number) && self.has_room()
            }
            Line::Take(name, number) => self.declares(name) && self.has_message(*number),
            Line::Inject(_) => self.has_room(),
            Line::Init(name, _, _)
            | Line::Act(name, _, _)
            | Line::Restart(name)
            | Line::Facts(name)
            | Line::Effects(name)
            | Line::Graph(name) => self.declares(name),
            Line::Blank => true,
        }
    }

    /// Notes a line that has its place.
    pub fn note(&mut self, alloc: Global, line: &Line) -> Result<(), NoMemory>
        requires { IsTrue (has_place (declared self.old) line.now) }
        ensures { OnOk result (declared self.new ≡ with_line (declared self.old) line.now) }
    {
        match line {
            Line::Replica(name) => self.names.push(name.copy(alloc)?)?,
            Line::Ask(_) | Line::Next(_, _) | Line::Answer(_, _) | Line::Inject(_) => {
                self.messages += 1
            }
            _ => (),
        }
        Ok(())
    }
}
