ghost use Rattle.std.specs.Prelude.{◌≡◌, ◌≤◌, ◌<◌, ◌+◌, ◌-◌, ◌↔◌, if◌then◌else◌, ℕ, IsTrue, List, [], ◌∷◌, ◌++◌, None, IfOk, IfSome, get_or, length, max, set, slice_get, vec_capacity, Some};
ghost use Rattle.std.specs.List.{Contains};
ghost use Rattle.command.specs.Ancestors.{Ancestor, IsAt};
ghost use Rattle.command.specs.Closed.{IsHeld, place_of};
ghost use Rattle.command.specs.declared.command.Command.{Command as TheCommand};
ghost use Rattle.command.specs.Cuts.{cuts, next_cut, number_at};
ghost use Rattle.graph_segments.specs.Segments as told;
ghost use Rattle.graph_segments.specs.declared.tables.Location.{Location as TheLocation};
ghost use Rattle.graph_segments.specs.declared.tables.Segment.{Segment as TheSegment};
ghost use Rattle.graph_segments.specs.working.Search.{AreWithin, IsLooked, IsMet, IsMetBy, IsSearched, Marks};
ghost use Rattle.graph_segments.specs.working.Tables.{Stands, tables_of};
ghost use Rattle.indexmap.specs.IndexMap.{values};

use crate::marks::{begun, set_mark};
use crate::tables::{Location, Segment};
use base_bytes::{Id, NoMemory};
use command::{Command, Graph, Places};
use graph_set::ListGraph;
use std::alloc::Global;

/// A graph as the list of its commands, with where each stands in its segment, and the segments.
#[derive(Drop)]
pub struct SegmentGraph {
    list: ListGraph,
    locations: Vec<Location>,
    segments: Vec<Segment>,
    room: usize,
    ghost located: { locations.items ≡ told.locations (values list.commands) },
    ghost chained: { segments.items ≡ told.segments (values list.commands) },
    ghost roomy: { room ≤ list.room },
    ghost wide: { length locations.items + room ≤ vec_capacity locations },
    ghost broad: { length segments.items + room ≤ vec_capacity segments },
}

impl SegmentGraph {
    /// Where each command stands, in stored order. Takes no memory.
    pub fn locations(&self) -> &[Location]
        ensures { result.now ≡ told.locations (values self.now.list.commands) }
    {
        self.locations.as_slice()
    }

    /// The segments, in the order in which they began. Takes no memory.
    pub fn segments(&self) -> &[Segment]
        ensures { result.now ≡ told.segments (values self.now.list.commands) }
    {
        self.segments.as_slice()
    }

    /// The cut of the command at a place. Takes no memory.
    pub fn cut(&self, place: usize) -> u32
        requires { place < length (values self.now.list.commands) }
        ensures { result ≡ get_or (cuts (values self.now.list.commands)) place 0 }
    {
        let (at, segment) = self.stand_of(place);
        segment.cut + at.index + 1 - segment.len
    }

    /// Where the command at a place stands, and its segment.
    fn stand_of(&self, place: usize) -> (Location, Segment)
        requires { place < length (values self.now.list.commands) }
        ensures { Stands (values self.now.list.commands) place result.0 result.1 }
    {
        let at = self.locations[place];
        let segment = self.segments[at.segment as usize];
        (at, segment)
    }

    /// The cut of the command with this id, and 0 where none is held that has it.
    fn cut_of(&self, id: &Id) -> u32
        ensures value { result ≡ number_at (cuts (values self.now.list.commands)) (place_of (values self.now.list.commands) id.now) }
        ensures few { result < 65536 }
    {
        match self.list.place_of(id) {
            Some(place) => self.cut(place),
            None => 0,
        }
    }

    /// The cut of a command with these parents.
    fn next_cut(&self, parents: &[Id]) -> u32
        ensures value { result ≡ next_cut (values self.now.list.commands) (cuts (values self.now.list.commands)) parents.now }
        ensures few { result ≤ 65536 }
    {
        match parents {
            [] => 0,
            [first, rest @ ..] => (self.cut_of(first) + 1).max(self.next_cut(rest)),
        }
    }

    /// The place of the command with this id, where no basic or finalize command has it as its parent.
    fn ended_by(&self, id: &Id) -> Option<usize>
        ensures value { result ≡ (if told.goes_on (values self.now.list.commands) id.now then None else place_of (values self.now.list.commands) id.now) }
        ensures within { IfSome result (λ place. place < length (values self.now.list.commands)) }
    {
        match self.list.place_of(id) {
            Some(place) => {
                let (_, segment) = self.stand_of(place);
                if segment.last as usize == place {
                    Some(place)
                } else {
                    None
                }
            }
            None => None,
        }
    }

    /// The place of the parent in whose segment a command with these parents stands; None where it begins a new one.
    fn follows(&self, parents: &[Id]) -> Option<usize>
        ensures value { result ≡ told.follows (values self.now.list.commands) parents.now }
        ensures within { IfSome result (λ place. place < length (values self.now.list.commands)) }
    {
        match parents {
            [id] => self.ended_by(id),
            _ => None,
        }
    }
}

impl SegmentGraph {
    /// Marks the segment in which the command with this id stands, if it can have the old one below it.
    fn reach(&self, marks: &mut Vec<bool>, old: Location, id: &Id)
        requires { AreWithin (values self.now.list.commands) old (length marks.old.items) (id.now ∷ []) }
        ensures { Marks (IsMetBy (values self.now.list.commands) old (id.now ∷ [])) marks.old.items marks.new.items }
    {
        if let Some(place) = self.list.place_of(id) {
            let (at, _) = self.stand_of(place);
            reach_at(marks, old, at);
        }
    }

    /// The same for each of some ids.
    fn reach_all(&self, marks: &mut Vec<bool>, old: Location, ids: &[Id])
        requires { AreWithin (values self.now.list.commands) old (length marks.old.items) ids.now }
        ensures { Marks (IsMetBy (values self.now.list.commands) old ids.now) marks.old.items marks.new.items }
    {
        for id in ids {
            self.reach(marks, old, id);
        }
    }

    /// Looks at one segment: where it is marked, and its first command's cut is high enough, those of that command's parents are
    /// marked too.
    fn look(&self, marks: &mut Vec<bool>, old: Location, limit: u32, number: usize)
        requires number { number < length marks.old.items }
        requires segment { old.segment + number < length (told.segments (values self.now.list.commands)) }
        ensures { IsLooked (values self.now.list.commands) old limit number marks.old.items marks.new.items }
    {
        if !marks[number] {
            return;
        }
        let first = self.first_of(old.segment as usize + number);
        if limit < self.cut(first) {
            let parents = self.list.at(first).parents();
            self.reach_all(marks, old, parents.as_slice());
        }
    }

    /// The place of the first command of a segment.
    fn first_of(&self, number: usize) -> usize
        requires { number < length (told.segments (values self.now.list.commands)) }
        ensures first { (seg : TheSegment) × (slice_get (told.segments (values self.now.list.commands)) number ≡ Some seg) × (result ≡ seg.first) }
        ensures within { result < length (values self.now.list.commands) }
    {
        self.segments[number].first as usize
    }

    /// Whether the older command is found below the newer one, which stands in a later segment.
    fn is_found(
        &self,
        alloc: Global,
        older: usize,
        newer: usize,
        old: Location,
        new: Location,
    ) -> Result<bool, NoMemory>
        requires order { older < newer }
        requires newer { newer < length (values self.now.list.commands) }
        requires old { slice_get (told.locations (values self.now.list.commands)) older ≡ Some old }
        requires new { slice_get (told.locations (values self.now.list.commands)) newer ≡ Some new }
        requires later { old.segment < new.segment }
        ensures { IfOk result (λ found. (x y : TheCommand) → IsAt (values self.now.list.commands) older x → IsAt (values self.now.list.commands) newer y → IsTrue found ↔ Ancestor (values self.now.list.commands) x y) }
    {
        let last = (new.segment - old.segment) as usize;
        let limit = self.cut(older);
        let mut marks = begun(alloc, last)?;
        let mut number = last;
        while 0 < number {
            if marks[0] {
                return Ok(true);
            }
            self.look(&mut marks, old, limit, number);
            number -= 1;
        }
        Ok(marks[0])
    }
}

/// Puts a command with this cut at the place into the tables: behind the one at the place that it follows, or in a new segment.
fn put(
    locations: &mut Vec<Location>,
    segments: &mut Vec<Segment>,
    place: usize,
    cut: u32,
    follows: Option<usize>,
)
    requires place { place < 65536 }
    requires count { length segments.old.items ≤ place }
    requires wide { length locations.old.items < vec_capacity locations.old }
    requires broad { length segments.old.items < vec_capacity segments.old }
    requires parent { IfSome follows (λ parent. (at : TheLocation) × (slice_get locations.old.items parent ≡ Some at) × ((seg : TheSegment) × (slice_get segments.old.items at.segment ≡ Some seg) × (at.index < 65536) × (seg.len < 65536 + 1))) }
    ensures tables { tables_of locations.new.items segments.new.items ≡ told.one_more (tables_of locations.old.items segments.old.items) place cut follows }
    ensures wide { vec_capacity locations.old ≤ vec_capacity locations.new }
    ensures broad { vec_capacity segments.old ≤ vec_capacity segments.new }
    ensures longer { length locations.new.items ≤ length locations.old.items + 1 }
    ensures more { length segments.new.items ≤ length segments.old.items + 1 }
{
    match follows {
        Some(parent) => {
            let at = locations[parent];
            lengthen(segments, at.segment as usize, place, cut);
            push_location(locations, at.segment, at.index + 1);
        }
        None => {
            push_location(locations, segments.len() as u32, 0);
            push_segment(segments, place, cut);
        }
    }
}

/// One more command at the end of a segment.
fn lengthen(segments: &mut Vec<Segment>, number: usize, place: usize, cut: u32)
    requires place { place < 65536 }
    requires there { (seg : TheSegment) × (slice_get segments.old.items number ≡ Some seg) × (seg.len < 65536 + 1) }
    ensures items { segments.new.items ≡ set segments.old.items number (told.longer place cut (get_or segments.old.items number (told.segment_of 0 0 0 0))) }
    ensures capacity { vec_capacity segments.old ≤ vec_capacity segments.new }
{
    let segment = segments[number];
    segments[number] = Segment {
        first: segment.first,
        last: place as u32,
        len: segment.len + 1,
        cut,
    };
}

fn push_location(locations: &mut Vec<Location>, segment: u32, index: u32)
    requires { length locations.old.items < vec_capacity locations.old }
    ensures items { locations.new.items ≡ locations.old.items ++ told.located segment index ∷ [] }
    ensures capacity { vec_capacity locations.old ≤ vec_capacity locations.new }
{
    match locations.push(Location { segment, index }) {
        Ok(()) => {}
        Err(_) => unreachable!(),
    }
}

fn push_segment(segments: &mut Vec<Segment>, place: usize, cut: u32)
    requires place { place < 65536 }
    requires room { length segments.old.items < vec_capacity segments.old }
    ensures items { segments.new.items ≡ segments.old.items ++ told.segment_of place place 1 cut ∷ [] }
    ensures capacity { vec_capacity segments.old ≤ vec_capacity segments.new }
{
    let first = place as u32;
    match segments.push(Segment {
        first,
        last: first,
        len: 1,
        cut,
    }) {
        Ok(()) => {}
        Err(_) => unreachable!(),
    }
}

/// Marks the segment of what stands there, if it isn't older than the old one's; that one itself only where it stands at the old
/// one or behind it.
fn reach_at(marks: &mut Vec<bool>, old: Location, at: Location)
    requires { at.segment < old.segment + length marks.old.items }
    ensures { Marks (IsMet old at) marks.old.items marks.new.items }
{
    if at.segment < old.segment {
        return;
    }
    if old.segment < at.segment {
        set_mark(marks, (at.segment - old.segment) as usize);
        return;
    }
    if old.index <= at.index {
        set_mark(marks, 0);
    }
}

impl Graph for SegmentGraph {
    ghost use Rattle.indexmap.specs.IndexMap.{values};

    ghost commands = { λ graph. values graph.list.commands };

    ghost room = { λ graph. graph.room };

    ghost closed = { λ graph. graph.list.graph.closed };

    ghost few = { λ graph. graph.list.graph.few };

    fn empty(alloc: Global) -> Result<SegmentGraph, NoMemory> {
        let list = ListGraph::empty(alloc)?;
        Ok(SegmentGraph {
            list,
            locations: Vec::new(alloc),
            segments: Vec::new(alloc),
            room: 0,
        })
    }

    fn len(&self) -> usize {
        self.list.len()
    }

    fn at(&self, place: usize) -> &Command {
        self.list.at(place)
    }

    fn id_at(&self, place: usize) -> Id {
        self.list.id_at(place)
    }

    fn place_of(&self, id: &Id) -> Option<usize> {
        self.list.place_of(id)
    }

    fn is_ancestor(&self, alloc: Global, older: usize, newer: usize) -> Result<bool, NoMemory> {
        if newer <= older {
            return Ok(false);
        }
        let (old, _) = self.stand_of(older);
        let (new, _) = self.stand_of(newer);
        if old.segment < new.segment {
            return self.is_found(alloc, older, newer, old, new);
        }
        if new.segment < old.segment {
            return Ok(false);
        }
        Ok(true)
    }

    fn heads(&self, alloc: Global) -> Result<Places, NoMemory> {
        self.list.heads(alloc)
    }

    fn spare(&self) -> usize {
        self.room
    }

    fn reserve(&mut self, alloc: Global, more: usize) -> Result<(), NoMemory> {
        if self.room < more {
            self.locations.reserve(more)?;
            self.segments.reserve(more)?;
            self.list.reserve(alloc, more)?;
            self.room = more;
        }
        Ok(())
    }

    fn append(&mut self, command: Command) -> usize {
        let place = self.list.len();
        let parents = command.parents();
        let cut = self.next_cut(parents.as_slice());
        let follows = self.follows(parents.as_slice());
        put(&mut self.locations, &mut self.segments, place, cut, follows);
        self.room -= 1;
        self.list.append(command)
    }

    fn copy(&self, alloc: Global) -> Result<SegmentGraph, NoMemory> {
        let list = self.list.copy(alloc)?;
        let locations = copied_locations(alloc, self.locations.as_slice())?;
        let segments = copied_segments(alloc, self.segments.as_slice())?;
        Ok(SegmentGraph {
            list,
            locations,
            segments,
            room: 0,
        })
    }
}

fn copied_locations(alloc: Global, locations: &[Location]) -> Result<Vec<Location>, NoMemory>
    ensures { IfOk result (λ copy. copy.items ≡ locations.now) }
{
    let mut copy = Vec::with_capacity(alloc, locations.len())?;
    copy.extend_from_slice(locations)?;
    Ok(copy)
}

fn copied_segments(alloc: Global, segments: &[Segment]) -> Result<Vec<Segment>, NoMemory>
    ensures { IfOk result (λ copy. copy.items ≡ segments.now) }
{
    let mut copy = Vec::with_capacity(alloc, segments.len())?;
    copy.extend_from_slice(segments)?;
    Ok(copy)
}
