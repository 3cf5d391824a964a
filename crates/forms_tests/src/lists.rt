ghost use Rattle.std.specs.Prelude.{◌≡◌, ◌<◌};

use base_bytes::{
    Arg, Bytes, Id, Ids, NoMemory, Reader, Shape, Shapes, Steps, Tag, Text, Ty, Value, Values,
    are_same_values, copy_values,
};
use command::{Command, Commands, Places, read_counted};
use sqlite_items::{Boxed, Items};
use std::alloc::Global;
use std::marker::Brand;
use std::sync::ledger::{Blank, Ledger};
use std::test::*;

fn grown_bytes(alloc: Global) -> Result<Bytes, NoMemory> {
    let mut bytes = Bytes::from_slice(alloc, &[1, 2])?;
    bytes.push(alloc, 3)?;
    bytes.extend(alloc, &[4, 5])?;
    bytes.truncate(4);
    bytes.copy(alloc)
}

fn grown_text(alloc: Global) -> Result<Text, NoMemory> {
    let mut text = Text::from_string(String::from_str(alloc, "na")?);
    text.push(alloc, 'é')?;
    text.copy(alloc)
}

fn grown_ids(alloc: Global) -> Result<Ids, NoMemory> {
    let mut ids = Ids::from_slice(alloc, &[Id::new([1; 32])])?;
    ids.push(alloc, Id::new([2; 32]))?;
    ids.copy(alloc)
}

#[test]
fn small_lists_grow(rt: HostRuntime) -> Result<(), Fail> {
    let alloc = rt.alloc();
    let bytes = grown_bytes(alloc)?;
    assert!(rt; bytes.as_slice() == [1, 2, 3, 4].as_slice());
    assert!(rt; bytes.len() == 4);
    let text = grown_text(alloc)?;
    assert!(rt; text.as_str() == "naé");
    assert!(rt; text.len() == 4);
    let ids = grown_ids(alloc)?;
    assert!(rt; ids.as_slice() == [Id::new([1; 32]), Id::new([2; 32])].as_slice());
    assert!(rt; ids.len() == 2);
    Ok(())
}

fn merge(left: u8, right: u8) -> Command {
    Command::Merge {
        cut: None,
        left: Id::new([left; 32]),
        right: Id::new([right; 32]),
    }
}

fn is_merge(command: &Command, low: u8, high: u8) -> bool {
    match command {
        Command::Merge {
            cut: _,
            left,
            right,
        } => { *left == Id::new([low; 32]) && *right == Id::new([high; 32]) }
        _ => false,
    }
}

fn are_two_merges(commands: &Commands) -> bool {
    match commands.as_slice() {
        [first, second] => is_merge(first, 1, 2) && is_merge(second, 3, 4),
        _ => false,
    }
}

fn grown_commands(alloc: Global) -> Result<Commands, NoMemory> {
    let mut commands = Commands::from_slice(alloc, &[merge(1, 2)])?;
    commands.push(alloc, merge(3, 4))?;
    Ok(commands)
}

#[test]
fn lists_of_commands_grow(rt: HostRuntime) -> Result<(), Fail> {
    let alloc = rt.alloc();
    let commands = grown_commands(alloc)?;
    assert!(rt; commands.len() == 2);
    assert!(rt; are_two_merges(&commands));
    assert!(rt; are_two_merges(&commands.copy(alloc)?));
    assert!(rt; are_two_merges(&Commands::from_slice(alloc, commands.as_slice())?));
    assert!(rt; Commands::new(alloc).as_slice().is_empty());
    Ok(())
}

fn grown_places(alloc: Global) -> Result<Places, NoMemory> {
    let mut places = Places::from_slice(alloc, &[7, 5])?;
    places.push(alloc, 9)?;
    Ok(places)
}

#[test]
fn lists_of_places_grow(rt: HostRuntime) -> Result<(), Fail> {
    let alloc = rt.alloc();
    let mut places = grown_places(alloc)?;
    assert!(rt; places.as_slice() == [7, 5, 9].as_slice());
    assert!(rt; places.len() == 3);
    assert!(rt; places.copy(alloc)?.as_slice() == [7, 5, 9].as_slice());
    places.reverse();
    assert!(rt; places.as_slice() == [9, 5, 7].as_slice());
    assert!(rt; Places::new(alloc).as_slice().is_empty());
    Ok(())
}

// A merge behind its length, and one byte behind it.
fn counted_merge(alloc: Global) -> Result<Bytes, NoMemory> {
    let mut bytes = Bytes::from_slice(alloc, &[0, 0, 0, 66, 1, 3])?;
    bytes.extend(alloc, &[1; 32])?;
    bytes.extend(alloc, &[2; 32])?;
    bytes.push(alloc, 9)?;
    Ok(bytes)
}

#[test]
fn a_counted_command_is_read(rt: HostRuntime) -> Result<(), Fail> {
    let alloc = rt.alloc();
    let bytes = counted_merge(alloc)?;
    let mut reader = Reader::new(bytes.as_slice());
    let command = read_counted(alloc, &mut reader);
    assert!(rt; command.is_ok_and(|it| is_merge(&it, 1, 2)));
    assert!(rt; reader.u8() == Ok(9));
    assert!(rt; reader.end() == Ok(()));
    Ok(())
}

#[test]
fn small_lists_begin_empty(rt: HostRuntime) {
    let alloc = rt.alloc();
    assert!(rt; Bytes::new(alloc).as_slice().is_empty());
    assert!(rt; Bytes::from_vec(Vec::new(alloc)).as_slice().is_empty());
    assert!(rt; Text::new(alloc).as_slice().is_empty());
    assert!(rt; Ids::new(alloc).as_slice().is_empty());
}

#[test]
fn only_some_bytes_are_a_text_or_a_tag(rt: HostRuntime) -> Result<(), Fail> {
    let alloc = rt.alloc();
    let found = Text::from_utf8(alloc, b"ok")?;
    assert!(rt; found == Some(Text::from_slice(alloc, "ok")?));
    assert!(rt; Text::from_utf8(alloc, &[255])?.is_none());
    let tag = Tag::from_slice(&[9; 64]).unwrap();
    assert!(rt; tag.copy().as_slice() == [9; 64].as_slice());
    assert!(rt; Tag::from_slice(&[9; 65]).is_none());
    Ok(())
}

fn two_fields(alloc: Global) -> Result<Values, NoMemory> {
    let mut fields = Items::new(alloc);
    fields.push(Value::Int(1))?;
    fields.push(Value::Str(Text::from_slice(alloc, "a")?))?;
    Ok(fields)
}

fn written_argument(alloc: Global) -> Result<Arg, NoMemory> {
    let mut fields = Items::new(alloc);
    fields.push((Text::from_slice(alloc, "n")?, Arg::Int(3)))?;
    Ok(Arg::Fields(Text::from_slice(alloc, "Put")?, fields))
}

fn is_written(argument: &Arg) -> bool {
    match argument {
        Arg::Fields(name, fields) => match fields.as_slice() {
            [(field, Arg::Int(3))] => name.as_str() == "Put" && field.as_str() == "n",
            _ => false,
        },
        _ => false,
    }
}

#[test]
fn copies_of_values_are_the_same(rt: HostRuntime) -> Result<(), Fail> {
    let alloc = rt.alloc();
    let fields = two_fields(alloc)?;
    let copied = copy_values(alloc, fields.as_slice())?;
    assert!(rt; are_same_values(fields.as_slice(), copied.as_slice()));
    let value = Value::Struct(4, fields);
    assert!(rt; value.is_same(&value.copy(alloc)?));
    assert!(rt; !value.is_same(&Value::Nothing));
    Ok(())
}

#[test]
fn copies_of_types_and_arguments(rt: HostRuntime) -> Result<(), Fail> {
    let alloc = rt.alloc();
    let ty = Ty::Optional(Boxed::new(alloc, Ty::Struct(4))?);
    assert!(rt; ty.is_same(&ty.copy(alloc)?));
    assert!(rt; !ty.is_same(&Ty::Struct(4)));
    let argument = written_argument(alloc)?;
    assert!(rt; is_written(&argument));
    assert!(rt; is_written(&argument.copy(alloc)?));
    Ok(())
}

fn three_shapes(alloc: Global) -> Result<Shapes, NoMemory> {
    let mut types = Items::new(alloc);
    types.push(Ty::Enum(0))?;
    let mut items = Items::new(alloc);
    items.push(Shape::Variants(2))?;
    items.push(Shape::Fields(types))?;
    items.push(Shape::Neither)?;
    Ok(Shapes { items })
}

#[test]
fn shapes_are_a_list(rt: HostRuntime) -> Result<(), Fail> {
    assert!(rt; three_shapes(rt.alloc())?.items.len() == 3);
    Ok(())
}

fn run_two_blocks<L: Ledger>(blank: Blank)
    requires name { blank.name ≡ L.name }
    requires parts { blank.parts ≡ L.parts }
    requires some { 0 < L.parts }
{
    let mut steps = Steps::<L>::start(blank);
    steps.tick();
    steps.tick();
}

// A counter takes no bytes: what it says, contracts alone can see.
#[test]
fn a_counter_takes_ticks() {
    run_two_blocks::<Brand>(Blank::new(1));
}
