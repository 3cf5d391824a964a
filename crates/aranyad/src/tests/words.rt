// Words that ask for no run, and words that name a folder of journals.
use crate::tests::rows::{FIRST, Row};

/// What is printed for them.
pub const USAGE: &[&str] = &[
    "usage: aranyad check POLICY | run POLICY SCRIPT [--store DIR] | code POLICY | gen N | serve POLICY SCRIPT --rounds N\n",
];

pub const OTHERS: [(&str, &[&str]); 36] = [
    ("no word", &[]),
    ("one word", &["run"]),
    ("two words", &["run", "policy"]),
    ("four words", &["run", "policy", "script", "x"]),
    ("a folder to come", &["run", "policy", "script", "--store"]),
    (
        "two folders",
        &["run", "policy", "--store", "d", "script", "--store", "d"],
    ),
    (
        "two folders, each in one word",
        &["run", "--store=d", "policy", "script", "--store=d"],
    ),
    (
        "an empty folder",
        &["run", "policy", "script", "--store", ""],
    ),
    (
        "an empty folder in one word",
        &["run", "policy", "script", "--store="],
    ),
    (
        "a folder with a dash",
        &["run", "policy", "script", "--store", "--store"],
    ),
    (
        "a folder with a dash in one word",
        &["run", "policy", "script", "--store=-d"],
    ),
    (
        "a longer option",
        &["run", "policy", "script", "--stores", "d"],
    ),
    ("a folder and one name", &["run", "--store", "d", "policy"]),
    (
        "a folder before the verb",
        &["--store=d", "run", "policy", "script"],
    ),
    ("an empty policy's name", &["run", "", "script"]),
    ("an empty script's name", &["run", "policy", ""]),
    ("a policy's name with a dash", &["run", "-policy", "script"]),
    ("a script's name with a dash", &["run", "policy", "-"]),
    ("two dashes for a verb", &["--", "policy", "script"]),
    ("another verb", &["ran", "policy", "script"]),
    ("a large letter", &["Run", "policy", "script"]),
    ("an empty verb", &["", "policy", "script"]),
    ("check without a name", &["check"]),
    ("check of two names", &["check", "policy", "script"]),
    ("check of an empty name", &["check", ""]),
    ("check of a name with a dash", &["check", "-policy"]),
    ("check with an option", &["check", "--store=d", "policy"]),
    ("code", &["code", "policy"]),
    ("gen", &["gen", "3"]),
    ("serve", &["serve", "policy", "script", "--rounds", "2"]),
    (
        "serve, with an option in one",
        &["serve", "--rounds=2", "policy", "script"],
    ),
    ("session", &["session", "policy", "script", "calls"]),
    (
        "watch",
        &["watch", "policy", "script", "a", "Item", "--readers", "2"],
    ),
    ("help", &["--help"]),
    ("version", &["--version"]),
    ("two dashes", &["--"]),
];

/// The folder stands anywhere behind `run`. The disks are the caller's, so nothing else comes of it.
pub const STORES: [Row; 5] = [
    Row {
        name: "a folder behind the names",
        words: &["run", "policy", "script", "--store", "d"],
        ..FIRST
    },
    Row {
        name: "a folder before the names",
        words: &["run", "--store", "d", "policy", "script"],
        ..FIRST
    },
    Row {
        name: "a folder between the names",
        words: &["run", "policy", "--store", "d", "script"],
        ..FIRST
    },
    Row {
        name: "a folder in one word",
        words: &["run", "policy", "--store=d", "script"],
        ..FIRST
    },
    Row {
        name: "a folder with a mark in its name",
        words: &["run", "--store==d", "policy", "script"],
        ..FIRST
    },
];
