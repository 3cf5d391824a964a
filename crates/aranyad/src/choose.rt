ghost use Rattle.std.specs.Prelude.{◌≡◌, [], ◌∷◌, ◌++◌, None, Some, Err, IfOk, OnOk, option_and_then};
ghost use Rattle.std.specs.Option.{option_copied};
ghost use Rattle.aranyad.specs.Modes.{check_mode, is_file_name, mode_by, mode_of, no_words, run_mode, run_words, with_file, with_other, with_store, with_word};
ghost use Rattle.aranyad.specs.working.Hearing.{Hears, folder_in};
ghost use Rattle.aranyad.specs.declared.choose.ChooseFault.TheVariants as fault;

use crate::mode::Mode;
use base_bytes::{NoMemory, Text};
use std::alloc::Global;
use std::marker::Model;

/// Why no mode was read.
#[derive(Drop)]
pub enum ChooseFault {
    /// The words are no words of a mode.
    Usage,
    NoMemory,
}

impl From<NoMemory> for ChooseFault {
    ghost from_gives = { λ _ e. e ≡ fault.NoMemory };

    fn from(_error: NoMemory) -> ChooseFault {
        ChooseFault::NoMemory
    }
}

/// What the words behind `run` said so far: the names of files, in order; the folder of journals; and whether the next word is that folder.
#[derive(Drop)]
struct RunWords {
    files: Vec<Text>,
    store: Option<Text>,
    asks: bool,
}

impl Model for RunWords {
    ghost use Rattle.aranyad.specs.Modes.{RunWords};

    ghost Value = { RunWords };

    ghost view = { λ w. record { files = w.files.items; store = w.store; asks = w.asks } };
}

/// Whether a word can be the name of a file or a folder: it isn't empty, and doesn't begin with a dash.
fn is_file_name(word: &str) -> bool
    ensures { result ≡ is_file_name word.now }
{
    let bytes = word.as_bytes();
    !bytes.is_empty() && bytes[0] != b'-'
}

/// The folder of journals in a word that begins with `--store=`.
fn folder_in(word: &str) -> Option<&str>
    ensures { option_copied result ≡ folder_in word.now }
{
    word.strip_prefix("--store=")
}

/// A copy of the text, behind the others.
fn push_copy(alloc: Global, texts: &mut Vec<Text>, text: &str) -> Result<(), NoMemory>
    ensures { OnOk result (texts.new.items ≡ texts.old.items ++ text.now ∷ []) }
{
    texts.push(Text::from_slice(alloc, text)?)?;
    Ok(())
}

impl RunWords {
    /// With the folder of journals, which is a name, and is given once at most.
    fn with_store(self, alloc: Global, folder: &str) -> Result<RunWords, ChooseFault>
        ensures { Hears (with_store self folder.now) result }
    {
        if self.store.is_some() {
            return Err(ChooseFault::Usage);
        }
        if !is_file_name(folder) {
            return Err(ChooseFault::Usage);
        }
        let folder = Text::from_slice(alloc, folder)?;
        Ok(RunWords {
            files: self.files,
            store: Some(folder),
            asks: false,
        })
    }

    /// With the name of a file. No other word begins with a dash.
    fn with_file(self, alloc: Global, word: &str) -> Result<RunWords, ChooseFault>
        ensures { Hears (with_file self word.now) result }
    {
        if !is_file_name(word) {
            return Err(ChooseFault::Usage);
        }
        let mut files = self.files;
        push_copy(alloc, &mut files, word)?;
        Ok(RunWords {
            files,
            store: self.store,
            asks: self.asks,
        })
    }

    /// With a word that isn't the one behind `--store`.
    fn with_other(self, alloc: Global, word: &str) -> Result<RunWords, ChooseFault>
        ensures { Hears (with_other self word.now) result }
    {
        match folder_in(word) {
            Some(folder) => self.with_store(alloc, folder),
            None => self.with_file(alloc, word),
        }
    }

    /// With one word more.
    fn with_word(self, alloc: Global, word: &str) -> Result<RunWords, ChooseFault>
        ensures { Hears (with_word self word.now) result }
    {
        if self.asks {
            return self.with_store(alloc, word);
        }
        if word == "--store" {
            return Ok(RunWords {
                files: self.files,
                store: self.store,
                asks: true,
            });
        }
        self.with_other(alloc, word)
    }

    /// The mode of a policy, a script, and no folder that is still to come.
    fn mode(self) -> Result<Mode, ChooseFault>
        ensures { Hears (run_mode self) result }
    {
        if self.asks {
            return Err(ChooseFault::Usage);
        }
        let mut files = self.files;
        if files.len() != 2 {
            return Err(ChooseFault::Usage);
        }
        let policy = files.remove(0);
        let script = files.remove(0);
        Ok(Mode::Run(policy, script, self.store))
    }
}

/// The words behind `run`.
fn run_words(alloc: Global, words: &[Text]) -> Result<RunWords, ChooseFault>
    ensures { Hears (run_words no_words words.now) result }
{
    let mut said = RunWords {
        files: Vec::new(alloc),
        store: None,
        asks: false,
    };
    for word in words {
        said = said.with_word(alloc, word.as_str())?;
    }
    Ok(said)
}

/// The mode `run` of the words behind it.
fn run_mode(alloc: Global, words: &[Text]) -> Result<Mode, ChooseFault>
    ensures { Hears (option_and_then run_mode (run_words no_words words.now)) result }
{
    match run_words(alloc, words) {
        Ok(said) => said.mode(),
        Err(fault) => Err(fault),
    }
}

/// The mode `check` of the words behind it.
fn check_mode(alloc: Global, words: &[Text]) -> Result<Mode, ChooseFault>
    ensures { Hears (check_mode words.now) result }
{
    match words {
        [policy] => {
            if !is_file_name(policy.as_str()) {
                return Err(ChooseFault::Usage);
            }
            Ok(Mode::Check(policy.copy(alloc)?))
        }
        _ => Err(ChooseFault::Usage),
    }
}

/// The mode that a word names, with the words behind it.
fn mode_by(alloc: Global, verb: &str, words: &[Text]) -> Result<Mode, ChooseFault>
    ensures { Hears (mode_by verb.now words.now) result }
{
    if verb == "check" {
        return check_mode(alloc, words);
    }
    if verb == "run" {
        return run_mode(alloc, words);
    }
    Err(ChooseFault::Usage)
}

/// The mode that the words after the program's name are words of, by `docs/SCRIPT.md`.
pub fn choose(alloc: Global, words: &[Text]) -> Result<Mode, ChooseFault>
    ensures mode { IfOk result (λ mode. mode_of words.now ≡ Some mode) }
    ensures usage { result ≡ Err fault.Usage → mode_of words.now ≡ None }
{
    match words {
        [verb, rest @ ..] => mode_by(alloc, verb.as_str(), rest),
        [] => Err(ChooseFault::Usage),
    }
}
