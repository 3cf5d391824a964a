//! What the files of a policy and of a script are taken for.

ghost use Rattle.std.specs.Prelude.{◌≡◌, ◌<◌, ◌^◌, IfOk, IfSome, MatchOption, length};
ghost use Rattle.policy_lex.specs.Answers.{named};
ghost use Rattle.aranyad.specs.Ending.{ReadHalts};
ghost use Rattle.aranyad.specs.Loading.{Holds, IsLoaded, IsParsed, IsRead, IsScriptFile, IsTyped, ArePlaced, fault_line, limited, policy_limit, script_limit};

use crate::ending::Halt;
use crate::reading::read_limited;
use base_bytes::{Bytes, Id, NoMemory, Text, sha256};
use outside::Files;
use policy_ast::{Policy, Token};
use policy_check::{TypeFault, check};
use policy_lex::{LexFault, tokens};
use policy_parse::{SyntaxFault, parse};
use policy_types::Checked;
use script::{Line, ScriptFault, read_script};
use script_texts::{PolicyFault, policy_refused_text};
use std::alloc::Global;

/// A policy document has at most so many bytes.
const POLICY_LIMIT: u64 = 1_048_576;

/// A script has at most so many bytes.
const SCRIPT_LIMIT: u64 = 4_194_304;

/// What a policy's file is taken for.
#[derive(Drop)]
pub enum Loaded {
    /// It has too many bytes.
    TooLarge,
    /// Its document is refused with this line.
    Refused(Bytes),
    /// It is a well-typed policy, and this is the digest of its document.
    Whole(Id, Checked),
}

/// What a script's file is taken for.
#[derive(Drop)]
pub enum Script {
    /// It has too many bytes.
    TooLarge,
    /// The number of the first line that is refused, from 1.
    Refused(u32),
    Lines(Vec<Line>),
}

/// The line that is printed for a document without tokens. Out of memory is no fault of the document, and stays what it is.
fn fault_line(alloc: Global, fault: LexFault) -> Result<Bytes, NoMemory>
    ensures { IfOk result (λ text. MatchOption (named fault) ⊥ (λ f. text ≡ fault_line f)) }
{
    match fault {
        LexFault::NotUtf8(line) => policy_refused_text(alloc, PolicyFault::NotUtf8, line),
        LexFault::NoFrontMatter => policy_refused_text(alloc, PolicyFault::NoFrontMatter, 1),
        LexFault::WrongVersion(line) => policy_refused_text(alloc, PolicyFault::WrongVersion, line),
        LexFault::OpenBlock(line) => policy_refused_text(alloc, PolicyFault::OpenBlock, line),
        LexFault::BadToken(line) => policy_refused_text(alloc, PolicyFault::BadToken, line),
        LexFault::NoMemory => Err(NoMemory),
    }
}

/// What items are taken for, which a document of this digest spells.
fn typed_policy(alloc: Global, digest: Id, policy: Policy) -> Result<Loaded, NoMemory>
    ensures { IfOk result (λ is. IsTyped digest policy is) }
{
    match check(alloc, policy) {
        Ok(policy) => Ok(Loaded::Whole(digest, policy)),
        Err(TypeFault::IllTyped { item_line }) => {
            let line = policy_refused_text(alloc, PolicyFault::IllTyped, item_line)?;
            Ok(Loaded::Refused(line))
        }
        Err(TypeFault::NoMemory) => Err(NoMemory),
    }
}

/// What the tokens of a document of this digest are taken for.
fn parsed_policy(alloc: Global, digest: Id, tokens: &[Token]) -> Result<Loaded, NoMemory>
    requires { length tokens.now < 2 ^ 32 }
    ensures { IfOk result (λ is. IsParsed digest tokens.now is) }
{
    match parse(alloc, tokens) {
        Ok(policy) => typed_policy(alloc, digest, policy),
        Err(SyntaxFault::Syntax { item_line }) => {
            let line = policy_refused_text(alloc, PolicyFault::Syntax, item_line)?;
            Ok(Loaded::Refused(line))
        }
        Err(SyntaxFault::NoMemory) => Err(NoMemory),
    }
}

/// What a document is taken for.
fn read_policy(alloc: Global, document: &[u8]) -> Result<Loaded, NoMemory>
    requires { length document.now < 2 ^ 32 }
    ensures { IfOk result (λ is. IsRead document.now is) }
{
    match tokens(alloc, document) {
        Ok(tokens) => parsed_policy(alloc, sha256(document), tokens.as_slice()),
        Err(fault) => Ok(Loaded::Refused(fault_line(alloc, fault)?)),
    }
}

/// Reads the policy's file, and judges what it holds. Nothing is written.
pub fn load_policy<F: Files>(alloc: Global, files: &mut F, name: Text) -> Result<Loaded, Halt>
    ensures loads { IfOk result (λ is. IfSome (F.holds files.old) (λ at. Holds (limited policy_limit (at name)) (λ bytes. IsLoaded bytes is))) }
    ensures holds { F.holds files.new ≡ F.holds files.old }
    ensures cause { ReadHalts name (F.faults files.old) (F.faults files.new) (F.last files.new) result }
{
    match read_limited(alloc, files, name, POLICY_LIMIT) {
        Ok(Some(document)) => match read_policy(alloc, document.as_slice()) {
            Ok(policy) => Ok(policy),
            Err(NoMemory) => Err(Halt::Memory),
        },
        Ok(None) => Ok(Loaded::TooLarge),
        Err(halt) => Err(halt),
    }
}

/// What a script is taken for.
fn script_lines(alloc: Global, bytes: &[u8]) -> Result<Script, NoMemory>
    ensures { IfOk result (λ is. IsScriptFile (Some bytes.now) is) }
{
    match read_script(alloc, bytes) {
        Ok(lines) => Ok(Script::Lines(lines)),
        Err(ScriptFault::Refused { line }) => Ok(Script::Refused(line)),
        Err(ScriptFault::NoMemory) => Err(NoMemory),
    }
}

/// Reads the script's file, and judges what it holds. Nothing is written.
pub fn load_script<F: Files>(alloc: Global, files: &mut F, name: Text) -> Result<Script, Halt>
    ensures loads { IfOk result (λ is. IfSome (F.holds files.old) (λ at. Holds (limited script_limit (at name)) (λ bytes. IsScriptFile bytes is))) }
    ensures placed { IfOk result ArePlaced }
    ensures holds { F.holds files.new ≡ F.holds files.old }
    ensures cause { ReadHalts name (F.faults files.old) (F.faults files.new) (F.last files.new) result }
{
    match read_limited(alloc, files, name, SCRIPT_LIMIT) {
        Ok(Some(bytes)) => match script_lines(alloc, bytes.as_slice()) {
            Ok(script) => Ok(script),
            Err(NoMemory) => Err(Halt::Memory),
        },
        Ok(None) => Ok(Script::TooLarge),
        Err(halt) => Err(halt),
    }
}
