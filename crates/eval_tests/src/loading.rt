// Policies out of documents.
ghost use Rattle.std.specs.Prelude.{◌<◌, ◌^◌, length};

use base_bytes::NoMemory;
use policy_ast::Token;
use policy_check::check;
use policy_eval::TreeRunner;
use policy_lex::tokens;
use policy_parse::parse;
use std::alloc::Global;

fn of_tokens(alloc: Global, tokens: &[Token]) -> Result<Option<TreeRunner>, NoMemory>
    requires { length tokens.now < 2 ^ 32 }
{
    let Ok(policy) = parse(alloc, tokens) else {
        return Ok(None);
    };
    match check(alloc, policy) {
        Ok(checked) => Ok(Some(TreeRunner::new(checked))),
        Err(_) => Ok(None),
    }
}

/// The runner of a document, and None where it is no well-typed policy.
pub fn runner_of(alloc: Global, document: &str) -> Result<Option<TreeRunner>, NoMemory> {
    if document.len() > 1000000 {
        return Ok(None);
    }
    match tokens(alloc, document.as_bytes()) {
        Ok(found) => of_tokens(alloc, found.as_slice()),
        Err(_) => Ok(None),
    }
}
