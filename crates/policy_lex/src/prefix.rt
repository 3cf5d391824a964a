ghost use Rattle.std.specs.Prelude.{◌≡◌, ◌+◌, IfSome, length};
ghost use Rattle.std.specs.Option.{option_copied};
ghost use Rattle.policy_ast.specs.TokenForms.{behind};

/// What stands behind a prefix, where bytes begin with it.
pub fn behind<'a>(prefix: &[u8], bytes: &'a [u8]) -> Option<&'a [u8]>
    ensures rest { option_copied result ≡ behind prefix.now bytes.now }
    ensures size { IfSome result (λ rest. length prefix.now + length rest.now ≡ length bytes.now) }
{
    if bytes.starts_with(prefix) {
        Some(&bytes[prefix.len()..])
    } else {
        None
    }
}
