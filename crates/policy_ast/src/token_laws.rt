ghost use Rattle.policy_ast.specs.TokenLaws.{TakesLongest};
ghost use Rattle.policy_ast.specs.Version.{Version};

/// The token at the head of bytes is the longest of their prefixes that is one token, and each symbol is a token.
pub fn longest_token_is_taken()
    ensures { (version : Version) → TakesLongest version }
{}
