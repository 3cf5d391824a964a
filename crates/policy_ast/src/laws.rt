ghost use Rattle.policy_ast.specs.Laws.{HaveOneReading};
ghost use Rattle.policy_ast.specs.Symbols.{IsSymbol};
ghost use Rattle.policy_ast.specs.Version.{Two};
ghost use Rattle.policy_ast.specs.declared.symbols.TheConstants as symbols;
ghost use Rattle.std.specs.Prelude.{List};
ghost use Rattle.policy_ast.specs.declared.token.Token.{Token};

/// Tokens spell one policy or none, and have one longest run of whole items.
pub fn tokens_have_one_reading()
    ensures { (tokens : List Token) → HaveOneReading tokens }
{}

/// Each constant of `symbols` is the place of its symbol in the list of symbols.
pub fn constants_are_symbols()
    ensures open_brace { IsSymbol Two "{" symbols.OPEN_BRACE }
    ensures close_brace { IsSymbol Two "}" symbols.CLOSE_BRACE }
    ensures open_bracket { IsSymbol Two "[" symbols.OPEN_BRACKET }
    ensures close_bracket { IsSymbol Two "]" symbols.CLOSE_BRACKET }
    ensures open_paren { IsSymbol Two "(" symbols.OPEN_PAREN }
    ensures close_paren { IsSymbol Two ")" symbols.CLOSE_PAREN }
    ensures comma { IsSymbol Two "," symbols.COMMA }
    ensures colon { IsSymbol Two ":" symbols.COLON }
    ensures path { IsSymbol Two "::" symbols.PATH }
    ensures dot { IsSymbol Two "." symbols.DOT }
    ensures question_mark { IsSymbol Two "?" symbols.QUESTION_MARK }
    ensures equals { IsSymbol Two "=" symbols.EQUALS }
    ensures arrow { IsSymbol Two "=>" symbols.ARROW }
    ensures equal { IsSymbol Two "==" symbols.EQUAL }
    ensures not_equal { IsSymbol Two "!=" symbols.NOT_EQUAL }
    ensures less { IsSymbol Two "<" symbols.LESS }
    ensures less_or_equal { IsSymbol Two "<=" symbols.LESS_OR_EQUAL }
    ensures greater { IsSymbol Two ">" symbols.GREATER }
    ensures greater_or_equal { IsSymbol Two ">=" symbols.GREATER_OR_EQUAL }
    ensures and { IsSymbol Two "&&" symbols.AND }
    ensures or { IsSymbol Two "||" symbols.OR }
    ensures bar { IsSymbol Two "|" symbols.BAR }
    ensures not { IsSymbol Two "!" symbols.NOT }
    ensures underscore { IsSymbol Two "_" symbols.UNDERSCORE }
{}
