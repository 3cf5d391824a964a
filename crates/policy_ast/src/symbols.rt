//! The symbols of the language: each constant is the place of its symbol, from 0, in the list of all of them.

/// `{`
pub const OPEN_BRACE: u8 = 0;
/// `}`
pub const CLOSE_BRACE: u8 = 1;
/// `[`
pub const OPEN_BRACKET: u8 = 2;
/// `]`
pub const CLOSE_BRACKET: u8 = 3;
/// `(`
pub const OPEN_PAREN: u8 = 4;
/// `)`
pub const CLOSE_PAREN: u8 = 5;
/// `,`
pub const COMMA: u8 = 6;
/// `:`
pub const COLON: u8 = 7;
/// `::`
pub const PATH: u8 = 8;
/// `.`
pub const DOT: u8 = 9;
/// `?`
pub const QUESTION_MARK: u8 = 10;
/// `=`
pub const EQUALS: u8 = 11;
/// `=>`
pub const ARROW: u8 = 12;
/// `==`
pub const EQUAL: u8 = 13;
/// `!=`
pub const NOT_EQUAL: u8 = 14;
/// `<`
pub const LESS: u8 = 15;
/// `<=`
pub const LESS_OR_EQUAL: u8 = 16;
/// `>`
pub const GREATER: u8 = 17;
/// `>=`
pub const GREATER_OR_EQUAL: u8 = 18;
/// `&&`
pub const AND: u8 = 19;
/// `||`
pub const OR: u8 = 20;
/// `|`
pub const BAR: u8 = 21;
/// `!`
pub const NOT: u8 = 22;
/// `_`
pub const UNDERSCORE: u8 = 23;
