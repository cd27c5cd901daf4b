use crate::Kind;
use graph_value::{Name, Text};

/// A token as the grammar sees it.
#[derive(Drop)]
pub struct Lexeme {
    pub kind: Kind,
    pub payload: Payload,
    /// Where it begins in the text, in bytes.
    pub place: u64,
}

/// What a token carries into the tree.
#[derive(Drop)]
pub enum Payload {
    /// Nothing: a sign, the integer 2^63, or what begins no token.
    Bare,
    /// A word, or what stands between backquotes.
    Name(Name),
    /// The value of an integer.
    Integer(i64),
    /// What stands between quotes, with its escapes replaced.
    Text(Text),
}
