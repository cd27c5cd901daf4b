use crate::Tokens;
use graph_value::{Name, NoMemory, Text};

/// What a token is.
#[derive(Drop)]
pub enum What {
    /// A letter or `_`, and letters, digits and `_` behind it: a keyword, a name or the name of a function. The word is the
    /// token's slice of the text.
    Word,
    /// A name between backquotes, without these, each doubled backquote as one. It is never a keyword.
    Quoted(Name),
    /// An integer that an `i64` holds, without a sign.
    Int(i64),
    /// The integer 2^63, which is one only behind a minus.
    IntMin,
    /// What stands between quotes, with its escapes replaced.
    Text(Text),
    /// Brackets, points and operators. Which one is told by the token's slice of the text.
    Sign,
}

/// A part of a text that is read as one.
#[derive(Drop)]
pub struct Token {
    /// What it is.
    pub what: What,
    /// Where its slice of the text begins, in bytes.
    pub from: u64,
    /// Where its slice ends, in bytes: the place of the first byte behind it.
    pub to: u64,
}

/// Why a text has no list of tokens.
#[derive(Drop)]
pub enum TokenRefused {
    /// No token begins with what stands at `place`, in bytes. The tokens before it are `before`.
    Place { place: u64, before: Tokens },
    /// Memory was wanting. No contract says when this answer comes.
    NoMemory,
}

impl From<NoMemory> for TokenRefused {
    ghost use Rattle.std.specs.Prelude.{◌≡◌};
    ghost use Rattle.cypher_syntax.specs.declared.token.TokenRefused.TheVariants.{NoMemory as no_memory};

    ghost from_gives = { λ _ e. e ≡ no_memory };

    fn from(_: NoMemory) -> TokenRefused {
        TokenRefused::NoMemory
    }
}
