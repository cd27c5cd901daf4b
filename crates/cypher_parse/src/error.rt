use std::alloc::AllocError;

/// Why a text has no tree. Places are in bytes.
#[derive(Clone, Copy, Debug, PartialEq, Eq)]
pub enum ParseRefused {
    /// The tokens in front of `place` begin a query, and with what stands there begin none.
    Syntax { place: u64 },
    /// The opening token at `place` is the 65th to be open at once, and the tokens up to it begin a
    /// query.
    TooDeep { place: u64 },
    /// Memory was wanting. No contract says when this answer comes.
    NoMemory,
}

impl From<AllocError> for ParseRefused {
    ghost use Rattle.std.specs.Prelude.{◌≡◌};
    ghost use Rattle.cypher_parse.specs.declared.error.ParseRefused.TheVariants.{NoMemory};

    ghost from_gives = { λ _ e. e ≡ NoMemory };

    fn from(_: AllocError) -> ParseRefused {
        ParseRefused::NoMemory
    }
}
