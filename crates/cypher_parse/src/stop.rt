use std::alloc::AllocError;

/// Why a part of a query wasn't read.
#[derive(Clone, Copy)]
pub(crate) enum Stop {
    /// Memory was wanting.
    NoMemory,
    /// No query goes on with the next token.
    Syntax,
    /// The next token is one more than may be open at once.
    TooDeep,
}

impl From<AllocError> for Stop {
    ghost use Rattle.std.specs.Prelude.{◌≡◌};
    ghost use Rattle.cypher_parse.specs.declared.stop.Stop.TheVariants.{NoMemory};

    ghost from_gives = { λ _ e. e ≡ NoMemory };

    fn from(_: AllocError) -> Stop {
        Stop::NoMemory
    }
}
