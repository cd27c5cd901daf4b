use graph_value::Oid;
use std::alloc::AllocError;

/// Why there is no value.
#[derive(Clone, Copy, Debug, PartialEq, Eq)]
pub enum EvalRefused {
    /// A value is of a kind that isn't allowed in its place.
    TypeFault,
    /// An integer would pass 64 bits.
    Overflow,
    /// A divisor is 0.
    ZeroDivisor,
    /// A value would be too large, or lists would nest too deep in it.
    TooLarge,
    /// A table would have too many rows.
    RowLimit,
    /// An entity isn't alive.
    Gone(Oid),
    /// Memory was wanting. No contract says when this answer comes.
    NoMemory,
}

impl From<AllocError> for EvalRefused {
    ghost use Rattle.std.specs.Prelude.{◌≡◌};
    ghost use Rattle.expr_eval.specs.declared.refused.EvalRefused.TheVariants.{NoMemory};

    ghost from_gives = { λ _ e. e ≡ NoMemory };

    fn from(_: AllocError) -> EvalRefused {
        EvalRefused::NoMemory
    }
}
