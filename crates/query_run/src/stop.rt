ghost use Rattle.std.specs.Prelude.{◌≡◌};
ghost use Rattle.query_run.specs.Asked.{stop_of};

use expr_eval::EvalRefused;
use graph_value::{Oid, VertexId};
use std::alloc::AllocError;
use txn_manager::Rival;
use world_model::Refused;

/// Why a query stopped. Its transaction may hold some of its writes, so the caller gives the transaction up.
#[derive(Clone, Copy, Debug, PartialEq, Eq)]
pub enum Stop {
    /// An expression, a clause or an object has no value, or memory was wanting.
    Eval(EvalRefused),
    /// Somebody else has written the object.
    Conflict(Oid, Rival),
    /// A vertex was to be deleted that has edges left.
    HasEdges(VertexId),
    /// All ids have been given out.
    IdEnd,
    /// The query asks for an instant past the start of its transaction.
    TimeAhead { t: u64, start: u64 },
}

impl From<AllocError> for Stop {
    ghost use Rattle.std.specs.Prelude.{◌≡◌};
    ghost use Rattle.expr_eval.specs.declared.refused.EvalRefused.TheVariants.{NoMemory};
    ghost use Rattle.query_run.specs.declared.stop.Stop.TheVariants.{Eval};

    ghost from_gives = { λ _ e. e ≡ Eval NoMemory };

    fn from(_: AllocError) -> Stop {
        Stop::Eval(EvalRefused::NoMemory)
    }
}

/// Why a write that was refused stops a query.
pub(crate) fn stop_of(why: Refused) -> Stop
    ensures { result ≡ stop_of why }
{
    match why {
        Refused::Conflict(x, rival) => Stop::Conflict(x, rival),
        Refused::HasEdges(v) => Stop::HasEdges(v),
        Refused::IdEnd => Stop::IdEnd,
        Refused::Missing(x) => Stop::Eval(EvalRefused::Gone(x)),
        Refused::NoTxn
        | Refused::AlreadyOpen
        | Refused::TimeAhead { .. }
        | Refused::ClockEnd
        | Refused::Stale { .. }
        | Refused::TooMany
        | Refused::NoMemory => Stop::Eval(EvalRefused::NoMemory),
    }
}
