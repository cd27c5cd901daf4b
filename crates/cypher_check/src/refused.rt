use graph_value::{Name, NoMemory};

/// Why a query can't be run.
#[derive(Drop)]
pub enum CheckRefused {
    /// A query with a TT clause writes.
    TtWrites,
    /// TT BETWEEN stands on a query that isn't one MATCH and a plain RETURN.
    BetweenShape,
    /// A name is used that stands for nothing; `*` where nothing has a name.
    Unbound(Name),
    /// A name is given that stands for something already.
    Redeclared(Name),
    /// An aggregate stands where none may, or a name stands beside an aggregate.
    AggregatePlace,
    /// Memory was wanting. No contract says when this answer comes.
    NoMemory,
}

impl From<NoMemory> for CheckRefused {
    ghost use Rattle.std.specs.Prelude.{◌≡◌};
    ghost use Rattle.cypher_check.specs.declared.refused.CheckRefused.TheVariants.{NoMemory as no_memory};

    ghost from_gives = { λ _ e. e ≡ no_memory };

    fn from(_: NoMemory) -> CheckRefused {
        CheckRefused::NoMemory
    }
}
