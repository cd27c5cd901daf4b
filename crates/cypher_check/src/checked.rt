ghost use Rattle.std.specs.Prelude.{◌≡◌, None};
ghost use Rattle.cypher_check.specs.Verdict.{verdict};

use cypher_syntax::{Query, Time};

/// A query against which no rule speaks.
#[derive(Drop)]
pub struct Checked {
    pub(crate) query: Query,
    pub ghost no_rule_fails: { verdict query ≡ None },
}

impl Checked {
    ghost use Rattle.cypher_check.specs.Answer.{query_of};

    /// Which instants the query is asked of.
    pub fn time(&self) -> &Time
        ensures { result.now ≡ (query_of self.now).time }
    {
        &self.query.time
    }

    /// The query.
    pub fn query(&self) -> &Query
        ensures query { result.now ≡ query_of self.now }
        ensures rules { verdict (query_of self.now) ≡ None }
    {
        &self.query
    }
}
