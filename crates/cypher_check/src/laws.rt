//! What later parts may rest on.
ghost use Rattle.std.specs.Prelude.{◌≡◌, ◌++◌, ◌∷◌, List, None};
ghost use Rattle.cypher_syntax.specs.declared.tree.query.Query.{Query as AnyQuery};
ghost use Rattle.cypher_check.specs.Marks.{Mark};
ghost use Rattle.cypher_check.specs.Asks.{Ask, Reads, after, start};
ghost use Rattle.cypher_check.specs.Clauses.{query_asks};
ghost use Rattle.cypher_check.specs.Verdict.{verdict};
ghost use Rattle.cypher_check.specs.Standing.{AreDistinct, AllStand};

/// The names in scope are distinct at every place of every query.
pub fn names_are_distinct()
    ensures { (asks : List Ask) → AreDistinct (after start asks).names }
{}

/// In a query that passes the checks, at each place each name that is used is in scope there, and no aggregate stands where
/// none may.
pub fn names_stand()
    ensures { (q : AnyQuery) (before behind : List Ask) (marks : List Mark) →
        verdict q ≡ None → query_asks q ≡ before ++ Reads marks ∷ behind →
        AllStand (after start before).names marks }
{}
