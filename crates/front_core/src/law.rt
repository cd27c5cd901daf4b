//! Laws on the histories that a store stands for. The function does nothing: its contract is the law.
ghost use Rattle.std.specs.Prelude.{List, IsTrue};
ghost use Rattle.world_model.specs.World.{Start, start_world, rises};
ghost use Rattle.world_model.specs.History.{Entry, IsLegal, stamps_given};
ghost use Rattle.front_core.specs.Keeps.{StandsFor};
ghost use Rattle.front_core.specs.declared.state.State.{State};

/// Each history that a store stands for is one that it may have, and the timestamps that were given in it rise.
pub fn histories_are_legal()
    ensures legal { (s : Start) (store : State) (es : List Entry) → StandsFor s store es →
        IsLegal s es }
    ensures rise { (s : Start) (store : State) (es : List Entry) → StandsFor s store es →
        IsTrue (rises (stamps_given (start_world s) es)) }
{}
