//! Laws over the definitions. Each is a function that does nothing: its contract is the law, proved for every world.

ghost use Rattle.std.specs.Prelude.{◌≡◌, ◌<◌, ◌≤◌, ◌↔◌, ◌+◌, ◌++◌, true, false, ℕ, List, Option, Some, None, length, map, IsTrue};
ghost use Rattle.graph_value.specs.declared.id.Oid.{Oid};
ghost use Rattle.graph_record.specs.Graph.{Graph, IsCoherent, object_at, is_dead};
ghost use Rattle.undo_delta.specs.Change.{changed};
ghost use Rattle.graph_record.specs.Form.{IsForm};
ghost use Rattle.undo_delta.specs.Touch.{is_touched};
ghost use Rattle.undo_delta.specs.declared.ask.Ask.{Ask};
ghost use Rattle.undo_delta.specs.declared.op.Op.{Op};
ghost use Rattle.world_model.specs.declared.event.Event.{Event};
ghost use Rattle.world_model.specs.Op.{are_touching, apply, is_possible, changes, SameObjects};
ghost use Rattle.world_model.specs.World.{World, Start, Txn, InOrder, start_world, txn_of, view_of};
ghost use Rattle.world_model.specs.World.{cut_of, fold_of, graph_at, ops_of, rises, mark};
ghost use Rattle.world_model.specs.Counts.{all_left};
ghost use Rattle.undo_law.specs.Undone.{undone};
ghost use Rattle.undo_delta.specs.Apply.{after};
ghost use Rattle.world_model.specs.declared.event.Kind.{Kind};
ghost use Rattle.world_model.specs.declared.event.When.{When};
ghost use Rattle.world_model.specs.Sending.{are_beside};
ghost use Rattle.world_model.specs.Views.{IsNext, graph_of, is_above, next_id, oid_of, time_ahead};
ghost use Rattle.world_model.specs.Undo.{open_list, undo_list, undone_above};
ghost use Rattle.world_model.specs.Pieces.{PieceParts};
ghost use Rattle.world_model.specs.Placement.{below, stats_of, sum_over, IsRight};
ghost use Rattle.world_model.specs.Asked.{op_of};
ghost use Rattle.world_model.specs.Refusals.{write_refusal};
ghost use Rattle.world_model.specs.Step.{step, unchanged};
ghost use Rattle.world_model.specs.History.{Entry, IsStart, IsLegal, IsPieceOf, run, stamps_given, without_collectors};

/// Every step from a world in order leaves one in order.
pub fn steps_keep_order()
    ensures { (w : World) (caller : ℕ) (event : Event) → InOrder w →
        InOrder (step w caller event).world }
{}

/// Every world that a legal history comes to is in order.
pub fn histories_keep_order()
    ensures { (s : Start) (es : List Entry) → IsStart s → InOrder (run (start_world s) es) }
{}

/// In a world in order the graph at each instant is coherent, and so is what each open transaction sees.
pub fn graphs_are_coherent()
    ensures instants { (w : World) (t : ℕ) → InOrder w → IsCoherent (graph_at w.commits t) }
    ensures views { (w : World) (caller : ℕ) (p : Txn) → InOrder w → txn_of w caller ≡ Some p →
        IsCoherent (view_of w p) }
{}

/// The commits of a legal history stand under the timestamps that it answered, and these rise from each to the next.
pub fn commits_rise()
    ensures stamps { (s : Start) (es : List Entry) → IsStart s → IsLegal s es →
        map (λ c. c.ts) (run (start_world s) es).commits ≡ stamps_given (start_world s) es }
    ensures rise { (s : Start) (es : List Entry) → IsStart s → IsLegal s es →
        IsTrue (rises (stamps_given (start_world s) es)) }
{}

/// An object at an instant is the object after all commits with its deltas above that instant undone, the newest first.
pub fn deltas_lead_back()
    ensures { (w : World) (t : ℕ) (x : Oid) → InOrder w →
        object_at (graph_at w.commits t) x
        ≡ undone_above t (object_at (fold_of w.commits) x) (undo_list w x) }
{}

/// An object that an open transaction has written, with its deltas undone and then those above an instant, is the
/// object at that instant, and what a transaction begun then sees; what it hasn't written it sees as at its start.
pub fn open_deltas_lead_back()
    ensures instants { (w : World) (t caller : ℕ) (p : Txn) (x : Oid) → InOrder w →
        txn_of w caller ≡ Some p → are_touching p.ops x ≡ true →
        undone_above t (undone after (object_at (view_of w p) x) (open_list w p x)) (undo_list w x)
        ≡ object_at (graph_at w.commits t) x }
    ensures others { (w : World) (a b : ℕ) (p q : Txn) (x : Oid) → InOrder w → txn_of w a ≡ Some p →
        txn_of w b ≡ Some q → are_touching p.ops x ≡ true → are_touching q.ops x ≡ false →
        undone_above q.start (undone after (object_at (view_of w p) x) (open_list w p x))
        (undo_list w x) ≡ object_at (view_of w q) x }
    ensures unwritten { (w : World) (caller : ℕ) (p : Txn) (x : Oid) → InOrder w →
        txn_of w caller ≡ Some p → are_touching p.ops x ≡ false →
        undone_above p.start (object_at (fold_of w.commits) x) (undo_list w x)
        ≡ object_at (view_of w p) x }
{}

/// A search finds the least number above the other one of an object that is there, and none only where there is none.
pub fn searches_find_the_next()
    ensures found { (g : Graph) (kind : Kind) (after : Option ℕ) (n : ℕ) → IsCoherent g →
        next_id kind after g ≡ Some n → IsNext kind after g n }
    ensures none { (g : Graph) (kind : Kind) (after : Option ℕ) → next_id kind after g ≡ None →
        (n : ℕ) → is_above after n ≡ true → is_dead (object_at g (oid_of kind n)) ≡ true }
{}

/// A possible write changes the graph exactly where it changes an object: one that doesn't leaves each as it was.
pub fn effects_are_seen()
    ensures { (op : Op) (g : Graph) → ((x : Oid) → IsForm (object_at g x)) →
        is_possible op g ≡ true → (changes op g ≡ false) ↔ SameObjects g (apply op g) }
{}

/// A write makes of each object that it touches what the definition for one object says, and leaves every other one.
pub fn writes_change_their_objects()
    ensures touched { (op : Op) (g : Graph) (x : Oid) → is_touched op x ≡ true →
        object_at (apply op g) x ≡ changed op x (object_at g x) }
    ensures others { (op : Op) (g : Graph) (x : Oid) → is_touched op x ≡ false →
        object_at (apply op g) x ≡ object_at g x }
{}

/// In a world in order each object has the form of a record, at each instant and in what each open transaction sees.
pub fn objects_have_form()
    ensures instants { (w : World) (t : ℕ) (x : Oid) → InOrder w →
        IsForm (object_at (graph_at w.commits t) x) }
    ensures views { (w : World) (caller : ℕ) (p : Txn) (x : Oid) → InOrder w →
        txn_of w caller ≡ Some p → IsForm (object_at (view_of w p) x) }
{}

/// A write that isn't refused is possible in the caller's view, and `Unchanged` is answered exactly where it would
/// leave each object of the view as it is.
pub fn writes_are_answered()
    ensures possible { (w : World) (caller : ℕ) (p : Txn) (ask : Ask) → InOrder w →
        txn_of w caller ≡ Some p → write_refusal w p ask ≡ None →
        is_possible (op_of w (view_of w p) ask) (view_of w p) ≡ true }
    ensures unchanged { (w : World) (caller : ℕ) (p : Txn) (ask : Ask) → InOrder w →
        txn_of w caller ≡ Some p → write_refusal w p ask ≡ None →
        ((step w caller (Event.Write ask)).reply ≡ unchanged)
        ↔ SameObjects (view_of w p) (apply (op_of w (view_of w p) ask) (view_of w p)) }
{}

/// The mark, below which no transaction will ever begin, never falls: no step lowers it, and so no history does.
pub fn marks_never_fall()
    ensures steps { (w : World) (caller : ℕ) (event : Event) → InOrder w →
        mark w ≤ mark (step w caller event).world }
    ensures histories { (s : Start) (es later : List Entry) → IsStart s →
        mark (run (start_world s) es) ≤ mark (run (start_world s) (es ++ later)) }
{}

/// What happens later changes neither the graph at an instant below the clock, nor the deltas of an object below the
/// mark. So an instant that has been read reads the same for ever, and what is taken out of a chain below the mark is
/// right whenever it is put elsewhere.
pub fn the_past_stays()
    ensures instants { (s : Start) (es later : List Entry) (t : ℕ) →
        t < (run (start_world s) es).clock →
        graph_at (run (start_world s) (es ++ later)).commits t
        ≡ graph_at (run (start_world s) es).commits t }
    ensures deltas { (s : Start) (es later : List Entry) (x : Oid) → IsStart s →
        below (mark (run (start_world s) es)) (undo_list (run (start_world s) (es ++ later)) x)
        ≡ below (mark (run (start_world s) es)) (undo_list (run (start_world s) es) x) }
{}

/// What a transaction sees, and the graph at each instant that it may ask for, stay while others act and its caller only
/// reads.
pub fn views_stay()
    ensures { (s : Start) (es later : List Entry) (caller : ℕ) (p : Txn) (when : When) → IsStart s →
        txn_of (run (start_world s) es) caller ≡ Some p → time_ahead p when ≡ None →
        are_beside false caller later ≡ true →
        graph_of (run (start_world s) (es ++ later)) p when
        ≡ graph_of (run (start_world s) es) p when }
{}

/// Lifts, installs and counts leave no trace: a history that the store may have is one without them too, so no other
/// event is answered otherwise for a collector that is at work.
pub fn collectors_are_invisible()
    ensures { (s : Start) (es : List Entry) → IsLegal s es → IsLegal s (without_collectors es) }
{}

/// Each piece that was built of what a lift told is right for the world that the history has come to, whatever happened
/// since. And no object has a cut above the mark.
pub fn pieces_are_right()
    ensures pieces { (s : Start) (es : List Entry) (piece : PieceParts) → IsStart s → IsLegal s es →
        IsPieceOf es piece → IsRight (run (start_world s) es) piece }
    ensures cuts { (s : Start) (es : List Entry) → IsStart s → IsLegal s es →
        (x : Oid) → cut_of (run (start_world s) es) x ≤ mark (run (start_world s) es) }
{}

/// All objects together have as many deltas as the writes of the commits left: one for each, and three for one that
/// makes or deletes an edge. Each of them lies in the chain of its object or in its history.
pub fn deltas_are_counted()
    ensures all { (w : World) → InOrder w →
        sum_over w (λ x. length (undo_list w x)) ≡ all_left (ops_of w.commits) }
    ensures parts { (w : World) → InOrder w →
        (stats_of w).chain + (stats_of w).history ≡ all_left (ops_of w.commits) }
{}
