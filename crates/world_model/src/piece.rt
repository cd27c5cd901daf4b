ghost use Rattle.std.specs.Prelude.{◌≡◌, ◌++◌, IfOk};
ghost use Rattle.anchor_store.specs.Blocks.{older_deltas};
ghost use Rattle.anchor_store.specs.Groups.{AreDescending};
ghost use Rattle.world_model.specs.Placement.{piece_of};

use crate::NoMemory;
use anchor_store::{Block, build};
use graph_value::Oid;
use std::alloc::Global;
use std::marker::Model;
use std::sync::Arc;
use undo_delta::GraphUndo;
use undo_law::Tail;

/// What was copied out of an object's chain: its deltas from the cut up to the mark, with the object after the newest of
/// them, and its newest block of history where that holds fewer deltas than the interval `k`.
#[derive(Drop)]
pub struct Lifted {
    pub x: Oid,
    pub cut: u64,
    pub mark: u64,
    /// How many deltas a block holds, from 1 to 1,024.
    pub k: u64,
    pub tail: Tail<GraphUndo>,
    pub older: Option<Arc<Block<GraphUndo>>>,
}

impl Model for Lifted {
    ghost use Rattle.std.specs.Prelude.{option_map};
    ghost use Rattle.std.specs.Arc.{arc_value};
    ghost use Rattle.std.specs.Coded.{codes};
    ghost use Rattle.graph_value.specs.contracts.value.Value as property_value;
    ghost use Rattle.world_model.specs.Pieces.{LiftedParts};

    ghost Value = { LiftedParts };

    ghost coded = { Prim.hlevel (codes, property_value.the_row.coded) };

    ghost view = { λ l. record {
      x = l.x;
      cut = l.cut;
      mark = l.mark;
      interval = l.k;
      newest = l.tail.newest;
      deltas = l.tail.deltas;
      older = option_map arc_value l.older;
    } };
}

/// Blocks for an object's history, built of what was lifted out of its chain.
#[derive(Drop)]
pub struct Piece {
    pub x: Oid,
    pub cut: u64,
    pub mark: u64,
    /// The number of the lifted deltas.
    pub moved: u64,
    /// The oldest block first.
    pub blocks: Vec<Arc<Block<GraphUndo>>>,
}

impl Model for Piece {
    ghost use Rattle.std.specs.Prelude.{map};
    ghost use Rattle.std.specs.Arc.{arc_value};
    ghost use Rattle.std.specs.Coded.{codes};
    ghost use Rattle.graph_value.specs.contracts.value.Value as property_value;
    ghost use Rattle.world_model.specs.Pieces.{PieceParts};

    ghost Value = { PieceParts };

    ghost coded = { Prim.hlevel (codes, property_value.the_row.coded) };

    ghost view = { λ p. record {
      x = p.x;
      cut = p.cut;
      mark = p.mark;
      moved = p.moved;
      blocks = map arc_value p.blocks.items;
    } };
}

impl Piece {
    /// Builds the blocks of what was lifted. It needs no store, and keeps nobody waiting.
    ///
    /// The error says that memory was wanting.
    pub fn build(alloc: Global, lifted: Lifted) -> Result<Piece, NoMemory>
        requires { AreDescending (lifted.deltas ++ older_deltas lifted.older) }
        ensures { IfOk result (λ piece. piece ≡ piece_of lifted) }
    {
        let Lifted {
            x,
            cut,
            mark,
            k,
            tail,
            older,
        } = lifted;
        let moved = tail.deltas.len();
        let blocks = build(alloc, older.as_deref(), tail, k)?;
        Ok(Piece {
            x,
            cut,
            mark,
            moved,
            blocks,
        })
    }
}
