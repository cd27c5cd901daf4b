ghost use Rattle.std.specs.Prelude.{◌≡◌, ◌++◌, IfSome, OnErr, OnOk, None, Some};
ghost use Rattle.anchor_store.specs.Blocks.{older_deltas};
ghost use Rattle.anchor_store.specs.Groups.{AreDescending};
ghost use Rattle.world_model.specs.Placement.{piece_of};
ghost use Rattle.graph_shell.specs.Kept.{HasPlace, pieces_of};
ghost use Rattle.graph_shell.specs.Pieces.{LiftIsTold, keeping, no_pieces};

use crate::NoMemory;
use event_lines::Told;
use graph_value::Oid;
use std::alloc::{AllocError, Global};
use std::collections::BTreeMap;
use world_model::{Lifted, Piece};

/// The pieces that callers keep: of each object that one has lifted, the last. A piece that was sent leaves its place
/// empty, so that it can be put back there without memory.
#[derive(Drop)]
pub(crate) struct Kept {
    pub places: BTreeMap<(u64, Oid), Option<Piece>>,
}

impl Kept {
    /// No piece. Takes no memory.
    pub fn new(alloc: Global) -> Kept
        ensures { pieces_of result ≡ no_pieces }
    {
        Kept {
            places: BTreeMap::new(alloc),
        }
    }

    /// Keeps a piece of an object, in place of the last one. Without memory all stays as it was.
    pub fn keep(&mut self, caller: u64, x: Oid, piece: Piece) -> Result<(), NoMemory>
        ensures ok { OnOk result (pieces_of self.new
            ≡ keeping caller x (Some piece) (pieces_of self.old)) }
        ensures err { OnErr result (pieces_of self.new ≡ pieces_of self.old) }
    {
        match self.places.insert((caller, x), Some(piece)) {
            Ok(_) => Ok(()),
            Err(_) => Err(AllocError),
        }
    }

    /// Builds a piece of what was lifted, and keeps it. Without memory all stays as it was.
    fn build(&mut self, alloc: Global, caller: u64, lifted: Lifted) -> Result<(), NoMemory>
        requires order { AreDescending (lifted.deltas ++ older_deltas lifted.older) }
        ensures ok { OnOk result (pieces_of self.new
            ≡ keeping caller lifted.x (Some (piece_of lifted)) (pieces_of self.old)) }
        ensures err { OnErr result (pieces_of self.new ≡ pieces_of self.old) }
    {
        let x = lifted.x;
        let piece = Piece::build(alloc, lifted)?;
        self.keep(caller, x, piece)
    }

    /// Keeps what was lifted as a piece, and tells how much it is.
    pub fn keep_lifted(&mut self, alloc: Global, caller: u64, lifted: Lifted) -> Told
        requires order { AreDescending (lifted.deltas ++ older_deltas lifted.older) }
        ensures { LiftIsTold caller lifted (pieces_of self.old) (pieces_of self.new) result }
    {
        let x = lifted.x;
        let cut = lifted.cut;
        let mark = lifted.mark;
        let deltas = lifted.tail.deltas.len();
        match self.build(alloc, caller, lifted) {
            Ok(()) => Told::Lifted {
                x,
                cut,
                mark,
                deltas,
            },
            Err(_) => Told::wanting(),
        }
    }

    /// The piece that the caller keeps of an object, which it then keeps no longer.
    pub fn take(&mut self, caller: u64, x: Oid) -> Option<Piece>
        ensures piece { result ≡ pieces_of self.old caller x }
        ensures kept { pieces_of self.new ≡ keeping caller x None (pieces_of self.old) }
        ensures place { IfSome result (λ _. HasPlace self.new caller x) }
    {
        self.places.get_mut(&(caller, x))?.take()
    }

    /// Keeps a piece in its empty place. Takes no memory.
    pub fn put_back(&mut self, caller: u64, x: Oid, piece: Piece)
        requires place { HasPlace self.old caller x }
        ensures kept { pieces_of self.new ≡ keeping caller x (Some piece) (pieces_of self.old) }
    {
        if let Some(place) = self.places.get_mut(&(caller, x)) {
            *place = Some(piece);
        }
    }
}
