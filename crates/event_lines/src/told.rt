ghost use Rattle.std.specs.Prelude.{◌≡◌};
ghost use Rattle.anchor_store.specs.Found.{found_object};
ghost use Rattle.event_lines.specs.Told.{VersionIsTold, wanting};
ghost use Rattle.undo_delta.specs.Apply.{after};

use anchor_store::{Found, finished};
use graph_record::Object;
use graph_value::Oid;
use std::alloc::Global;
use undo_delta::GraphUndo;
use world_model::{Answer, Refused};

/// What a caller is told.
#[derive(Drop)]
pub enum Told {
    /// The store's answer, which is no version.
    Answer(Answer),
    /// The object that was read.
    Version(Object),
    /// A piece was lifted, and is kept.
    Lifted {
        x: Oid,
        cut: u64,
        mark: u64,
        deltas: u64,
    },
    /// The piece was installed; the object's cut is now its mark.
    Installed {
        x: Oid,
        mark: u64,
    },
    /// The caller keeps no piece of the object.
    NoPiece,
}

impl Told {
    /// That memory was wanting.
    pub fn wanting() -> Told
        ensures { result ≡ wanting }
    {
        Told::Answer(Answer::Refused(Refused::NoMemory))
    }

    /// The object that was found, once it is finished.
    pub fn version(alloc: Global, found: Found<GraphUndo>) -> Told
        ensures { VersionIsTold (found_object after found) result }
    {
        match finished(alloc, found) {
            Ok(object) => Told::Version(object),
            Err(_) => Told::wanting(),
        }
    }
}
