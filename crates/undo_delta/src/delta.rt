ghost use Rattle.std.specs.Prelude.{◌≡◌, IfOk};
ghost use Rattle.undo_delta.specs.Change.{no_delta, one_delta};

use crate::{Former, NoMemory, Setting};
use graph_value::{EdgeId, Name};
use std::alloc::Global;

/// What undoes one change of one object.
#[derive(Debug, Drop)]
pub enum Delta {
    /// The object was created.
    DeleteObject,
    /// The object was deleted, and was this one.
    RecreateObject(Former),
    AddLabel(Name),
    RemoveLabel(Name),
    /// The property had this value, or null where there was no such property.
    SetProperty(Setting),
    AddInEdge(EdgeId),
    AddOutEdge(EdgeId),
    RemoveInEdge(EdgeId),
    RemoveOutEdge(EdgeId),
}

impl Delta {
    /// The same delta. What a deleted object was is shared, all else is in memory of its own.
    pub fn copy(&self, alloc: Global) -> Result<Delta, NoMemory>
        ensures { IfOk result (λ d. d ≡ self.now) }
    {
        match self {
            Delta::DeleteObject => Ok(Delta::DeleteObject),
            Delta::RecreateObject(former) => Ok(Delta::RecreateObject(former.copy(alloc)?)),
            Delta::AddLabel(name) => Ok(Delta::AddLabel(name.copy()?)),
            Delta::RemoveLabel(name) => Ok(Delta::RemoveLabel(name.copy()?)),
            Delta::SetProperty(setting) => Ok(Delta::SetProperty(setting.copy(alloc)?)),
            Delta::AddInEdge(id) => Ok(Delta::AddInEdge(*id)),
            Delta::AddOutEdge(id) => Ok(Delta::AddOutEdge(*id)),
            Delta::RemoveInEdge(id) => Ok(Delta::RemoveInEdge(*id)),
            Delta::RemoveOutEdge(id) => Ok(Delta::RemoveOutEdge(*id)),
        }
    }
}

/// What undoes all that a write did to one object: no delta, one, or two.
#[derive(Debug, Drop)]
pub struct DeltaPair {
    /// The older delta, undone last. `None` exactly where the write changed nothing.
    pub first: Option<Delta>,
    /// The newer delta, undone first. Only an edge from a vertex to itself leaves two.
    pub second: Option<Delta>,
}

impl DeltaPair {
    pub(crate) fn none() -> DeltaPair
        ensures { result ≡ no_delta }
    {
        DeltaPair {
            first: None,
            second: None,
        }
    }

    pub(crate) fn one(delta: Delta) -> DeltaPair
        ensures { result ≡ one_delta delta }
    {
        DeltaPair {
            first: Some(delta),
            second: None,
        }
    }
}
