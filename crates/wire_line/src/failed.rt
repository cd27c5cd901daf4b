/// A read or a write failed. The count of faults of the source or the sink rose in that call.
#[derive(Clone, Copy, Debug, PartialEq, Eq)]
pub struct Failed;
