/// How many deltas the writes left: those of the commits, and all that are there, those of the open transactions too.
#[derive(Debug, Drop)]
pub(crate) struct Tally {
    pub committed: u64,
    pub all: u64,
}
