ghost use Rattle.std.specs.Prelude.{◌≡◌};
ghost use Rattle.line_run.specs.Runs.{status_of};

/// Why a run ended.
#[derive(Clone, Copy, Debug, PartialEq, Eq)]
pub enum Ending {
    /// The input was read to its end.
    Done,
    /// A line ended the run.
    Quit,
    /// The source failed.
    SourceFault,
    /// The sink failed.
    SinkFault,
    /// The program's own memory was wanting.
    NoMemory,
    /// The input goes on behind its limit.
    Limit,
}

impl Ending {
    /// The status with which a program ends whose run has ended so.
    pub fn status(self) -> u8
        ensures { result ≡ status_of self }
    {
        match self {
            Ending::Done | Ending::Quit => 0,
            Ending::SourceFault => 3,
            Ending::SinkFault => 4,
            Ending::NoMemory => 5,
            Ending::Limit => 7,
        }
    }
}
