/// The most bytes that a line may have: a carriage return at its end counts, its line end doesn't.
pub const LINE_LIMIT: usize = 65_536;

/// The most bytes of an input that are read as lines.
pub const INPUT_LIMIT: u64 = 268_435_456;

/// An answer of a reader of lines.
#[derive(Clone, Copy, Debug, PartialEq, Eq)]
pub enum Line {
    /// The next line, without its line end and without one carriage return at its end.
    Whole(LineSpan),
    /// The next line is longer than a line may be. It was passed over whole.
    TooLong,
    /// The source is at its end, and each of its lines was given.
    End,
    /// The input goes on behind its limit. The lines that end within the limit were given.
    Limit,
    /// The source failed.
    Fault,
}

/// The place of a line in the reader's buffer. The line is empty where both are equal.
#[derive(Clone, Copy, Debug, PartialEq, Eq)]
pub struct LineSpan {
    pub from: u64,
    pub to: u64,
}
