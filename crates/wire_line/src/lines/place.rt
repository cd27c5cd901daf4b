ghost use Rattle.std.specs.Prelude.{◌≡◌, ◌==◌, ◌+◌, ◌<◌, ◌≤◌, length, take, drop, slice_range, true, false, IfOk, position};
ghost use Rattle.std.specs.Io.KnownBytes.{ReadConsumes};
ghost use Rattle.wire_line.specs.Failures.{FailsByRise};
ghost use Rattle.wire_line.specs.Telling.{ReadAdds};
ghost use Rattle.wire_line.specs.Lines.{first_line, without_return};

use crate::{Failed, INPUT_LIMIT, LINE_LIMIT, LineSpan, Source};

const LINE_END: u8 = 10;

const CARRIAGE_RETURN: u8 = 13;

/// The place of the first line end.
fn end_place(bytes: &[u8]) -> Option<usize>
    ensures { result ≡ position (λ b. b == 10) bytes.now }
{
    bytes.iter().position(|b| *b == LINE_END)
}

/// The length of the first line: the place of the first line end, or the length of all where there is none.
pub fn first_len(bytes: &[u8]) -> usize
    ensures { result ≡ length (first_line bytes.now) }
{
    match end_place(bytes) {
        Some(at) => at,
        None => bytes.len(),
    }
}

/// Whether a line of this length is too long, or its front was dropped for that.
pub fn is_too_long(passing: bool, len: usize) -> bool
    ensures long { result ≡ true → passing ≡ false → LINE_LIMIT < len }
    ensures short { result ≡ false → (passing ≡ false) × (len ≤ LINE_LIMIT) }
{
    passing || len > LINE_LIMIT
}

/// How many bytes to ask for: what there is room for, but none behind the limit of the input before all within it
/// were taken, and then one.
pub fn asked(room: usize, taken: u64) -> usize
    requires room { 1 ≤ room }
    requires taken { taken ≤ INPUT_LIMIT }
    ensures some { 1 ≤ result }
    ensures room { result ≤ room }
    ensures within { taken < INPUT_LIMIT → taken + result ≤ INPUT_LIMIT }
    ensures behind { taken ≡ INPUT_LIMIT → result ≡ 1 }
{
    let within = (INPUT_LIMIT - taken) as usize;
    if within == 0 { 1 } else { room.min(within) }
}

/// Reads at most `most` bytes to this place of the buffer. What stands before it stays.
pub fn read_at<I: Source>(
    bytes: &mut Vec<u8>,
    at: usize,
    most: usize,
    input: &mut I,
) -> Result<usize, Failed>
    requires some { 1 ≤ most }
    requires room { at + most ≤ length bytes.old.items }
    ensures size { length bytes.new.items ≡ length bytes.old.items }
    ensures before { take at bytes.new.items ≡ take at bytes.old.items }
    ensures bound { IfOk result (λ n. n ≤ most) }
    ensures left { ReadConsumes (I.left input.old) (I.left input.new) result (drop at bytes.new.items) }
    ensures came { ReadAdds (I.came input.old) (I.came input.new) result (drop at bytes.new.items) }
    ensures cause { FailsByRise (I.faults input.old) (I.faults input.new) result }
{
    input.read(&mut bytes[at..at + most])
}

/// The span from `from` to `to`, without one carriage return at its end.
pub fn without_return(bytes: &[u8], from: usize, to: usize) -> LineSpan
    requires ordered { from ≤ to }
    requires inside { to ≤ length bytes.now }
    ensures ordered { result.from ≤ result.to }
    ensures within { result.to ≤ to }
    ensures from { result.from ≡ from }
    ensures text { slice_range bytes.now result.from result.to
        ≡ without_return (slice_range bytes.now from to) }
{
    let end = if from < to && bytes[to - 1] == CARRIAGE_RETURN {
        to - 1
    } else {
        to
    };
    LineSpan {
        from: from as u64,
        to: end as u64,
    }
}
