//! The texts of replies.
ghost use Rattle.std.specs.Prelude.{◌≡◌, ◌++◌, ◌+◌, ◌≤◌, IfOk, codes, length, string_bytes, string_len, string_capacity};
ghost use Rattle.std.specs.Fmt.{decimal};
ghost use Rattle.query_reply.specs.Rows.{row_lines};
ghost use Rattle.session_core.specs.Texts as spec;

use crate::NoMemory;
use collector::Swept;
use itoa::Buffer;
use query_reply::{ShownRow, push_lines};
use std::alloc::Global;
use std::fmt::Write;
use world_model::{Marked, Refused, Stats};

/// A text of its own.
pub fn text_of(alloc: Global, text: &str) -> Result<String, NoMemory>
    ensures { IfOk result (λ t. string_bytes t ≡ text.now) }
{
    let mut made = String::new(alloc);
    made.push_str(text)?;
    Ok(made)
}

/// The bytes that a number takes at most.
const NUMBER: usize = 20;

/// The text, with room for a number behind it.
pub fn with_room(text: String) -> Result<String, NoMemory>
    ensures text { IfOk result (λ t. string_bytes t ≡ string_bytes text) }
    ensures room { IfOk result (λ t. string_len t + 20 ≤ string_capacity t) }
{
    let mut text = text;
    text.reserve(NUMBER)?;
    Ok(text)
}

/// The text, and the number behind it. Takes no memory.
pub fn with_number(text: String, number: u64) -> String
    requires room { string_len text + 20 ≤ string_capacity text }
    ensures { string_bytes result ≡ string_bytes text ++ decimal number }
{
    let mut text = text;
    let mut digits = Buffer::new();
    match text.push_str(digits.format(number)) {
        Ok(()) => text,
        Err(_) => unreachable!(),
    }
}

/// The text of BEGIN in front of the transaction's start, which has room behind it.
pub fn begun_room(alloc: Global) -> Result<String, NoMemory>
    ensures text { IfOk result (λ t. string_bytes t ≡ codes "OK begin at ") }
    ensures room { IfOk result (λ t. string_len t + 20 ≤ string_capacity t) }
{
    with_room(text_of(alloc, "OK begin at ")?)
}

/// The text of COMMIT in front of the timestamp, which has room behind it.
pub fn committed_room(alloc: Global) -> Result<String, NoMemory>
    ensures text { IfOk result (λ t. string_bytes t ≡ codes "OK commit at ") }
    ensures room { IfOk result (λ t. string_len t + 20 ≤ string_capacity t) }
{
    with_room(text_of(alloc, "OK commit at ")?)
}

/// A line for each row, and how many there are, in front of the number that says when; that has room behind it.
pub fn rows_room(alloc: Global, rows: &[ShownRow]) -> Result<String, NoMemory>
    ensures text { IfOk result (λ t. string_bytes t
        ≡ row_lines rows.now ++ (codes "OK " ++ decimal (length rows.now) ++ codes " at ")) }
    ensures room { IfOk result (λ t. string_len t + 20 ≤ string_capacity t) }
{
    let mut text = String::new(alloc);
    push_lines(alloc, &mut text, rows)?;
    let count = rows.len();
    write!(text, "OK {count} at ")?;
    with_room(text)
}

pub fn marked_text(alloc: Global, marked: Marked) -> Result<String, NoMemory>
    ensures { IfOk result (λ t. string_bytes t ≡ spec.marked_text marked) }
{
    let Marked { mark, clock, .. } = marked;
    let mut text = String::new(alloc);
    write!(text, "OK now {clock} mark {mark}")?;
    Ok(text)
}

pub fn stats_text(alloc: Global, stats: Stats) -> Result<String, NoMemory>
    ensures { IfOk result (λ t. string_bytes t ≡ spec.stats_text stats) }
{
    let Stats {
        chain,
        history,
        blocks,
    } = stats;
    let mut text = String::new(alloc);
    write!(text, "OK chain {chain} history {history} blocks {blocks}")?;
    Ok(text)
}

pub fn swept_text(alloc: Global, swept: Swept) -> Result<String, NoMemory>
    ensures { IfOk result (λ t. string_bytes t ≡ spec.swept_text swept) }
{
    let Swept { mark, moved, stale } = swept;
    let mut text = String::new(alloc);
    write!(text, "OK swept mark {mark} moved {moved} stale {stale}")?;
    Ok(text)
}

/// Why a span is refused whose first instant is the greater one.
pub fn range_text(alloc: Global, first: u64, last: u64) -> Result<String, NoMemory>
    ensures { IfOk result (λ t. string_bytes t ≡ spec.range_text first last) }
{
    let mut text = String::new(alloc);
    write!(text, "ERR 11 bad range {first} {last}")?;
    Ok(text)
}

/// Why no transaction begins.
pub fn not_begun_text(why: Refused) -> &'static str
    ensures { result.now ≡ spec.not_begun_text why }
{
    match why {
        Refused::AlreadyOpen => "ERR 13 already open",
        Refused::ClockEnd => "ERR 15 clock end",
        Refused::TooMany => "ERR 18 too many transactions",
        Refused::NoTxn
        | Refused::Missing(_)
        | Refused::Conflict(_, _)
        | Refused::HasEdges(_)
        | Refused::TimeAhead { .. }
        | Refused::Stale { .. }
        | Refused::IdEnd
        | Refused::NoMemory => "ERR 16 no memory",
    }
}
