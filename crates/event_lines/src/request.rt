ghost use Rattle.std.specs.Prelude.{◌≡◌, ◌==◌, IfOk, map};
ghost use Rattle.std.specs.List.{list_all};
ghost use Rattle.event_lines.specs.Request.{event_of, event_wish, install_wish, is_blank, is_skipped, plain_event, request_of, wish_of, words_event, worded_event};
ghost use Rattle.event_lines.specs.Told.{wished};
ghost use Rattle.event_lines.specs.Words.{words_of};

mod integer;
mod number;
mod object;
mod reads;
mod values;
mod words;
mod writes;

use crate::NoMemory;
use graph_value::Oid;
use number::number_below;
use object::oid;
use reads::{lift_event, next_event, read_event};
use std::alloc::Global;
use undo_delta::Ask;
use words::{cut, is_space};
use world_model::{Asked, Event};
use writes::{delete_event, edge_event, label_event, set_event, unlabel_event};

/// What a caller wishes.
#[derive(Drop)]
pub enum Wish {
    /// That the store take an event.
    Event(Event),
    /// That the piece be installed which the caller keeps of an object.
    Install(Oid),
}

impl Wish {
    /// What the caller asks to be told.
    pub fn asked(&self) -> Asked
        ensures { result ≡ wished self.now }
    {
        match self {
            Wish::Event(event) => event.asked(),
            Wish::Install(_) => Asked::Nothing,
        }
    }
}

/// What one line asks for.
#[derive(Drop)]
pub struct Request {
    /// Who asks, below 2^32.
    pub caller: u64,
    pub wish: Wish,
}

/// Whether a line has nothing but spaces and tabs.
fn is_blank(line: &[u8]) -> bool
    ensures { result ≡ list_all is_blank line.now }
{
    line.iter().all(|b| *b == b' ' || *b == b'\t')
}

/// Whether a line is one to pass over: it is empty, has only spaces and tabs, or begins with `#`.
pub fn is_skipped(line: &[u8]) -> bool
    ensures { result ≡ is_skipped line.now }
{
    match line {
        [b'#', ..] => true,
        _ => is_blank(line),
    }
}

/// The request that a line is, or `None` where it is none. The line comes without its end. Its words take no memory.
///
/// The error says that memory was wanting for a name or a value.
#[tactic(auto, unfolding(crate::specs::Request::request_of))]
pub fn read_request(alloc: Global, line: &[u8]) -> Result<Option<Request>, NoMemory>
    ensures { IfOk result (λ r. r ≡ request_of line.now) }
{
    let Some((word, text)) = cut(line) else {
        return Ok(None);
    };
    let Some(caller) = number_below(word, 1 << 32) else {
        return Ok(None);
    };
    let Some(wish) = any_wish(alloc, text)? else {
        return Ok(None);
    };
    Ok(Some(Request { caller, wish }))
}

/// What the text behind the caller asks for.
fn any_wish(alloc: Global, text: &[u8]) -> Result<Option<Wish>, NoMemory>
    ensures { IfOk result (λ w. w ≡ wish_of text.now) }
{
    match cut(text) {
        Some((verb, rest)) if verb == b"install".as_slice() => Ok(install_wish(rest)),
        _ => event_wish(alloc, text),
    }
}

/// The installation that a text behind `install` asks for.
fn install_wish(text: &[u8]) -> Option<Wish>
    ensures { result ≡ install_wish text.now }
{
    let x = oid(text)?;
    Some(Wish::Install(x))
}

fn event_wish(alloc: Global, text: &[u8]) -> Result<Option<Wish>, NoMemory>
    ensures { IfOk result (λ w. w ≡ event_wish text.now) }
{
    let Some(event) = event(alloc, text)? else {
        return Ok(None);
    };
    Ok(Some(Wish::Event(event)))
}

/// The event that a text asks for.
fn event(alloc: Global, text: &[u8]) -> Result<Option<Event>, NoMemory>
    ensures { IfOk result (λ e. e ≡ event_of text.now) }
{
    match cut(text) {
        Some((verb, rest)) if verb == b"set".as_slice() => set_event(alloc, rest),
        _ => split_event(alloc, text),
    }
}

/// The most words that stand behind a caller, where no value is set.
const MOST_WORDS: usize = 6;

/// What a text asks for that sets no value.
fn split_event(alloc: Global, text: &[u8]) -> Result<Option<Event>, NoMemory>
    ensures { IfOk result (λ e. e ≡ words_event (words_of text.now)) }
{
    let mut words: [&[u8]; MOST_WORDS] = [&[]; MOST_WORDS];
    let mut count = 0;
    for word in text.split(is_space) {
        if count == MOST_WORDS {
            return Ok(None);
        }
        words[count] = word;
        count += 1;
    }
    words_event(alloc, &words[..count])
}

/// What these words ask for.
#[tactic(auto, unfolding(crate::specs::Request::words_event))]
fn words_event(alloc: Global, words: &[&[u8]]) -> Result<Option<Event>, NoMemory>
    ensures { IfOk result (λ e. e ≡ words_event (map (λ w. w.now) words.now)) }
{
    match words {
        [] => Ok(None),
        [verb] => Ok(plain_event(verb)),
        [verb, words @ ..] => worded_event(alloc, verb, words),
    }
}

/// An event that is said by its verb alone.
#[tactic(auto, unfolding(crate::specs::Request::plain_event))]
fn plain_event(verb: &[u8]) -> Option<Event>
    ensures { result ≡ plain_event verb.now }
{
    if verb == b"begin".as_slice() {
        Some(Event::Begin)
    } else if verb == b"vertex".as_slice() {
        Some(Event::Write(Ask::CreateVertex))
    } else if verb == b"commit".as_slice() {
        Some(Event::Commit)
    } else if verb == b"abort".as_slice() {
        Some(Event::Abort)
    } else if verb == b"mark".as_slice() {
        Some(Event::Mark)
    } else if verb == b"stats".as_slice() {
        Some(Event::Stats)
    } else {
        None
    }
}

/// An event that is said by its verb and the words behind it.
#[tactic(auto, unfolding(crate::specs::Request::worded_event))]
fn worded_event(alloc: Global, verb: &[u8], words: &[&[u8]]) -> Result<Option<Event>, NoMemory>
    ensures { IfOk result (λ e. e ≡ worded_event verb.now (map (λ w. w.now) words.now)) }
{
    if verb == b"read".as_slice() {
        Ok(read_event(words))
    } else if verb == b"next".as_slice() {
        Ok(next_event(words))
    } else if verb == b"delete".as_slice() {
        Ok(delete_event(words))
    } else if verb == b"label".as_slice() {
        label_event(alloc, words)
    } else if verb == b"unlabel".as_slice() {
        unlabel_event(alloc, words)
    } else if verb == b"edge".as_slice() {
        edge_event(alloc, words)
    } else if verb == b"lift".as_slice() {
        Ok(lift_event(words))
    } else {
        Ok(None)
    }
}
