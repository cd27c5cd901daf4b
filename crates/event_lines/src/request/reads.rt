ghost use Rattle.std.specs.Prelude.{◌≡◌, map};
ghost use Rattle.event_lines.specs.Request.{kind_of, lift_event, next_after, next_event, next_of, read_event, when_of};

use crate::request::number::number_below;
use crate::request::object::oid;
use world_model::{Event, Kind, When};

/// The read of an object: the words behind `read`.
#[tactic(auto, unfolding(crate::specs::Request::read_event))]
pub fn read_event(words: &[&[u8]]) -> Option<Event>
    ensures { result ≡ read_event (map (λ w. w.now) words.now) }
{
    let (object, words) = words.split_first()?;
    let x = oid(object)?;
    let when = when(words)?;
    Some(Event::Read { x, when })
}

/// The lift of an object: the word behind `lift`.
#[tactic(auto, unfolding(crate::specs::Request::lift_event))]
pub fn lift_event(words: &[&[u8]]) -> Option<Event>
    ensures { result ≡ lift_event (map (λ w. w.now) words.now) }
{
    let [object] = words else {
        return None;
    };
    let x = oid(object)?;
    Some(Event::Lift(x))
}

/// The search for the next object: the words behind `next`.
#[tactic(auto, unfolding(crate::specs::Request::next_event))]
pub fn next_event(words: &[&[u8]]) -> Option<Event>
    ensures { result ≡ next_event (map (λ w. w.now) words.now) }
{
    let (word, words) = words.split_first()?;
    let kind = kind(word)?;
    next_of(kind, words)
}

#[tactic(auto, unfolding(crate::specs::Request::kind_of))]
fn kind(word: &[u8]) -> Option<Kind>
    ensures { result ≡ kind_of word.now }
{
    if word == b"vertex".as_slice() {
        Some(Kind::Vertex)
    } else if word == b"edge".as_slice() {
        Some(Kind::Edge)
    } else {
        None
    }
}

/// The search among the objects of one kind.
#[tactic(auto, unfolding(crate::specs::Request::next_of))]
fn next_of(kind: Kind, words: &[&[u8]]) -> Option<Event>
    ensures { result ≡ next_of kind (map (λ w. w.now) words.now) }
{
    let (word, words) = words.split_first()?;
    if *word == b"first".as_slice() {
        let when = when(words)?;
        Some(Event::Next {
            kind,
            after: None,
            when,
        })
    } else if *word == b"after".as_slice() {
        next_after(kind, words)
    } else {
        None
    }
}

/// The search for the first object above a number.
#[tactic(auto, unfolding(crate::specs::Request::next_after))]
fn next_after(kind: Kind, words: &[&[u8]]) -> Option<Event>
    ensures { result ≡ next_after kind (map (λ w. w.now) words.now) }
{
    let (number, words) = words.split_first()?;
    let n = number_below(number, 1 << 63)?;
    let when = when(words)?;
    Some(Event::Next {
        kind,
        after: Some(n),
        when,
    })
}

/// Which graph is read: `own`, or `at` and an instant.
#[tactic(auto, unfolding(crate::specs::Request::when_of))]
fn when(words: &[&[u8]]) -> Option<When>
    ensures { result ≡ when_of (map (λ w. w.now) words.now) }
{
    match words {
        [word] if *word == b"own".as_slice() => Some(When::Own),
        [word, instant] if *word == b"at".as_slice() => {
            let t = number_below(instant, 1 << 63)?;
            Some(When::At(t))
        }
        _ => None,
    }
}
