ghost use Rattle.std.specs.Prelude.{◌≡◌, IfOk};
ghost use Rattle.std.specs.List.{list_all};
ghost use Rattle.event_lines.specs.Words.{continues_name, is_name, name_of, oid_of, vertex_of};

use crate::NoMemory;
use crate::request::number::number_below;
use graph_value::{EdgeId, Name, Oid, VertexId};
use std::alloc::Global;

/// The object that a word names: `v` or `e`, and a number below 2^63.
#[tactic(auto, unfolding(crate::specs::Words::oid_of))]
pub fn oid(word: &[u8]) -> Option<Oid>
    ensures { result ≡ oid_of word.now }
{
    let (kind, digits) = word.split_first()?;
    let n = number_below(digits, 1 << 63)?;
    match *kind {
        b'v' => Some(Oid::Vertex(VertexId(n))),
        b'e' => Some(Oid::Edge(EdgeId(n))),
        _ => None,
    }
}

/// The vertex that a word names. An edge is none.
#[tactic(auto, unfolding(crate::specs::Words::vertex_of))]
pub fn vertex(word: &[u8]) -> Option<VertexId>
    ensures { result ≡ vertex_of word.now }
{
    match oid(word)? {
        Oid::Vertex(id) => Some(id),
        Oid::Edge(_) => None,
    }
}

/// Whether a word has only what may stand in a name behind its first character.
fn continues_name(word: &[u8]) -> bool
    ensures { result ≡ list_all continues_name word.now }
{
    word.iter().all(|c| c.is_ascii_alphanumeric() || *c == b'_')
}

/// Whether a word is a letter or `_`, and then letters, digits and `_`.
fn is_name(word: &[u8]) -> bool
    ensures { result ≡ is_name word.now }
{
    match word {
        [] => false,
        [first, rest @ ..] => {
            (first.is_ascii_alphabetic() || *first == b'_') && continues_name(rest)
        }
    }
}

/// The name of a property, a label or a kind of edge that a word is, or `None` where it is none.
#[tactic(auto, unfolding(crate::specs::Words::name_of))]
pub fn name(alloc: Global, word: &[u8]) -> Result<Option<Name>, NoMemory>
    ensures { IfOk result (λ n. n ≡ name_of word.now) }
{
    if !is_name(word) {
        return Ok(None);
    }
    match str::from_utf8(word) {
        Ok(text) => Ok(Some(Name::from_str(alloc, text)?)),
        Err(_) => Ok(None),
    }
}
