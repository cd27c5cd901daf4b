ghost use Rattle.std.specs.Prelude.{◌≡◌, ◌<◌, ◌-◌, ◌^◌, length, drop, Some, IfOk};
ghost use Rattle.cypher_syntax.specs.Lexing.{front_of, unquoted_front, number_front, quote_front, name_front, text_front, slash_front, made, sign_front, closed_front};

use super::bytes::{
    begins_word, blank_len, closed_len, is_blank, is_quote, line_len, sign_len, word_len,
};
use super::numerals::integer;
use super::quotes::inside;
use crate::What;
use graph_value::{Name, NoMemory, Text};
use std::alloc::Global;

/// What stands at the front of a text.
#[derive(Drop)]
pub enum Front {
    /// So many bytes of white space, or of a comment.
    Gap(usize),
    /// A token of so many bytes.
    Made(What, usize),
    /// Neither of them.
    Fault,
}

fn number(rest: &[u8]) -> Front
    ensures { result ≡ number_front rest.now }
{
    let len = word_len(rest);
    match integer(&rest[..len]) {
        Some(what) => Front::Made(what, len),
        None => Front::Fault,
    }
}

/// A name, where it isn't empty.
fn named(alloc: Global, text: &Text, len: usize) -> Result<Front, NoMemory>
    requires { len < 2 ^ 64 - 1 }
    ensures { IfOk result (λ f. f ≡ name_front (Some (text.now, len))) }
{
    if text.as_str().is_empty() {
        return Ok(Front::Fault);
    }
    let name = Name::from_str(alloc, text.as_str())?;
    Ok(Front::Made(What::Quoted(name), len + 1))
}

/// A name or a string, by what stands behind its first quote.
fn quoted(alloc: Global, quote: u8, behind: &str) -> Result<Front, NoMemory>
    requires quote { quote < 128 }
    requires room { length behind.now < 2 ^ 64 - 1 }
    ensures { IfOk result (λ f. f ≡ quote_front quote behind.now) }
{
    let Some((text, len)) = inside(alloc, quote, behind)? else {
        return Ok(Front::Fault);
    };
    if quote == b'`' {
        named(alloc, &text, len)
    } else {
        Ok(Front::Made(What::Text(text), len + 1))
    }
}

/// A comment or a sign.
fn slash(rest: &[u8]) -> Front
    requires { 0 < length rest.now }
    ensures { result ≡ slash_front rest.now }
{
    match rest {
        [b'/', b'/', ..] => Front::Gap(line_len(rest)),
        [b'/', b'*', inner @ ..] => match closed_len(inner) {
            Some(len) => Front::Gap(len + 2),
            None => Front::Fault,
        },
        _ => sign(sign_len(rest)),
    }
}

fn sign(len: usize) -> Front
    ensures { result ≡ sign_front len }
{
    if len == 0 {
        Front::Fault
    } else {
        Front::Made(What::Sign, len)
    }
}

/// What stands at the front, where no quote does.
#[tactic(auto, unfolding(crate::specs::Lexing::unquoted_front))]
fn unquoted(rest: &[u8]) -> Front
    ensures { result ≡ unquoted_front rest.now }
{
    match rest {
        [] => Front::Fault,
        [first, ..] if is_blank(*first) => Front::Gap(blank_len(rest)),
        [first, ..] if begins_word(*first) => Front::Made(What::Word, word_len(rest)),
        [first, ..] if first.is_ascii_digit() => number(rest),
        _ => slash(rest),
    }
}

/// What stands at a place.
#[tactic(auto, using(crate::proofs::Fronts::at_quote, crate::proofs::Fronts::at_other, crate::proofs::Fronts::quote_boundary))]
pub fn front_at(alloc: Global, text: &str, at: usize) -> Result<Front, NoMemory>
    requires { at < length text.now }
    ensures { IfOk result (λ f. f ≡ front_of (drop at text.now)) }
{
    let bytes = text.as_bytes();
    let first = bytes[at];
    if is_quote(first) {
        quoted(alloc, first, &text[at + 1..])
    } else {
        Ok(unquoted(&bytes[at..]))
    }
}
