//! Reading the tokens of a text, from its first byte to its last.
mod bytes;
mod front;
mod numerals;
mod quotes;

ghost use Rattle.std.specs.Prelude.{◌≡◌, ◌^◌, ◌≤◌, ◌<◌, ◌+◌, length, drop, IfOk, IfErr, IfSome};
ghost use Rattle.cypher_syntax.specs.Lexing.{front_of, lexed};
ghost use Rattle.cypher_syntax.specs.Steps.{Stepped, IsWhole, IsRefusal};

use crate::{Token, TokenRefused, Tokens, What};
use front::{Front, front_at};
use graph_value::{NoMemory, Text};
use std::alloc::Global;

/// The tokens of a text. Where something stands in it that begins no token, white space or comment, its place is the answer,
/// with the tokens before it.
pub fn tokens(alloc: Global, text: &Text) -> Result<Tokens, TokenRefused>
    ensures whole { IfOk result (IsWhole text.now) }
    ensures refused { IfErr result (IsRefusal text.now) }
{
    let text = text.as_str();
    let mut tokens = Tokens::new(alloc);
    let mut at = 0;
    while at < text.len() {
        match step(alloc, text, at, &mut tokens)? {
            Some(len) => at += len,
            None => {
                return Err(TokenRefused::Place {
                    place: at as u64,
                    before: tokens,
                });
            }
        }
    }
    Ok(tokens)
}

/// Passes what stands at a place, and puts it behind the tokens if it is one. How many bytes were passed; `None` where nothing
/// can be passed.
fn step(
    alloc: Global,
    text: &str,
    at: usize,
    tokens: &mut Tokens,
) -> Result<Option<usize>, NoMemory>
    requires { at < length text.now }
    ensures stepped { IfOk result (Stepped at (front_of (drop at text.now)) tokens.old tokens.new) }
    ensures passed { IfOk result (λ r. IfSome r (λ n. (0 < n) × (at + n ≤ length text.now))) }
{
    match front_at(alloc, text, at)? {
        Front::Gap(len) => Ok(Some(len)),
        Front::Made(what, len) => {
            tokens.push(made(what, at, len))?;
            Ok(Some(len))
        }
        Front::Fault => Ok(None),
    }
}

/// A token of so many bytes at a place.
fn made(what: What, at: usize, len: usize) -> Token
    requires { at + len < 2 ^ 64 }
    ensures { result ≡ record { what = what; from = at; to = at + len } }
{
    Token {
        what,
        from: at as u64,
        to: (at + len) as u64,
    }
}
