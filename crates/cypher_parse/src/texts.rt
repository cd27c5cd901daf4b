//! From a text to its tokens as the grammar sees them.

ghost use Rattle.std.specs.Prelude.{◌≡◌, ◌<◌, ◌≤◌, ◌++◌, length, map, slice_range, IfOk};
ghost use Rattle.cypher_syntax.specs.Lexing.{lexed};
ghost use Rattle.cypher_syntax.specs.Spans.{IsWord};
ghost use Rattle.cypher_syntax.specs.declared.token.What.TheVariants as what;
ghost use Rattle.cypher_parse.specs.Texts as spec;

use crate::spelling::listed;
use crate::{Kind, Lexeme, Lexemes, Payload};
use cypher_syntax::{Token, TokenRefused, Tokens, What, tokens};
use graph_value::{Name, NoMemory, Text};
use std::alloc::{AllocError, Global};

/// The tokens of a text. Where something stands in it that begins no token, white space or comment,
/// it is the last of them.
#[tactic(auto, unfolding(crate::specs::Texts::lexemes))]
pub fn lexemes_of(alloc: Global, text: &Text) -> Result<Lexemes, NoMemory>
    ensures { IfOk result (λ all. all ≡ spec.lexemes text.now) }
{
    let (tokens, fault) = found(alloc, text)?;
    let lexemes = each(alloc, text.as_str(), tokens)?;
    Ok(with_fault(lexemes, fault)?)
}

/// The tokens of a text up to its first fault, and the place of the fault.
fn found(alloc: Global, text: &Text) -> Result<(Tokens, Option<u64>), NoMemory>
    ensures { IfOk result (λ found. lexed text.now ≡ record { tokens = found.0; fault = found.1 }) }
{
    match tokens(alloc, text) {
        Ok(tokens) => Ok((tokens, None)),
        Err(TokenRefused::Place { place, before }) => Ok((before, Some(place))),
        Err(TokenRefused::NoMemory) => Err(AllocError),
    }
}

fn with_fault(lexemes: Lexemes, fault: Option<u64>) -> Result<Lexemes, NoMemory>
    ensures { IfOk result (λ all. all ≡ lexemes ++ spec.unknown_at fault) }
{
    let mut all = lexemes;
    if let Some(place) = fault {
        all.push(Lexeme {
            kind: Kind::Unknown,
            payload: Payload::Bare,
            place,
        })?;
    }
    Ok(all)
}

fn each(alloc: Global, text: &str, tokens: Tokens) -> Result<Lexemes, NoMemory>
    requires { spec.AreSpans text.now tokens }
    ensures { IfOk result (λ all. all ≡ map (spec.lexeme text.now) tokens) }
{
    let mut left = tokens;
    let mut all = Lexemes::new(alloc);
    while let Some(token) = left.pop_front() {
        all.push(lexeme(alloc, text, token)?)?;
    }
    Ok(all)
}

/// A token as the grammar sees it. The name or the text in it is moved.
fn lexeme(alloc: Global, text: &str, token: Token) -> Result<Lexeme, NoMemory>
    requires { spec.IsSpan text.now token }
    ensures { IfOk result (λ made. made ≡ spec.lexeme text.now token) }
{
    let place = token.from;
    match token.what {
        What::Word => word(alloc, text, place, token.to),
        What::Quoted(name) => Ok(carrying(Kind::Name, Payload::Name(name), place)),
        What::Int(n) => Ok(carrying(Kind::Integer, Payload::Integer(n), place)),
        What::IntMin => Ok(carrying(Kind::LeastMagnitude, Payload::Bare, place)),
        What::Text(text) => Ok(carrying(Kind::Quote, Payload::Text(text), place)),
        What::Sign => Ok(sign(text, place, token.to)),
    }
}

fn carrying(kind: Kind, payload: Payload, place: u64) -> Lexeme
    ensures { result ≡ record { kind = kind; payload = payload; place = place } }
{
    Lexeme {
        kind,
        payload,
        place,
    }
}

/// A keyword, the name of a function or another name.
fn word(alloc: Global, text: &str, from: u64, to: u64) -> Result<Lexeme, NoMemory>
    requires some { from < to }
    requires within { to ≤ length text.now }
    requires is_word { IsWord (slice_range text.now from to) }
    ensures { IfOk result (λ t. t ≡ spec.lexeme_of what.Word (slice_range text.now from to) from) }
{
    let written = &text[from as usize..to as usize];
    let kind = listed(written.as_bytes()).unwrap_or(Kind::Name);
    let name = Name::from_str(alloc, written)?;
    Ok(carrying(kind, Payload::Name(name), from))
}

fn sign(text: &str, from: u64, to: u64) -> Lexeme
    requires some { from < to }
    requires within { to ≤ length text.now }
    ensures { result ≡ spec.lexeme_of what.Sign (slice_range text.now from to) from }
{
    let written = &text.as_bytes()[from as usize..to as usize];
    let kind = listed(written).unwrap_or(Kind::Unknown);
    carrying(kind, Payload::Bare, from)
}
