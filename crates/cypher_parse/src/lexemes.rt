ghost use Rattle.std.specs.Prelude.{◌≡◌, ◌↔◌, IsTrue, OnOk, [], ◌∷◌, ◌++◌, drop, length};
ghost use Rattle.cypher_parse.specs.Words.{name_of, text_of, function_of};
ghost use Rattle.cypher_parse.specs.Parsers as parsers;
ghost use Rattle.cypher_parse.specs.ExpressionParsers as spec;
ghost use Rattle.cypher_parse.specs.Kinds.{number, member};
ghost use Rattle.cypher_parse.specs.Answer.{place_of};
ghost use Rattle.cypher_parse.specs.Parsers.{heads, map_out};
ghost use Rattle.cypher_parse.specs.ProjectionParsers as projection;
ghost use Rattle.cypher_parse.specs.Reads.{Passed, Reads};

use crate::kinds::{NAMES, PLAIN_NAMES, SCHEMA_NAMES};
use crate::{Kind, Lexeme, Payload, Stop};
use graph_value::{Name, NoMemory, Text};
use std::alloc::Global;
use std::collections::VecDeque;
use std::marker::Model;

/// The tokens that are left, which contracts see as a list.
#[derive(Drop)]
pub struct Lexemes {
    queue: VecDeque<Lexeme>,
}

impl Model for Lexemes {
    ghost use Rattle.std.specs.Prelude.{List};
    ghost use Rattle.cypher_parse.specs.declared.lexeme.Lexeme.{Lexeme};

    ghost Value = { List Lexeme };

    ghost view = { λ t. t.queue.items };
}

/// Whether the kind is one of these.
fn is_among(kind: Kind, kinds: &[Kind]) -> bool
    ensures { result ≡ member (number kind) kinds.now }
{
    for other in kinds {
        if kind.number() == other.number() {
            return true;
        }
    }
    false
}

impl Lexemes {
    /// No tokens.
    pub fn new(alloc: Global) -> Lexemes
        ensures { result ≡ [] }
    {
        Lexemes {
            queue: VecDeque::new(alloc),
        }
    }

    /// Puts a token behind the others.
    pub fn push(&mut self, lexeme: Lexeme) -> Result<(), NoMemory>
        ensures { OnOk result (self.new ≡ self.old ++ lexeme ∷ []) }
    {
        self.queue.push_back(lexeme)?;
        Ok(())
    }

    /// Whether a token of one of these kinds comes next.
    pub(crate) fn at(&self, kinds: &[Kind]) -> bool
        ensures { result ≡ heads kinds.now self.now }
    {
        match self.queue.front() {
            Some(lexeme) => is_among(lexeme.kind, kinds),
            None => false,
        }
    }

    /// Where the next token stands, or the end.
    pub(crate) fn place(&self, end: u64) -> u64
        ensures { result ≡ place_of end self.now }
    {
        self.queue.front().map_or(end, |lexeme| lexeme.place)
    }

    /// How many tokens are left.
    pub fn len(&self) -> usize
        ensures { result ≡ length self.now }
    {
        self.queue.len()
    }

    /// Whether a name comes next.
    pub(crate) fn leads(&self) -> bool
        ensures { result ≡ projection.leads self.now }
    {
        match self.queue.front() {
            Some(
                Lexeme {
                    kind,
                    payload: Payload::Name(_),
                    ..
                },
            ) => is_among(*kind, &NAMES),
            _ => false,
        }
    }

    /// Whether no token is left.
    pub fn is_empty(&self) -> bool
        ensures { IsTrue result ↔ (self.now ≡ []) }
    {
        self.queue.is_empty()
    }

    /// Goes past the next token, if there is one.
    pub(crate) fn pass(&mut self)
        ensures { self.new ≡ drop 1 self.old }
    {
        let _ = self.queue.pop_front();
    }

    /// Goes past a token of one of these kinds.
    pub(crate) fn expect(&mut self, kinds: &[Kind]) -> Result<(), Stop>
        ensures { Passed kinds.now self.old result self.new }
    {
        if !self.at(kinds) {
            return Err(Stop::Syntax);
        }
        self.pass();
        Ok(())
    }

    /// Goes past the word of this kind, if it comes next; did it?
    pub(crate) fn skip(&mut self, kind: Kind) -> bool
        ensures { spec.flag kind self.old ≡ parsers.Done result self.new }
    {
        let found = self.at(&[kind]);
        if found {
            self.pass();
        }
        found
    }

    /// Takes a token of one of these kinds. Which one is it?
    pub(crate) fn kind(&mut self, kinds: &[Kind]) -> Result<Kind, Stop>
        ensures { Reads (map_out (λ t. t.kind) (parsers.one kinds.now) self.old) result self.new }
    {
        match self.queue.front() {
            Some(lexeme) if is_among(lexeme.kind, kinds) => {
                let kind = lexeme.kind;
                self.pass();
                Ok(kind)
            }
            _ => Err(Stop::Syntax),
        }
    }

    /// Takes a name of one of these kinds.
    fn named(&mut self, kinds: &[Kind]) -> Result<Name, Stop>
        ensures { Reads (parsers.valued kinds.now name_of self.old) result self.new }
    {
        match self.queue.front() {
            Some(
                Lexeme {
                    kind,
                    payload: Payload::Name(_),
                    ..
                },
            ) if is_among(*kind, kinds) => {}
            _ => return Err(Stop::Syntax),
        }
        match self.queue.pop_front() {
            Some(
                Lexeme {
                    payload: Payload::Name(name),
                    ..
                },
            ) => Ok(name),
            _ => Err(Stop::Syntax),
        }
    }

    pub(crate) fn name(&mut self) -> Result<Name, Stop>
        ensures { Reads (spec.name self.old) result self.new }
    {
        self.named(&NAMES)
    }

    /// Takes a name that is no function's.
    pub(crate) fn plain_name(&mut self) -> Result<Name, Stop>
        ensures { Reads (parsers.valued PLAIN_NAMES name_of self.old) result self.new }
    {
        self.named(&PLAIN_NAMES)
    }

    /// Takes the name of a property, a label or a kind of edge.
    pub(crate) fn schema_name(&mut self) -> Result<Name, Stop>
        ensures { Reads (spec.schema self.old) result self.new }
    {
        self.named(&SCHEMA_NAMES)
    }

    /// Takes a function's word. Which function is it, and how is it written?
    pub(crate) fn function(&mut self, kinds: &[Kind]) -> Result<(Kind, Name), Stop>
        ensures { Reads (parsers.valued kinds.now function_of self.old) result self.new }
    {
        match self.queue.front() {
            Some(
                Lexeme {
                    kind,
                    payload: Payload::Name(_),
                    ..
                },
            ) if is_among(*kind, kinds) => {}
            _ => return Err(Stop::Syntax),
        }
        match self.queue.pop_front() {
            Some(
                Lexeme {
                    kind,
                    payload: Payload::Name(name),
                    ..
                },
            ) => Ok((kind, name)),
            _ => Err(Stop::Syntax),
        }
    }

    pub(crate) fn integer(&mut self) -> Result<i64, Stop>
        ensures { Reads (spec.integer self.old) result self.new }
    {
        match self.queue.front() {
            Some(
                Lexeme {
                    kind,
                    payload: Payload::Integer(number),
                    ..
                },
            ) if is_among(*kind, &[Kind::Integer]) => {
                let number = *number;
                self.pass();
                Ok(number)
            }
            _ => Err(Stop::Syntax),
        }
    }

    /// Takes a text between quotes.
    pub(crate) fn text(&mut self) -> Result<Text, Stop>
        ensures { Reads (parsers.valued (Kind.Quote ∷ []) text_of self.old) result self.new }
    {
        match self.queue.front() {
            Some(
                Lexeme {
                    kind,
                    payload: Payload::Text(_),
                    ..
                },
            ) if is_among(*kind, &[Kind::Quote]) => {}
            _ => return Err(Stop::Syntax),
        }
        match self.queue.pop_front() {
            Some(
                Lexeme {
                    payload: Payload::Text(text),
                    ..
                },
            ) => Ok(text),
            _ => Err(Stop::Syntax),
        }
    }
}
