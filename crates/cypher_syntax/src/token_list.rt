ghost use Rattle.std.specs.Prelude.{◌≡◌, [], ◌∷◌, ◌++◌, length, slice_get, OnOk, MatchOption, Some};
ghost use Rattle.std.specs.Option.{option_copied};

use crate::Token;
use graph_value::NoMemory;
use std::alloc::Global;
use std::collections::VecDeque;
use std::marker::Model;

/// The tokens of a text in order, which contracts see as a list. They are taken from the front, so that names and texts can
/// be moved out of them.
#[derive(Drop)]
pub struct Tokens {
    queue: VecDeque<Token>,
}

impl Model for Tokens {
    ghost use Rattle.std.specs.Prelude.{List};
    ghost use Rattle.cypher_syntax.specs.declared.token.Token.{Token};

    ghost Value = { List Token };

    ghost view = { λ t. t.queue.items };
}

impl Tokens {
    /// No tokens.
    pub fn new(alloc: Global) -> Tokens
        ensures { result ≡ [] }
    {
        Tokens {
            queue: VecDeque::new(alloc),
        }
    }

    /// How many tokens there are.
    pub fn len(&self) -> usize
        ensures { result ≡ length self.now }
    {
        self.queue.len()
    }

    /// The first token, if there is one.
    pub fn front(&self) -> Option<&Token>
        ensures { option_copied result ≡ slice_get self.now 0 }
    {
        self.queue.front()
    }

    /// The token behind the first, if there is one.
    pub fn second(&self) -> Option<&Token>
        ensures { option_copied result ≡ slice_get self.now 1 }
    {
        self.queue.get(1)
    }

    /// Takes the first token away, if there is one.
    pub fn pop_front(&mut self) -> Option<Token>
        ensures { MatchOption result ((self.old ≡ []) × (self.new ≡ [])) (λ t. self.old ≡ t ∷ self.new) }
    {
        self.queue.pop_front()
    }

    /// Puts a token behind the others.
    pub(crate) fn push(&mut self, token: Token) -> Result<(), NoMemory>
        ensures { OnOk result (self.new ≡ self.old ++ token ∷ []) }
    {
        self.queue.push_back(token)?;
        Ok(())
    }
}
