ghost use Rattle.std.specs.Prelude.{◌≡◌, ◌++◌, [], OnOk};
ghost use Rattle.std.specs.List.{flat_map};
ghost use Rattle.std.specs.Fmt.{decimal, signed_decimal};
ghost use Rattle.cypher_print.specs.Pieces.{written, spelled, quoted, schema, name as name_pieces, value, IsQuote};

use crate::words::{is_keyword, is_word, ordinary_len, spelling};
use graph_value::{Name, NoMemory, Text, Value};
use std::alloc::Global;
use std::fmt::Write;
use std::marker::Model;

/// A text that is being written, which contracts see as the list of its bytes.
#[derive(Drop)]
pub struct Writer {
    text: String,
}

impl Model for Writer {
    ghost use Rattle.std.specs.Prelude.{List, ℕ, string_bytes};

    ghost Value = { List ℕ };

    ghost view = { λ w. string_bytes w.text };
}

impl Writer {
    pub fn new(alloc: Global) -> Writer
        ensures { result ≡ [] }
    {
        Writer {
            text: String::new(alloc),
        }
    }

    /// The text as it is now.
    pub fn into_text(self) -> Text
        ensures { result ≡ self }
    {
        let Writer { text } = self;
        Text::from_string(text)
    }

    pub fn push(&mut self, piece: &str) -> Result<(), NoMemory>
        ensures { OnOk result (self.new ≡ self.old ++ piece.now) }
    {
        self.text.push_str(piece)
    }

    /// A text, with what can't stand between such quotes written as it has to be.
    pub fn spelled(&mut self, quote: u8, text: &str) -> Result<(), NoMemory>
        ensures { OnOk result (self.new ≡ self.old ++ flat_map (spelled quote) text.now) }
    {
        let mut rest = text;
        while !rest.is_empty() {
            let (plain, behind) = rest.split_at(ordinary_len(quote, rest));
            self.push(plain)?;
            rest = behind;
            if let Some(b) = behind.as_bytes().first() {
                self.push(spelling(quote, *b))?;
                rest = &behind[1..];
            }
        }
        Ok(())
    }

    /// A text between quotes.
    pub fn quoted(&mut self, quote: u8, text: &str) -> Result<(), NoMemory>
        requires { IsQuote quote }
        ensures { OnOk result (self.new ≡ written self.old (quoted quote text.now)) }
    {
        let mark = if quote == b'`' { "`" } else { "'" };
        self.push(mark)?;
        self.spelled(quote, text)?;
        self.push(mark)
    }

    /// A label, a kind or the name of a property.
    pub fn schema(&mut self, name: &Name) -> Result<(), NoMemory>
        ensures { OnOk result (self.new ≡ written self.old (schema name.now)) }
    {
        if is_word(name.as_str().as_bytes()) {
            self.push(name.as_str())
        } else {
            self.quoted(b'`', name.as_str())
        }
    }

    /// A name in scope.
    pub fn name(&mut self, name: &Name) -> Result<(), NoMemory>
        ensures { OnOk result (self.new ≡ written self.old (name_pieces name.now)) }
    {
        if is_word(name.as_str().as_bytes()) && !is_keyword(name.as_str()) {
            self.push(name.as_str())
        } else {
            self.quoted(b'`', name.as_str())
        }
    }

    pub fn int(&mut self, n: i64) -> Result<(), NoMemory>
        ensures { OnOk result (self.new ≡ self.old ++ signed_decimal n) }
    {
        write!(self.text, "{n}")
    }

    pub fn number(&mut self, n: u64) -> Result<(), NoMemory>
        ensures { OnOk result (self.new ≡ self.old ++ decimal n) }
    {
        write!(self.text, "{n}")
    }

    /// A literal.
    pub fn value(&mut self, v: &Value) -> Result<(), NoMemory>
        ensures { OnOk result (self.new ≡ written self.old (value v.now)) }
    {
        match v {
            Value::Bool(true) => self.push("TRUE"),
            Value::Bool(false) => self.push("FALSE"),
            Value::Int(n) => self.int(*n),
            Value::Text(text) => self.quoted(b'\'', text.as_str()),
            _ => self.push("NULL"),
        }
    }
}
