//! What later parts may rest on.
ghost use Rattle.std.specs.Prelude.{ℕ, List};
ghost use Rattle.cypher_syntax.specs.Lexing.{lexed};
ghost use Rattle.cypher_syntax.specs.Spans.{IsParted, end_of};

/// Up to its end, or to its first fault, each text is its tokens, with white space and comments between them.
pub fn text_is_its_tokens()
    ensures { (text : List ℕ) → IsParted text 0 (lexed text).tokens (end_of text (lexed text).fault) }
{}
