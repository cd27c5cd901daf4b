//! What later parts may rest on: how what is printed is read. The laws of parts hold in front of any bytes that don't go on
//! with what is printed, and say that the tokens behind it are those of these bytes. The last two are of whole texts.
ghost use Rattle.std.specs.Prelude.{◌≡◌, ◌<◌, ◌+◌, ◌^◌, ℕ, true, List, [], ◌∷◌, length, Ok};
ghost use Rattle.std.specs.Fmt.{decimal};
ghost use Rattle.cypher_syntax.specs.Bytes.{is_sign, is_long_sign};
ghost use Rattle.cypher_syntax.specs.Lexing.{lexed_from};
ghost use Rattle.cypher_syntax.specs.declared.tree.expr.Expr.{Expr as AnyExpr};
ghost use Rattle.cypher_syntax.specs.declared.tree.pattern.Pattern.{Pattern as AnyPattern};
ghost use Rattle.cypher_syntax.specs.declared.tree.clause.Clause.{Clause as AnyClause};
ghost use Rattle.cypher_syntax.specs.declared.tree.clause.Clause.TheVariants as clause;
ghost use Rattle.cypher_syntax.specs.declared.tree.clause.Update.{Update as AnyUpdate};
ghost use Rattle.cypher_syntax.specs.declared.tree.query.Query.{Query as AnyQuery};
ghost use Rattle.cypher_parse.specs.declared.kinds.TheConstants as kinds;
ghost use Rattle.cypher_parse.specs.Expressions.{Expression};
ghost use Rattle.cypher_parse.specs.Clauses.{Reading, Updating};
ghost use Rattle.cypher_parse.specs.Queries.{QueryAt};
ghost use Rattle.cypher_parse.specs.Patterns.{LabelsOrNone, Path};
ghost use Rattle.cypher_parse.specs.Texts.{lexemes};
ghost use Rattle.cypher_parse.specs.Whole.{IsQuery, IsParse, IsOnly};
ghost use Rattle.cypher_print.specs.Pieces.{written, is_word, name, schema, quoted};
ghost use Rattle.cypher_print.specs.ReadBack.{parts_word, parts_name, parts_sign, IsReadAs, IsNamed, IsText, IsNumber, IsLeast, IsWordOf, IsSignOf};
ghost use Rattle.cypher_print.specs.Printed.{labels, expr};
ghost use Rattle.cypher_print.specs.QueryText.{pattern, clause_text, update_text, query_text};
ghost use Rattle.cypher_print.specs.QuerySentences.{IsUpdate, IsWholeQuery};
ghost use Rattle.cypher_print.specs.Sentences.{IsSentence, All, IsName, IsPattern, IsReading};

use cypher_parse::only_the_tree;

/// A printed name is read as that name, where what stands behind it doesn't go on with it.
pub fn names_are_read_back()
    ensures { (n behind : List ℕ) → 0 < length n → parts_name behind ≡ true →
        IsReadAs (IsNamed kinds.NAMES n) (written [] (name n)) behind }
{}

/// A printed label, kind or name of a property is read as that one, where what stands behind it doesn't go on with it.
pub fn schema_names_are_read_back()
    ensures { (n behind : List ℕ) → 0 < length n → parts_name behind ≡ true →
        IsReadAs (IsNamed kinds.SCHEMA_NAMES n) (written [] (schema n)) behind }
{}

/// A printed text is read as that text, whatever stands behind it.
pub fn texts_are_read_back()
    ensures { (text behind : List ℕ) →
        IsReadAs (IsText text) (written [] (quoted 39 text)) behind }
{}

/// A printed number is read as that number, where no letter, digit or `_` stands behind it.
pub fn numbers_are_read_back()
    ensures { (n : ℕ) (behind : List ℕ) → n < 2 ^ 63 → parts_word behind ≡ true →
        IsReadAs (IsNumber n) (decimal n) behind }
{}

/// The magnitude of the least integer is read as that, where no letter, digit or `_` stands behind it.
pub fn least_magnitude_is_read_back()
    ensures { (behind : List ℕ) → parts_word behind ≡ true →
        IsReadAs IsLeast (decimal (2 ^ 63)) behind }
{}

/// A word is read as the keyword or name that it is, where no letter, digit or `_` stands behind it.
pub fn words_are_read_back()
    ensures { (w behind : List ℕ) → is_word w ≡ true → parts_word behind ≡ true →
        IsReadAs (IsWordOf w) w behind }
{}

/// A sign of one byte is read as that sign, where what stands behind it makes no longer sign and no comment with it.
pub fn signs_are_read_back()
    ensures { (a : ℕ) (behind : List ℕ) → is_sign a ≡ true → parts_sign a behind ≡ true →
        IsReadAs (IsSignOf (a ∷ [])) (a ∷ []) behind }
{}

/// A sign of two bytes is read as that sign, whatever stands behind it.
pub fn long_signs_are_read_back()
    ensures { (a b : ℕ) (behind : List ℕ) → is_long_sign a b ≡ true →
        IsReadAs (IsSignOf (a ∷ b ∷ [])) (a ∷ b ∷ []) behind }
{}

/// A space is passed.
pub fn spaces_are_passed()
    ensures { (at : ℕ) (behind : List ℕ) →
        lexed_from at 0 (32 ∷ behind) ≡ lexed_from (at + 1) 0 behind }
{}

/// The tokens of printed labels are a sentence of the grammar of labels, and these are its labels.
pub fn labels_are_read_back()
    ensures { (names : List (List ℕ)) (behind : List ℕ) →
        All IsName names → parts_name behind ≡ true →
        IsSentence LabelsOrNone names (written [] (labels names)) behind }
{}

/// The tokens of a printed pattern of MATCH are a sentence of the grammar of patterns with this one as its value, where
/// names aren't empty and the same holds of the expressions in it.
pub fn patterns_are_read_back()
    ensures { (m : ℕ) (p : AnyPattern) (behind : List ℕ) → IsPattern (Expression m) p →
        IsSentence (Path (Expression m)) p (written [] (pattern p)) behind }
{}

/// The tokens of a printed MATCH or UNWIND are a sentence of the grammar of clauses that read with this one as its value,
/// where names aren't empty, there is a pattern, and the same holds of the expressions in it.
pub fn readings_are_read_back()
    ensures { (m : ℕ) (c : AnyClause) (behind : List ℕ) →
        IsReading (Expression m) c → parts_name behind ≡ true →
        IsSentence (Reading (Expression m)) c (written [] (clause_text c)) behind }
{}

/// The tokens of a printed clause that writes are a sentence of the grammar of such clauses with this one as its value, where
/// names aren't empty, no list is, an edge that is made has one kind and a direction, and the same holds of the expressions
/// in it.
pub fn updates_are_read_back()
    ensures { (m : ℕ) (u : AnyUpdate) (behind : List ℕ) →
        IsUpdate (Expression m) u → parts_name behind ≡ true →
        IsSentence (Updating (Expression m)) (clause.Update u) (written [] (update_text u)) behind }
{}

/// The tokens of a printed query are a sentence of the grammar of queries with this one as its value, where names aren't
/// empty, numbers fit, each part has clauses that read in front of clauses that write, there is something where a list has to
/// have an element, and the same holds of the expressions in it.
pub fn queries_are_read_back()
    ensures { (m : ℕ) (q : AnyQuery) (behind : List ℕ) →
        IsWholeQuery (Expression m) q → parts_name behind ≡ true →
        IsSentence (QueryAt m) q (query_text q) behind }
{}

/// A printed expression is read as that expression, where that is a text's, with no more tokens open at once than there.
pub fn printing_keeps_expressions()
    ensures { (n : ℕ) (text : List ℕ) (x : AnyExpr) →
        Expression n (lexemes text) x → Expression n (lexemes (written [] (expr x 0))) x }
{}

/// A printed query is read as the tree that it was printed from, where that is a text's tree: with no more tokens open at
/// once than in that text, and so `parse` answers this tree for the printed text, unless memory was wanting.
pub fn printing_keeps_the_tree()
    ensures at_each_depth { (n : ℕ) (text : List ℕ) (q : AnyQuery) →
        IsQuery n text q → IsQuery n (query_text q) q }
    ensures parsed { (text : List ℕ) (q : AnyQuery) →
        IsParse text (Ok q) → IsOnly (query_text q) q }
{
    only_the_tree();
}
