//! What a line asks for.
ghost use Rattle.std.specs.Prelude.{◌≡◌, ◌++◌, codes};
ghost use Rattle.session_core.specs.Statement as spec;

/// The kinds of statements.
#[derive(Clone, Copy, Debug, PartialEq, Eq)]
pub enum Kind {
    Begin,
    Commit,
    Rollback,
    /// `.now`
    Now,
    /// `.stats`
    Stats,
    /// `.sweep`
    Sweep,
    /// `.quit`
    Quit,
    /// Begins with a point, and is no command.
    Unknown,
    Query,
}

fn is_blank(byte: u8) -> bool
    ensures { result ≡ spec.is_blank byte }
{
    byte == b' ' || byte == b'\t'
}

fn behind_blanks(bytes: &[u8]) -> &[u8]
    ensures { result.now ≡ spec.behind_blanks bytes.now }
{
    let mut rest = bytes;
    while let [first, behind @ ..] = rest {
        if !is_blank(*first) {
            break;
        }
        rest = behind;
    }
    rest
}

fn before_blanks(bytes: &[u8]) -> &[u8]
    ensures { result.now ≡ spec.before_blanks bytes.now }
{
    let mut rest = bytes;
    while let [before @ .., last] = rest {
        if !is_blank(*last) {
            break;
        }
        rest = before;
    }
    rest
}

/// The statement of a line: spaces and tabs at both ends are none of it.
pub fn statement_of(line: &[u8]) -> &[u8]
    ensures { result.now ≡ spec.statement_of line.now }
{
    before_blanks(behind_blanks(line))
}

/// Whether a statement is this word, with or without a semicolon behind it.
fn is_word(statement: &str, word: &str, ended: &str) -> bool
    requires { ended.now ≡ word.now ++ codes ";" }
    ensures { result ≡ spec.is_word statement.now word.now }
{
    statement.eq_ignore_ascii_case(word) || statement.eq_ignore_ascii_case(ended)
}

fn command_of(statement: &str) -> Kind
    ensures { result ≡ spec.command_of statement.now }
{
    match statement {
        ".now" => Kind::Now,
        ".stats" => Kind::Stats,
        ".sweep" => Kind::Sweep,
        ".quit" => Kind::Quit,
        _ if statement.as_bytes().first() == Some(&b'.') => Kind::Unknown,
        _ => Kind::Query,
    }
}

/// What a statement asks for.
#[tactic(auto, unfolding(crate::specs::Statement::kind_of))]
pub fn kind_of(statement: &str) -> Kind
    ensures { result ≡ spec.kind_of statement.now }
{
    if is_word(statement, "begin", "begin;") {
        Kind::Begin
    } else if is_word(statement, "commit", "commit;") {
        Kind::Commit
    } else if is_word(statement, "rollback", "rollback;") {
        Kind::Rollback
    } else {
        command_of(statement)
    }
}
