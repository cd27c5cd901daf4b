/// What a token is to the grammar.
#[derive(Clone, Copy)]
pub enum Kind {
    And,
    As,
    Asc,
    Ascending,
    By,
    Case,
    Contains,
    Create,
    Delete,
    Desc,
    Descending,
    Detach,
    Distinct,
    Else,
    End,
    Ends,
    False,
    In,
    Is,
    Limit,
    Match,
    Not,
    Null,
    Optional,
    Or,
    Order,
    Remove,
    Return,
    Set,
    Skip,
    Starts,
    Then,
    True,
    Tt,
    Unwind,
    When,
    Where,
    With,
    Xor,
    Snapshot,
    Between,
    IdWord,
    LabelsWord,
    TypeWord,
    StartNodeWord,
    EndNodeWord,
    KeysWord,
    SizeWord,
    HeadWord,
    LastWord,
    AbsWord,
    ToStringWord,
    ToIntegerWord,
    RangeWord,
    CoalesceWord,
    CountWord,
    SumWord,
    MinWord,
    MaxWord,
    CollectWord,
    LeftParen,
    RightParen,
    LeftBracket,
    RightBracket,
    LeftBrace,
    RightBrace,
    Comma,
    Semicolon,
    Colon,
    Point,
    Bar,
    Plus,
    Minus,
    Star,
    Slash,
    Percent,
    Equal,
    NotEqual,
    Less,
    LessOrEqual,
    Greater,
    GreaterOrEqual,
    TwoPoints,
    /// A word that is none of these, or a quoted name.
    Name,
    /// An integer that an `i64` holds.
    Integer,
    /// The integer 2^63.
    LeastMagnitude,
    /// A text between quotes.
    Quote,
    /// What begins no token.
    Unknown,
}

impl Kind {
    ghost use Rattle.std.specs.Prelude.{◌≡◌};
    ghost use Rattle.cypher_parse.specs.Kinds.{number};

    /// The kind's place in the list of kinds.
    pub fn number(self) -> u8
        ensures { result ≡ number self }
    {
        self as u8
    }
}
