ghost use Rattle.std.specs.Prelude.{◌≡◌, map};
ghost use Rattle.cypher_parse.specs.Spelling.{spelled, kind_of};

use crate::Kind;

/// The words and signs that have a kind of their own.
pub const SPELLINGS: [(&[u8], Kind); 83] = [
    (b"and", Kind::And),
    (b"as", Kind::As),
    (b"asc", Kind::Asc),
    (b"ascending", Kind::Ascending),
    (b"by", Kind::By),
    (b"case", Kind::Case),
    (b"contains", Kind::Contains),
    (b"create", Kind::Create),
    (b"delete", Kind::Delete),
    (b"desc", Kind::Desc),
    (b"descending", Kind::Descending),
    (b"detach", Kind::Detach),
    (b"distinct", Kind::Distinct),
    (b"else", Kind::Else),
    (b"end", Kind::End),
    (b"ends", Kind::Ends),
    (b"false", Kind::False),
    (b"in", Kind::In),
    (b"is", Kind::Is),
    (b"limit", Kind::Limit),
    (b"match", Kind::Match),
    (b"not", Kind::Not),
    (b"null", Kind::Null),
    (b"optional", Kind::Optional),
    (b"or", Kind::Or),
    (b"order", Kind::Order),
    (b"remove", Kind::Remove),
    (b"return", Kind::Return),
    (b"set", Kind::Set),
    (b"skip", Kind::Skip),
    (b"starts", Kind::Starts),
    (b"then", Kind::Then),
    (b"true", Kind::True),
    (b"tt", Kind::Tt),
    (b"unwind", Kind::Unwind),
    (b"when", Kind::When),
    (b"where", Kind::Where),
    (b"with", Kind::With),
    (b"xor", Kind::Xor),
    (b"snapshot", Kind::Snapshot),
    (b"between", Kind::Between),
    (b"id", Kind::IdWord),
    (b"labels", Kind::LabelsWord),
    (b"type", Kind::TypeWord),
    (b"startnode", Kind::StartNodeWord),
    (b"endnode", Kind::EndNodeWord),
    (b"keys", Kind::KeysWord),
    (b"size", Kind::SizeWord),
    (b"head", Kind::HeadWord),
    (b"last", Kind::LastWord),
    (b"abs", Kind::AbsWord),
    (b"tostring", Kind::ToStringWord),
    (b"tointeger", Kind::ToIntegerWord),
    (b"range", Kind::RangeWord),
    (b"coalesce", Kind::CoalesceWord),
    (b"count", Kind::CountWord),
    (b"sum", Kind::SumWord),
    (b"min", Kind::MinWord),
    (b"max", Kind::MaxWord),
    (b"collect", Kind::CollectWord),
    (b"(", Kind::LeftParen),
    (b")", Kind::RightParen),
    (b"[", Kind::LeftBracket),
    (b"]", Kind::RightBracket),
    (b"{", Kind::LeftBrace),
    (b"}", Kind::RightBrace),
    (b",", Kind::Comma),
    (b";", Kind::Semicolon),
    (b":", Kind::Colon),
    (b".", Kind::Point),
    (b"|", Kind::Bar),
    (b"+", Kind::Plus),
    (b"-", Kind::Minus),
    (b"*", Kind::Star),
    (b"/", Kind::Slash),
    (b"%", Kind::Percent),
    (b"=", Kind::Equal),
    (b"<>", Kind::NotEqual),
    (b"<", Kind::Less),
    (b"<=", Kind::LessOrEqual),
    (b">", Kind::Greater),
    (b">=", Kind::GreaterOrEqual),
    (b"..", Kind::TwoPoints),
];

/// The kind of a word or sign, without regard to the case of ASCII letters.
#[tactic(auto, unfolding(crate::specs::Spelling::kind_of))]
pub fn listed(word: &[u8]) -> Option<Kind>
    ensures { result ≡ kind_of word.now }
{
    looked_up(&SPELLINGS, word)
}

fn looked_up(table: &[(&[u8], Kind)], word: &[u8]) -> Option<Kind>
    ensures { result ≡ spelled (map (λ s. (s.0.now, s.1)) table.now) word.now }
{
    for (spelling, kind) in table {
        if word.eq_ignore_ascii_case(spelling) {
            return Some(*kind);
        }
    }
    None
}
