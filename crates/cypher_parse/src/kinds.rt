//! Sets of kinds of tokens.

use crate::Kind;

/// Names that are no function's.
pub const PLAIN_NAMES: [Kind; 3] = [Kind::Name, Kind::Snapshot, Kind::Between];

/// The names of functions of one value.
pub const SINGLE_FUNCTIONS: [Kind; 12] = [
    Kind::IdWord,
    Kind::LabelsWord,
    Kind::TypeWord,
    Kind::StartNodeWord,
    Kind::EndNodeWord,
    Kind::KeysWord,
    Kind::SizeWord,
    Kind::HeadWord,
    Kind::LastWord,
    Kind::AbsWord,
    Kind::ToStringWord,
    Kind::ToIntegerWord,
];

/// The names of aggregates but `count`.
pub const AGGREGATES: [Kind; 4] = [
    Kind::SumWord,
    Kind::MinWord,
    Kind::MaxWord,
    Kind::CollectWord,
];

/// What may stand as a name.
pub const NAMES: [Kind; 22] = [
    Kind::Name,
    Kind::Snapshot,
    Kind::Between,
    Kind::IdWord,
    Kind::LabelsWord,
    Kind::TypeWord,
    Kind::StartNodeWord,
    Kind::EndNodeWord,
    Kind::KeysWord,
    Kind::SizeWord,
    Kind::HeadWord,
    Kind::LastWord,
    Kind::AbsWord,
    Kind::ToStringWord,
    Kind::ToIntegerWord,
    Kind::RangeWord,
    Kind::CoalesceWord,
    Kind::CountWord,
    Kind::SumWord,
    Kind::MinWord,
    Kind::MaxWord,
    Kind::CollectWord,
];

/// What may stand as the name of a property, a label or a kind of edge: a name or any keyword.
pub const SCHEMA_NAMES: [Kind; 61] = [
    Kind::Name,
    Kind::Snapshot,
    Kind::Between,
    Kind::IdWord,
    Kind::LabelsWord,
    Kind::TypeWord,
    Kind::StartNodeWord,
    Kind::EndNodeWord,
    Kind::KeysWord,
    Kind::SizeWord,
    Kind::HeadWord,
    Kind::LastWord,
    Kind::AbsWord,
    Kind::ToStringWord,
    Kind::ToIntegerWord,
    Kind::RangeWord,
    Kind::CoalesceWord,
    Kind::CountWord,
    Kind::SumWord,
    Kind::MinWord,
    Kind::MaxWord,
    Kind::CollectWord,
    Kind::And,
    Kind::As,
    Kind::Asc,
    Kind::Ascending,
    Kind::By,
    Kind::Case,
    Kind::Contains,
    Kind::Create,
    Kind::Delete,
    Kind::Desc,
    Kind::Descending,
    Kind::Detach,
    Kind::Distinct,
    Kind::Else,
    Kind::End,
    Kind::Ends,
    Kind::False,
    Kind::In,
    Kind::Is,
    Kind::Limit,
    Kind::Match,
    Kind::Not,
    Kind::Null,
    Kind::Optional,
    Kind::Or,
    Kind::Order,
    Kind::Remove,
    Kind::Return,
    Kind::Set,
    Kind::Skip,
    Kind::Starts,
    Kind::Then,
    Kind::True,
    Kind::Tt,
    Kind::Unwind,
    Kind::When,
    Kind::Where,
    Kind::With,
    Kind::Xor,
];

/// Comparisons.
pub const COMPARISONS: [Kind; 6] = [
    Kind::Equal,
    Kind::NotEqual,
    Kind::Less,
    Kind::LessOrEqual,
    Kind::Greater,
    Kind::GreaterOrEqual,
];

/// `*`, `/` and `%`.
pub const PRODUCT_SIGNS: [Kind; 3] = [Kind::Star, Kind::Slash, Kind::Percent];

/// `+` and `-`.
pub const SUM_SIGNS: [Kind; 2] = [Kind::Plus, Kind::Minus];

/// What a test behind an operand begins with.
pub const PREDICATE_WORDS: [Kind; 5] = [
    Kind::In,
    Kind::Starts,
    Kind::Ends,
    Kind::Contains,
    Kind::Is,
];

/// What a step behind an operand begins with.
pub const STEP_SIGNS: [Kind; 2] = [Kind::LeftBracket, Kind::Point];

/// Numbers, texts, truth values and null.
pub const LITERALS: [Kind; 5] = [
    Kind::Integer,
    Kind::Quote,
    Kind::True,
    Kind::False,
    Kind::Null,
];

/// What an edge of a pattern begins with.
pub const EDGE_SIGNS: [Kind; 2] = [Kind::Less, Kind::Minus];

/// What a clause that reads begins with.
pub const READINGS: [Kind; 3] = [Kind::Unwind, Kind::Optional, Kind::Match];

/// What a clause that writes begins with.
pub const UPDATES: [Kind; 5] = [
    Kind::Create,
    Kind::Set,
    Kind::Remove,
    Kind::Detach,
    Kind::Delete,
];
