/// Comparisons.
#[derive(Clone, Copy, PartialEq, Eq)]
pub enum CmpOp {
    Eq,
    Ne,
    Lt,
    Le,
    Gt,
    Ge,
}

/// Plus and minus, between operands and in front of one.
#[derive(Clone, Copy, PartialEq, Eq)]
pub enum SumOp {
    Plus,
    Minus,
}

/// `*`, `/` and `%`.
#[derive(Clone, Copy, PartialEq, Eq)]
pub enum ProdOp {
    Times,
    Over,
    Rest,
}

/// Functions of single values.
#[derive(Clone, Copy, PartialEq, Eq)]
pub enum Fun {
    Id,
    Labels,
    /// `type`: the kind of an edge.
    Kind,
    StartNode,
    EndNode,
    Keys,
    Size,
    Head,
    Last,
    Abs,
    ToText,
    ToInteger,
    Range,
    Coalesce,
}

/// Functions of all the values of a group of rows.
#[derive(Clone, Copy, PartialEq, Eq)]
pub enum AggFun {
    Count,
    Sum,
    Min,
    Max,
    Collect,
}
