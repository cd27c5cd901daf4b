use crate::Expr;
use graph_value::Name;
use sqlite_items::Items;

/// A path of a pattern: a vertex, and then an edge and a vertex at a time.
#[derive(Drop)]
pub struct Pattern {
    pub first: NodePattern,
    pub steps: Items<(EdgePattern, NodePattern)>,
}

/// What a vertex of a pattern has to be.
#[derive(Drop)]
pub struct NodePattern {
    pub name: Option<Name>,
    pub labels: Items<Name>,
    /// The properties between braces, which may be none of them; `None` where no braces stand.
    pub map: Option<Items<(Name, Expr)>>,
}

/// What an edge of a pattern has to be.
#[derive(Drop)]
pub struct EdgePattern {
    pub name: Option<Name>,
    /// The kinds of which it is to be one; any kind where there are none.
    pub kinds: Items<Name>,
    pub arrow: Arrow,
    /// The properties between braces, which may be none of them; `None` where no braces stand.
    pub map: Option<Items<(Name, Expr)>>,
}

/// Which way an edge of a pattern goes, as the text is read.
#[derive(Clone, Copy, PartialEq, Eq)]
pub enum Arrow {
    Right,
    Left,
    /// Either way.
    Neither,
}
