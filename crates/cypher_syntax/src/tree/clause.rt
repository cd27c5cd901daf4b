use crate::{Expr, Pattern};
use graph_value::Name;
use sqlite_items::Items;

/// A clause in front of WITH or RETURN.
#[derive(Drop)]
pub enum Clause {
    Match(MatchClause),
    Unwind(Unwind),
    Update(Update),
}

/// MATCH: the parts of the graph that fit all the patterns.
#[derive(Drop)]
pub struct MatchClause {
    /// Whether OPTIONAL stands in front.
    pub optional: bool,
    pub patterns: Items<Pattern>,
    /// The condition of its WHERE.
    pub filter: Option<Expr>,
}

/// UNWIND: a row for each element of a list.
#[derive(Drop)]
pub struct Unwind {
    pub list: Expr,
    /// The name of the element.
    pub name: Name,
}

/// A clause that writes.
#[derive(Drop)]
pub enum Update {
    Create(Items<Pattern>),
    Set(Items<SetItem>),
    Remove(Items<RemoveItem>),
    Delete {
        /// Whether DETACH stands in front: edges go with their ends.
        detach: bool,
        names: Items<Name>,
    },
}

/// One item of SET.
#[derive(Drop)]
pub enum SetItem {
    /// The property of the object that the first name stands for gets a value.
    Prop(Name, Name, Expr),
    /// The vertex that the name stands for gets labels.
    Labels(Name, Items<Name>),
}

/// One item of REMOVE.
#[derive(Drop)]
pub enum RemoveItem {
    /// The object that the first name stands for loses a property.
    Prop(Name, Name),
    /// The vertex that the name stands for loses labels.
    Labels(Name, Items<Name>),
}
