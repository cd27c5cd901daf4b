use crate::Expr;
use graph_value::Name;
use sqlite_items::Items;

/// What WITH or RETURN makes of the rows.
#[derive(Drop)]
pub struct Projection {
    pub distinct: bool,
    /// Whether `*` stands in the place of the items, of which there are none then.
    pub star: bool,
    pub items: Items<Item>,
    pub sort: Items<Sort>,
    pub skip: Option<u64>,
    pub limit: Option<u64>,
    /// The condition of the WHERE behind a WITH.
    pub filter: Option<Expr>,
}

/// A column of WITH or RETURN.
#[derive(Drop)]
pub struct Item {
    pub expr: Expr,
    /// The name behind AS.
    pub name: Option<Name>,
}

/// A key of ORDER BY.
#[derive(Drop)]
pub struct Sort {
    pub expr: Expr,
    /// Whether the greatest comes first.
    pub down: bool,
}
