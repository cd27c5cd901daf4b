/// Where an expression stands.
#[derive(Clone, Copy)]
pub enum Place {
    /// Names are to be in scope, and no aggregate may stand.
    Plain,
    /// In an item with an aggregate: aggregates may stand, and no name beside them.
    Grouped,
    /// Names are not asked for, and no aggregate may stand. So this place tells whether there is one.
    Seeking,
}
