use graph_value::Name;

/// The first fault in an expression.
#[derive(Clone, Copy)]
pub enum Fault<'a> {
    /// A name isn't in scope.
    Unbound(&'a Name),
    /// An aggregate, or a name beside one, stands where it may not.
    AggregatePlace,
}
