use crate::{AggFun, CmpOp, Fun, ProdOp, SumOp};
use graph_value::{Name, Value};
use sqlite_items::{Boxed, Items};

/// An expression.
#[cycle(expr)]
#[derive(Drop)]
pub enum Expr {
    /// A number, a text, a truth value or null. The least integer stands here with its sign.
    Lit(Value),
    Var(Name),
    List(Items<Expr>),
    Call(Fun, Items<Expr>),
    /// `count(*)`.
    CountRows,
    /// An aggregate: a function of all the values that `of` has in a group.
    Agg {
        fun: AggFun,
        distinct: bool,
        of: Boxed<Expr>,
    },
    /// CASE: the first of `whens` whose condition holds, or where there is `of`, is equal to it.
    Case {
        of: Option<Boxed<Expr>>,
        whens: Items<(Expr, Expr)>,
        other: Option<Boxed<Expr>>,
    },
    Or(Items<Expr>),
    Xor(Items<Expr>),
    And(Items<Expr>),
    Not(Boxed<Expr>),
    /// A chain of comparisons: each operand with the next.
    Cmp(Boxed<Expr>, Items<(CmpOp, Expr)>),
    /// Tests of what the first operand gives, from the left.
    Pred(Boxed<Expr>, Items<PredOp>),
    Sum(Boxed<Expr>, Items<(SumOp, Expr)>),
    Prod(Boxed<Expr>, Items<(ProdOp, Expr)>),
    /// A sign in front.
    Sign(SumOp, Boxed<Expr>),
    /// What is asked of the operand, from the left.
    Post(Boxed<Expr>, Items<PostOp>),
}

/// A test behind its operand.
#[cycle(expr)]
#[derive(Drop)]
pub enum PredOp {
    /// IN.
    OneOf(Expr),
    /// STARTS WITH.
    Starts(Expr),
    /// ENDS WITH.
    Ends(Expr),
    Contains(Expr),
    IsNull,
    IsNotNull,
}

/// What is asked of the operand in front.
#[cycle(expr)]
#[derive(Drop)]
pub enum PostOp {
    /// A property, behind a point.
    Prop(Name),
    /// An element, between brackets.
    At(Expr),
    /// Whether all these labels are there.
    Labels(Items<Name>),
}
