//! What a kind of token stands for in the tree.

ghost use Rattle.std.specs.Prelude.{◌≡◌};
ghost use Rattle.cypher_parse.specs.Words as words;

use crate::Kind;
use cypher_syntax::{AggFun, CmpOp, Fun, ProdOp, SumOp};

pub(crate) fn comparison_of(kind: Kind) -> CmpOp
    ensures { result ≡ words.comparison_of kind }
{
    match kind {
        Kind::Equal => CmpOp::Eq,
        Kind::NotEqual => CmpOp::Ne,
        Kind::Less => CmpOp::Lt,
        Kind::LessOrEqual => CmpOp::Le,
        Kind::Greater => CmpOp::Gt,
        _ => CmpOp::Ge,
    }
}

pub(crate) fn sum_sign_of(kind: Kind) -> SumOp
    ensures { result ≡ words.sum_sign_of kind }
{
    match kind {
        Kind::Plus => SumOp::Plus,
        _ => SumOp::Minus,
    }
}

pub(crate) fn product_sign_of(kind: Kind) -> ProdOp
    ensures { result ≡ words.product_sign_of kind }
{
    match kind {
        Kind::Star => ProdOp::Times,
        Kind::Slash => ProdOp::Over,
        _ => ProdOp::Rest,
    }
}

pub(crate) fn function_for(kind: Kind) -> Fun
    ensures { result ≡ words.function_for kind }
{
    match kind {
        Kind::IdWord => Fun::Id,
        Kind::LabelsWord => Fun::Labels,
        Kind::TypeWord => Fun::Kind,
        Kind::StartNodeWord => Fun::StartNode,
        Kind::EndNodeWord => Fun::EndNode,
        Kind::KeysWord => Fun::Keys,
        Kind::SizeWord => Fun::Size,
        Kind::HeadWord => Fun::Head,
        Kind::LastWord => Fun::Last,
        Kind::AbsWord => Fun::Abs,
        Kind::ToStringWord => Fun::ToText,
        _ => Fun::ToInteger,
    }
}

pub(crate) fn aggregate_for(kind: Kind) -> AggFun
    ensures { result ≡ words.aggregate_for kind }
{
    match kind {
        Kind::SumWord => AggFun::Sum,
        Kind::MinWord => AggFun::Min,
        Kind::MaxWord => AggFun::Max,
        _ => AggFun::Collect,
    }
}
