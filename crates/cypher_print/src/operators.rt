ghost use Rattle.std.specs.Prelude.{◌≡◌};
ghost use Rattle.cypher_print.specs.Pieces.{cmp_text, sum_text, sign_text, prod_text, fun_text, agg_text};

use cypher_syntax::{AggFun, CmpOp, Fun, ProdOp, SumOp};

pub(crate) fn cmp_text(x: CmpOp) -> &'static str
    ensures { result.now ≡ cmp_text x }
{
    match x {
        CmpOp::Eq => " = ",
        CmpOp::Ne => " <> ",
        CmpOp::Lt => " < ",
        CmpOp::Le => " <= ",
        CmpOp::Gt => " > ",
        CmpOp::Ge => " >= ",
    }
}

pub(crate) fn sum_text(x: SumOp) -> &'static str
    ensures { result.now ≡ sum_text x }
{
    match x {
        SumOp::Plus => " + ",
        SumOp::Minus => " - ",
    }
}

pub(crate) fn sign_text(x: SumOp) -> &'static str
    ensures { result.now ≡ sign_text x }
{
    match x {
        SumOp::Plus => "+",
        SumOp::Minus => "-",
    }
}

pub(crate) fn prod_text(x: ProdOp) -> &'static str
    ensures { result.now ≡ prod_text x }
{
    match x {
        ProdOp::Times => " * ",
        ProdOp::Over => " / ",
        ProdOp::Rest => " % ",
    }
}

pub(crate) fn fun_text(x: Fun) -> &'static str
    ensures { result.now ≡ fun_text x }
{
    match x {
        Fun::Id => "id",
        Fun::Labels => "labels",
        Fun::Kind => "type",
        Fun::StartNode => "startNode",
        Fun::EndNode => "endNode",
        Fun::Keys => "keys",
        Fun::Size => "size",
        Fun::Head => "head",
        Fun::Last => "last",
        Fun::Abs => "abs",
        Fun::ToText => "toString",
        Fun::ToInteger => "toInteger",
        Fun::Range => "range",
        Fun::Coalesce => "coalesce",
    }
}

pub(crate) fn agg_text(x: AggFun) -> &'static str
    ensures { result.now ≡ agg_text x }
{
    match x {
        AggFun::Count => "count",
        AggFun::Sum => "sum",
        AggFun::Min => "min",
        AggFun::Max => "max",
        AggFun::Collect => "collect",
    }
}
