ghost use Rattle.std.specs.Prelude.{◌≡◌};
ghost use Rattle.cypher_print.specs.Printed.{level_at};
ghost use Rattle.cypher_syntax.specs.declared.tree.expr.Expr.{out-Expr};

use cypher_syntax::Expr;
use graph_value::Value;

/// How tightly the outermost operator of an expression binds.
pub(crate) fn level(e: &Expr) -> u8
    ensures { result ≡ level_at (out-Expr e.now) }
{
    match e {
        Expr::Or(_) => 0,
        Expr::Xor(_) => 1,
        Expr::And(_) => 2,
        Expr::Not(_) => 3,
        Expr::Cmp(_, _) => 4,
        Expr::Pred(_, _) => 5,
        Expr::Sum(_, _) => 6,
        Expr::Prod(_, _) => 7,
        Expr::Lit(Value::Int(n)) if *n < 0 => 8,
        Expr::Sign(_, _) => 8,
        Expr::Post(_, _) => 9,
        _ => 10,
    }
}
