// Which expressions make calls.
ghost use Rattle.std.specs.Prelude.{◌≡◌};
ghost use Rattle.cxx_ast.specs.Plain.{Expressions, expression_then};
ghost use Rattle.cxx_ast.specs.View.{expression_of, expressions_of};
ghost use Rattle.region_forms.specs.LowerExpression as rules;
ghost use Rattle.region_ir.specs.Passed.{calls_among};

use cxx_ast::expression::Expr;

/// Whether an expression makes a call.
pub fn has_call(e: &Expr) -> bool
    ensures { result ≡ rules.has_call (expression_of e.now) }
{
    match e {
        Expr::Number(_, _) | Expr::Path(_) => false,
        Expr::Paren(inner, _) | Expr::Unary(_, inner, _) => has_call(inner),
        Expr::Binary(_, left, right) => has_call(left) || has_call(right),
        Expr::Call(_, _) | Expr::StdCall(_, _, _) => true,
    }
}

/// How many of the expressions make calls.
pub fn calls_among(es: &[Expr]) -> usize
    ensures { result ≡ calls_among (expressions_of es.now) }
{
    let mut calls = 0;
    for e in es {
        calls += usize::from(has_call(e));
    }
    calls
}

/// How many behind the first of some expressions make calls, of which so many do.
pub fn calls_behind(first: &Expr, calls: usize) -> usize
    ensures { (es : Expressions) → calls ≡ calls_among (expression_then (expression_of first.now) es) → result ≡ calls_among es }
{
    if has_call(first) {
        calls.saturating_sub(1)
    } else {
        calls
    }
}
