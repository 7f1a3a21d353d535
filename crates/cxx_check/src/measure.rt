// The measures of a function by which its variables are too large.
ghost use Rattle.std.specs.Prelude.{◌≡◌, ◌+◌, min};
ghost use Rattle.cxx_ast.specs.Sizes.{nothing, most_in, most_in_value, most_of};
ghost use Rattle.cxx_ast.specs.View.{expression_of, expressions_of, option_of};
ghost use Rattle.cxx_check.specs.Measured.{capped, both_of, round_of, operator_of, with_argument};

use cxx_ast::expression::Expr;

// The first number of bytes that is too great.
const LIMIT: u32 = 1537;

/// The bytes of variables, the levels of the deepest expression, and the most arguments of one statement, declaration or
/// initialiser. None is counted beyond 1,537, which is too much.
#[derive(Clone, Copy, Debug, Drop, PartialEq, Eq)]
pub struct Measure {
    pub bytes: u32,
    pub levels: u32,
    pub arguments: u32,
}

// The sum of two numbers, or the limit.
fn sum(a: u32, b: u32) -> u32
    ensures { result ≡ min (a + b) 1537 }
{
    a.saturating_add(b).min(LIMIT)
}

impl Measure {
    /// Neither variables nor expressions.
    #[tactic(auto, unfolding(crate::specs::Measured::capped))]
    pub fn nothing() -> Self
        ensures { result ≡ capped 0 nothing }
    {
        Measure {
            bytes: 0,
            levels: 0,
            arguments: 0,
        }
    }

    /// Variables of so many bytes.
    #[tactic(auto, unfolding(crate::specs::Measured::capped))]
    pub fn of_bytes(bytes: u32) -> Self
        ensures { result ≡ capped bytes nothing }
    {
        Measure {
            bytes: bytes.min(LIMIT),
            levels: 0,
            arguments: 0,
        }
    }

    /// What stands here and there.
    #[tactic(auto, unfolding(crate::specs::Measured::both_of))]
    pub fn and(self, other: Measure) -> Self
        ensures { result ≡ both_of self other }
    {
        Measure {
            bytes: sum(self.bytes, other.bytes),
            levels: self.levels.max(other.levels),
            arguments: self.arguments.max(other.arguments),
        }
    }

    // A number or a path.
    #[tactic(auto, unfolding(crate::specs::Measured::capped))]
    fn single() -> Self
        ensures { result ≡ capped 0 (record { levels = 1; arguments = 0 }) }
    {
        Measure {
            bytes: 0,
            levels: 1,
            arguments: 0,
        }
    }

    // An expression round this one.
    #[tactic(auto, unfolding(crate::specs::Measured::round_of))]
    fn round(self) -> Self
        ensures { result ≡ round_of self }
    {
        Measure {
            bytes: 0,
            levels: sum(self.levels, 1),
            arguments: self.arguments,
        }
    }

    // An operator between this and another operand.
    #[tactic(auto, unfolding(crate::specs::Measured::operator_of))]
    fn operator(self, other: Measure) -> Self
        ensures { result ≡ operator_of self other }
    {
        Measure {
            bytes: 0,
            levels: sum(self.levels.max(other.levels), 1),
            arguments: sum(self.arguments, other.arguments),
        }
    }

    // Arguments with one more.
    #[tactic(auto, unfolding(crate::specs::Measured::with_argument))]
    fn with_argument(self, other: Measure) -> Self
        ensures { result ≡ with_argument self other }
    {
        Measure {
            bytes: 0,
            levels: self.levels.max(other.levels),
            arguments: sum(sum(self.arguments, 1), other.arguments),
        }
    }
}

/// An expression.
#[tactic(auto, using(cxx_ast::proofs::Rows::rows, crate::proofs::MeasureLaws::measures))]
#[cycle(expressions)]
pub fn expression(e: &Expr) -> Measure
    ensures { result ≡ capped 0 (most_in (expression_of e.now)) }
{
    match e {
        Expr::Number(_, _) => Measure::single(),
        Expr::Path(_) => Measure::single(),
        Expr::Paren(inner, _) => expression(inner).round(),
        Expr::Unary(_, inner, _) => expression(inner).round(),
        Expr::Binary(_, a, b) => expression(a).operator(expression(b)),
        Expr::Call(_, args) => arguments(args.as_slice()).round(),
        Expr::StdCall(_, args, _) => arguments(args.as_slice()).round(),
    }
}

/// Arguments.
#[tactic(auto, using(crate::proofs::MeasureLaws::arguments_behind_is))]
#[cycle(expressions)]
pub fn arguments(es: &[Expr]) -> Measure
    ensures { result ≡ capped 0 (most_of (expressions_of es.now)) }
{
    let mut measure = Measure::nothing();
    for e in es {
        measure = measure.with_argument(expression(e));
    }
    measure
}

/// An expression, where there is one.
pub fn value(e: &Option<Expr>) -> Measure
    ensures { result ≡ capped 0 (most_in_value (option_of expression_of e.now)) }
{
    match e {
        None => Measure::nothing(),
        Some(e) => expression(e),
    }
}
