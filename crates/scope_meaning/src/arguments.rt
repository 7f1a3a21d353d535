// Which constructor arguments select, and what is passed.

ghost use Rattle.std.specs.Prelude.{◌≡◌, ℕ, map, IfOk};
ghost use Rattle.cxx_ast.specs.View.{checked_of, expression_of, expressions_of};
ghost use Rattle.meaning_forms.specs.Frame.{lvalue as lvalue_rule};
ghost use Rattle.meaning_forms.specs.Running.{by_reference};
ghost use Rattle.meaning_forms.specs.World.{as_class};
ghost use Rattle.meaning_forms.specs.Expression as rules;
ghost use Rattle.scope_world.specs.Inward.{argument_of, frame_of};
ghost use Rattle.scope_world.specs.Seen.{world_of};
ghost use Rattle.scope_flow.specs.Asked.{constructor_of};

use crate::NoMemory;
use cxx_ast::expression::Expr;
use scope_flow::{Constructor, constructor_for, copy_constructor, lvalue_of, names_of};
use scope_world::{Argument, Context, Frame, ObjectType, Outside, World, derives, lvalue};

// Whether an expression is an lvalue of the class or of one derived from it.
fn is_of_class<G: Outside>(
    c: &Context<'_>,
    w: &World<G>,
    frame: &Frame<'_>,
    class: u32,
    e: &Expr,
) -> Result<bool, NoMemory>
    ensures { (d : ℕ) → IfOk result (λ b. b ≡ rules.is_of_class (checked_of c.now.program.now) (world_of G.told d w.now) (frame_of frame.now) class (rules.lvalue_of (expression_of e.now))) }
{
    match lvalue_of(e) {
        None => Ok(false),
        Some(names) => {
            let at = lvalue(c, w, frame, names)?;
            Ok(derives(c.program, w.type_of(&at), ObjectType::Class(class)))
        }
    }
}

/// A single argument of the class, or of one derived from it, selects the copy constructor, and else their number selects.
pub fn constructor_chosen<G: Outside>(
    c: &Context<'_>,
    w: &World<G>,
    frame: &Frame<'_>,
    class: u32,
    arguments: &[Expr],
) -> Result<Constructor, NoMemory>
    ensures { (d : ℕ) → IfOk result (λ k. constructor_of k ≡ rules.constructor_chosen (checked_of c.now.program.now) (world_of G.told d w.now) (frame_of frame.now) class (expressions_of arguments.now)) }
{
    match arguments {
        [only] => {
            if is_of_class(c, w, frame, class, only)? {
                Ok(copy_constructor(c.program, class))
            } else {
                Ok(constructor_for(c.program, class, 1))
            }
        }
        _ => Ok(constructor_for(c.program, class, arguments.len())),
    }
}

/// The value of the i-th argument of a built-in function.
pub fn value_at(given: &[Argument], place: usize) -> i32
    ensures { result ≡ rules.value_at (map argument_of given.now) place }
{
    match given.split_first() {
        None => 0,
        Some((Argument::Value(value), _)) if place == 0 => *value,
        Some((_, others)) if place > 0 => value_at(others, place - 1),
        _ => 0,
    }
}

/// An argument bound to a reference to an object of the class, or of a class derived from it.
pub fn passed_object<G: Outside>(
    c: &Context<'_>,
    w: &World<G>,
    frame: &Frame<'_>,
    class: u32,
    e: &Expr,
) -> Result<Argument, NoMemory>
    ensures { (d : ℕ) → IfOk result (λ a. argument_of a ≡ by_reference (as_class (world_of G.told d w.now) class (lvalue_rule (checked_of c.now.program.now) (world_of G.told d w.now) (frame_of frame.now) (rules.names_of (rules.lvalue_of (expression_of e.now)))))) }
{
    let at = lvalue(c, w, frame, names_of(e))?;
    Ok(Argument::Place(w.as_class(class, at)?))
}
