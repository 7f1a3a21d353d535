// The value of an expression, and the calls that it makes.

ghost use Rattle.std.specs.Prelude.{◌≡◌, ◌∷◌, [], false, map, List};
ghost use Rattle.cxx_ast.specs.Plain.{binary, call};
ghost use Rattle.cxx_ast.specs.View.{checked_of, expression_of, expressions_of};
ghost use Rattle.cxx_ast.specs.declared.name.Builtin.TheVariants.{Module};
ghost use Rattle.cxx_ast.specs.declared.types.Ty.{Ty as TyMeant};
ghost use Rattle.meaning_forms.specs.Expression as rules;
ghost use Rattle.meaning_forms.specs.Call as call_rules;
ghost use Rattle.scope_world.specs.Gives.{Gives, GivesBy};
ghost use Rattle.scope_world.specs.Inward.{argument_of, context_of, frame_of};
ghost use Rattle.scope_world.specs.Objects.{reference_of};
ghost use Rattle.scope_world.specs.Seen.{world_of};
ghost use Rattle.scope_flow.specs.Always.{always};
ghost use Rattle.scope_flow.specs.Asked.{parameter_types_of};

use crate::Item;
use crate::arguments::{constructor_chosen, passed_object, value_at};
use crate::callees::{call_function, call_method, call_numbered_module};
use crate::lookup::read_named;
use cxx_ast::expression::{BinaryOp, Expr};
use cxx_ast::name::{Bound, Builtin, Name};
use cxx_ast::types::Ty;
use scope_flow::{
    Callee, Calls, Constructor, Parameters, callee_bound, constructor_parameters, function_named,
    names_of, parameters_for, receiver, terminate,
};
use scope_world::{
    Argument, Context, Frame, Halt, Numbers, Outside, Reference, World, binary_value, class_named,
    decided, lvalue, truth, unary_value,
};

#[cycle(expressions)]
#[tactic(auto, using(scope_flow::proofs::Passing::passing, crate::proofs::Evaluated::passed_computed, crate::proofs::Evaluated::passed_halted))]
fn passed_value<G: Outside, C: Calls<G>>(
    calls: &C,
    c: &Context<'_>,
    w: &mut World<G>,
    frame: &Frame<'_>,
    e: &Expr,
) -> Result<Argument, Halt>
    requires { C.answers calls.now c.now.depth }
    ensures some { (t : TyMeant) (types : List TyMeant) → rules.is_reference t ≡ false → GivesBy argument_of (rules.passed (always (checked_of c.now.program.now)) (frame_of frame.now) (t ∷ types) (expression_of e.now) (rules.value_of (always (checked_of c.now.program.now)) (frame_of frame.now) (expression_of e.now) (context_of c.now)) (world_of G.told c.now.depth w.old)) result (world_of G.told c.now.depth w.new) }
    ensures none { GivesBy argument_of (rules.passed (always (checked_of c.now.program.now)) (frame_of frame.now) [] (expression_of e.now) (rules.value_of (always (checked_of c.now.program.now)) (frame_of frame.now) (expression_of e.now) (context_of c.now)) (world_of G.told c.now.depth w.old)) result (world_of G.told c.now.depth w.new) }
{
    Ok(Argument::Value(value_of(calls, c, w, frame, e)?))
}

// The argument for the first of the parameters.
#[cycle(expressions)]
#[tactic(auto, using(scope_flow::proofs::Passing::passing, crate::proofs::Evaluated::passed_to_object, crate::proofs::Evaluated::passed_to_copy, crate::proofs::Evaluated::passed_to_int, crate::proofs::Evaluated::is_value))]
fn passed<G: Outside, C: Calls<G>>(
    calls: &C,
    c: &Context<'_>,
    w: &mut World<G>,
    frame: &Frame<'_>,
    parameters: Parameters<'_>,
    e: &Expr,
) -> Result<Argument, Halt>
    requires { C.answers calls.now c.now.depth }
    ensures { GivesBy argument_of (rules.passed (always (checked_of c.now.program.now)) (frame_of frame.now) (parameter_types_of parameters.entry) (expression_of e.now) (rules.value_of (always (checked_of c.now.program.now)) (frame_of frame.now) (expression_of e.now) (context_of c.now)) (world_of G.told c.now.depth w.old)) result (world_of G.told c.now.depth w.new) }
{
    match parameters {
        Parameters::CopyOf(class) => Ok(passed_object(c, w, frame, class, e)?),
        Parameters::Of(parameters) => match parameters.first() {
            None => passed_value(calls, c, w, frame, e),
            Some(first) => match &first.ty {
                Ty::ObjectRef(_, name) => Ok(passed_object(c, w, frame, class_named(name), e)?),
                Ty::IntRef(_) => Ok(Argument::Place(lvalue(c, w, frame, names_of(e))?)),
                _ => passed_value(calls, c, w, frame, e),
            },
        },
    }
}

/// Arguments are evaluated left to right.
#[cycle(expressions)]
#[tactic(auto, using(scope_flow::proofs::Passing::passing, crate::proofs::Gathered::none_gathered, crate::proofs::Gathered::gathered_more, crate::proofs::Gathered::gathered_halted))]
fn arguments<G: Outside, C: Calls<G>>(
    calls: &C,
    c: &Context<'_>,
    w: &mut World<G>,
    frame: &Frame<'_>,
    es: &[Expr],
    parameters: Parameters<'_>,
) -> Result<Vec<Argument>, Halt>
    requires { C.answers calls.now c.now.depth }
    ensures { GivesBy (λ v. map argument_of v.items) (rules.arguments (always (checked_of c.now.program.now)) (frame_of frame.now) (expressions_of es.now) (parameter_types_of parameters.entry) (context_of c.now) (world_of G.told c.now.depth w.old)) result (world_of G.told c.now.depth w.new) }
{
    let mut given = Vec::new(c.alloc);
    let mut wanted = parameters;
    let mut rest = es;
    'arguments: while let Some((first, others)) = rest.split_first() {
        let argument = passed(calls, c, w, frame, wanted, first)?;
        given.push(argument)?;
        wanted = wanted.behind();
        rest = others;
    }
    Ok(given)
}

// The call of a module, with its arguments.
#[inline(never)]
#[cycle(expressions)]
#[tactic(auto, using(scope_flow::proofs::Passing::passing, crate::proofs::Evaluated::module_called))]
fn module_called<G: Outside, C: Calls<G>>(
    calls: &C,
    c: &Context<'_>,
    w: &mut World<G>,
    frame: &Frame<'_>,
    es: &[Expr],
    parameters: Parameters<'_>,
) -> Result<i32, Halt>
    requires { C.answers calls.now c.now.depth }
    ensures { Gives (rules.builtin (always (checked_of c.now.program.now)) Module (expressions_of es.now) (rules.arguments (always (checked_of c.now.program.now)) (frame_of frame.now) (expressions_of es.now) (parameter_types_of parameters.entry) (context_of c.now)) (context_of c.now) (world_of G.told c.now.depth w.old)) result (world_of G.told c.now.depth w.new) }
{
    let given = arguments(calls, c, w, frame, es, parameters)?;
    call_numbered_module(calls, c, w, given.as_slice())
}

#[inline(never)]
#[cycle(expressions)]
#[tactic(auto, using(scope_flow::proofs::Passing::passing, crate::proofs::Evaluated::line_written, crate::proofs::Evaluated::exited_with, crate::proofs::Evaluated::cancelled_with))]
fn builtin<G: Outside, C: Calls<G>>(
    calls: &C,
    c: &Context<'_>,
    w: &mut World<G>,
    frame: &Frame<'_>,
    which: Builtin,
    es: &[Expr],
    parameters: Parameters<'_>,
) -> Result<i32, Halt>
    requires { C.answers calls.now c.now.depth }
    ensures { Gives (rules.builtin (always (checked_of c.now.program.now)) which (expressions_of es.now) (rules.arguments (always (checked_of c.now.program.now)) (frame_of frame.now) (expressions_of es.now) (parameter_types_of parameters.entry) (context_of c.now)) (context_of c.now) (world_of G.told c.now.depth w.old)) result (world_of G.told c.now.depth w.new) }
{
    match which {
        Builtin::WriteInt => {
            let given = arguments(calls, c, w, frame, es, parameters)?;
            w.emit(Item::Line(value_at(given.as_slice(), 0)))?;
            Ok(0)
        }
        Builtin::ReadByte => Ok(w.read_byte()),
        Builtin::Exit => {
            let given = arguments(calls, c, w, frame, es, parameters)?;
            Err(Halt::Exited(value_at(given.as_slice(), 0)))
        }
        Builtin::Module => module_called(calls, c, w, frame, es, parameters),
        Builtin::Cancel => {
            let given = arguments(calls, c, w, frame, es, parameters)?;
            Err(Halt::Cancelled(value_at(given.as_slice(), 0)))
        }
        Builtin::Terminate => Err(terminate(calls, c, w)),
        Builtin::SetTerminate => {
            w.installed.terminate = function_named(es);
            Ok(0)
        }
        Builtin::SetUnexpected => {
            w.installed.unexpected = function_named(es);
            Ok(0)
        }
        Builtin::Uncaught => Ok(truth(matches!(c.travelling, Numbers::More(_, _)))),
        Builtin::BadException => Ok(0),
    }
}

// The call of what a name is bound to, on the object that an lvalue names.
#[cycle(expressions)]
#[tactic(auto, using(scope_flow::proofs::Passing::passing, crate::proofs::Evaluated::function_called, crate::proofs::Evaluated::method_called, crate::proofs::Evaluated::module_called))]
fn called<G: Outside, C: Calls<G>>(
    calls: &C,
    c: &Context<'_>,
    w: &mut World<G>,
    frame: &Frame<'_>,
    bound: Bound,
    object: &[Name],
    es: &[Expr],
    parameters: Parameters<'_>,
) -> Result<i32, Halt>
    requires { C.answers calls.now c.now.depth }
    ensures { Gives (rules.called (always (checked_of c.now.program.now)) (frame_of frame.now) bound object.now (expressions_of es.now) (rules.arguments (always (checked_of c.now.program.now)) (frame_of frame.now) (expressions_of es.now) (parameter_types_of parameters.entry) (context_of c.now)) (context_of c.now) (world_of G.told c.now.depth w.old)) result (world_of G.told c.now.depth w.new) }
{
    match bound {
        Bound::Func(n) => {
            let given = arguments(calls, c, w, frame, es, parameters)?;
            call_function(calls, c, w, n, given.as_slice())
        }
        Bound::Method(class, place) => {
            let given = arguments(calls, c, w, frame, es, parameters)?;
            call_method(calls, c, w, frame, class, place, object, given.as_slice())
        }
        Bound::Builtin(Builtin::Module) => {
            let given = arguments(calls, c, w, frame, es, parameters)?;
            call_numbered_module(calls, c, w, given.as_slice())
        }
        Bound::Builtin(which) => builtin(calls, c, w, frame, which, es, parameters),
        _ => Ok(0),
    }
}

// The call of what `a.b.f` names.
#[cycle(expressions)]
#[tactic(auto, using(scope_flow::proofs::Passing::passing, crate::proofs::Evaluated::called_by))]
fn called_by_name<G: Outside, C: Calls<G>>(
    calls: &C,
    c: &Context<'_>,
    w: &mut World<G>,
    frame: &Frame<'_>,
    names: &[Name],
    es: &[Expr],
) -> Result<i32, Halt>
    requires { C.answers calls.now c.now.depth }
    ensures { Gives (rules.value_of (always (checked_of c.now.program.now)) (frame_of frame.now) (call names.now (expressions_of es.now)) (context_of c.now) (world_of G.told c.now.depth w.old)) result (world_of G.told c.now.depth w.new) }
{
    let bound = callee_bound(names);
    let object = receiver(names);
    let parameters = parameters_for(c.program, bound);
    called(calls, c, w, frame, bound, object, es, parameters)
}

// An operator on two operands; `&&` and `||` evaluate their right side only where it decides.
#[inline(never)]
#[cycle(expressions)]
#[tactic(auto, using(scope_flow::proofs::Passing::passing, crate::proofs::Evaluated::decided_so, crate::proofs::Evaluated::undecided, crate::proofs::Evaluated::right_halted))]
fn operated<G: Outside, C: Calls<G>>(
    calls: &C,
    c: &Context<'_>,
    w: &mut World<G>,
    frame: &Frame<'_>,
    op: BinaryOp,
    left: &Expr,
    right: &Expr,
) -> Result<i32, Halt>
    requires { C.answers calls.now c.now.depth }
    ensures { Gives (rules.value_of (always (checked_of c.now.program.now)) (frame_of frame.now) (binary op (expression_of left.now) (expression_of right.now)) (context_of c.now) (world_of G.told c.now.depth w.old)) result (world_of G.told c.now.depth w.new) }
{
    let x = value_of(calls, c, w, frame, left)?;
    match decided(op, x) {
        Some(value) => Ok(value),
        None => {
            let y = value_of(calls, c, w, frame, right)?;
            binary_value(op, x, y)
        }
    }
}

/// The value of an expression. Operands are evaluated left to right.
#[cycle(expressions)]
#[tactic(auto, using(scope_flow::proofs::Passing::passing, cxx_ast::proofs::Rows::rows))]
pub fn value_of<G: Outside, C: Calls<G>>(
    calls: &C,
    c: &Context<'_>,
    w: &mut World<G>,
    frame: &Frame<'_>,
    e: &Expr,
) -> Result<i32, Halt>
    requires { C.answers calls.now c.now.depth }
    ensures { Gives (rules.value_of (always (checked_of c.now.program.now)) (frame_of frame.now) (expression_of e.now) (context_of c.now) (world_of G.told c.now.depth w.old)) result (world_of G.told c.now.depth w.new) }
{
    match e {
        Expr::Number(value, _) => Ok(*value),
        Expr::Path(it) => read_named(c, w, frame, it.path.as_slice()),
        Expr::Paren(inner, _) => value_of(calls, c, w, frame, inner),
        Expr::Unary(op, inner, _) => {
            let x = value_of(calls, c, w, frame, inner)?;
            unary_value(*op, x)
        }
        Expr::Binary(op, left, right) => operated(calls, c, w, frame, *op, left, right),
        Expr::Call(callee, es) => {
            let names = callee.path.as_slice();
            called_by_name(calls, c, w, frame, names, es.as_slice())
        }
        Expr::StdCall(name, es, _) => {
            let es = es.as_slice();
            let none = Parameters::Of(&[]);
            called(calls, c, w, frame, name.bound, &[], es, none)
        }
    }
}

/// The value of an int's initialiser.
pub fn initial_value<G: Outside, C: Calls<G>>(
    calls: &C,
    c: &Context<'_>,
    w: &mut World<G>,
    frame: &Frame<'_>,
    es: &[Expr],
) -> Result<i32, Halt>
    requires { C.answers calls.now c.now.depth }
    ensures { Gives (call_rules.initial_value (always (checked_of c.now.program.now)) (frame_of frame.now) (expressions_of es.now) (context_of c.now) (world_of G.told c.now.depth w.old)) result (world_of G.told c.now.depth w.new) }
{
    match es.first() {
        None => Ok(0),
        Some(e) => value_of(calls, c, w, frame, e),
    }
}

/// An object of a class is built from arguments.
#[tactic(auto, using(scope_flow::proofs::Passing::passing, crate::proofs::Evaluated::built_by, crate::proofs::Evaluated::building_halted, crate::proofs::Evaluated::arguments_halted))]
pub fn construct<G: Outside, C: Calls<G>>(
    calls: &C,
    c: &Context<'_>,
    w: &mut World<G>,
    frame: &Frame<'_>,
    class: u32,
    es: &[Expr],
    target: &Reference,
) -> Result<(), Halt>
    requires { C.answers calls.now c.now.depth }
    ensures { Gives (rules.construct (always (checked_of c.now.program.now)) (frame_of frame.now) class (expressions_of es.now) (reference_of target.now) (context_of c.now) (world_of G.told c.now.depth w.old)) result (world_of G.told c.now.depth w.new) }
{
    let which = constructor_chosen(c, w, frame, class, es)?;
    let parameters = constructor_parameters(c.program, class, which);
    let given = arguments(calls, c, w, frame, es, parameters)?;
    calls.call(
        c,
        w,
        Callee::Constructor(class, which),
        target,
        given.as_slice(),
    )?;
    Ok(())
}
