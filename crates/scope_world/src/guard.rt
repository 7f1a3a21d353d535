// Which guard stops an exception. An exception is given by its type, or by none where it is foreign.
ghost use Rattle.std.specs.Prelude.{◌≡◌, map};
ghost use Rattle.cxx_ast.specs.View.{checked_of, option_of};
ghost use Rattle.meaning_forms.specs.Class.{derives, object_type, some_of};
ghost use Rattle.meaning_forms.specs.Guard as rules;
ghost use Rattle.meaning_forms.specs.Handler.{clause_of};
ghost use Rattle.scope_world.specs.Inward.{clause_in, guard_of, guards_of};
ghost use Rattle.scope_world.specs.Objects.{type_of};

use crate::class::{derives, object_type};
use crate::context::{Guard, Guards};
use crate::object::ObjectType;
use cxx_ast::program::Checked;
use cxx_ast::statement::Handler;
use cxx_ast::types::Ty;

/// Whether a clause matches an exception: one of its type or derived from it; `...` all.
pub fn matches(program: &Checked, thrown: Option<ObjectType>, clause: &Option<Ty>) -> bool
    ensures { result ≡ rules.matches (checked_of program.now) (option_of type_of thrown) (clause_of clause.now) }
{
    match (clause, thrown) {
        (None, _) => true,
        (Some(_), None) => false,
        (Some(ty), Some(thrown)) => derives(program, thrown, object_type(ty)),
    }
}

// Whether one of the types is that of an exception or a base of it.
fn is_listed(program: &Checked, types: &[Ty], thrown: ObjectType) -> bool
    ensures { result ≡ some_of (derives (checked_of program.now) (type_of thrown)) (map object_type types.now) }
{
    let mut rest = types;
    'types: while let Some((first, others)) = rest.split_first() {
        if derives(program, thrown, object_type(first)) {
            return true;
        }
        rest = others;
    }
    false
}

/// Whether a specification allows an exception; no foreign one.
pub fn allows(program: &Checked, types: &[Ty], thrown: Option<ObjectType>) -> bool
    ensures { result ≡ rules.allows (checked_of program.now) (map object_type types.now) (option_of type_of thrown) }
{
    match thrown {
        None => false,
        Some(thrown) => is_listed(program, types, thrown),
    }
}

// Whether a clause of the handlers matches an exception.
fn is_caught(program: &Checked, handlers: &[Handler], thrown: Option<ObjectType>) -> bool
    ensures { result ≡ some_of (rules.matches (checked_of program.now) (option_of type_of thrown)) (map clause_in handlers.now) }
{
    let mut rest = handlers;
    'handlers: while let Some((first, others)) = rest.split_first() {
        if matches(program, thrown, &first.ty) {
            return true;
        }
        rest = others;
    }
    false
}

fn stops(program: &Checked, thrown: Option<ObjectType>, guard: &Guard<'_>) -> bool
    ensures { result ≡ rules.stops (checked_of program.now) (option_of type_of thrown) (guard_of guard.now) }
{
    match guard {
        Guard::Try(handlers) => is_caught(program, handlers, thrown),
        Guard::Specification(types) => !allows(program, types, thrown),
        Guard::CatchAll | Guard::Barrier => true,
    }
}

/// Whether nothing stops an exception, or a barrier does, or, where it is foreign, a specification.
pub fn is_doomed(program: &Checked, guards: &Guards<'_>, thrown: Option<ObjectType>) -> bool
    ensures { result ≡ rules.is_doomed (checked_of program.now) (guards_of guards.now) (option_of type_of thrown) }
{
    match guards {
        Guards::None => true,
        Guards::More(guard, more) => {
            if stops(program, thrown, guard) {
                match guard {
                    Guard::Try(_) | Guard::CatchAll => false,
                    Guard::Specification(_) => thrown.is_none(),
                    Guard::Barrier => true,
                }
            } else {
                is_doomed(program, more, thrown)
            }
        }
    }
}
