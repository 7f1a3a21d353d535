// Which constructor builds an object, and how it builds the object's parts.

ghost use Rattle.std.specs.Prelude.{◌≡◌, map};
ghost use Rattle.cxx_ast.specs.View.{checked_of, function_of};
ghost use Rattle.scope_flow.specs.Always.{always};
ghost use Rattle.scope_flow.specs.Asked.{constructor_of, wanted_of};
ghost use Rattle.scope_world.specs.Gives.{Gives};
ghost use Rattle.scope_world.specs.Inward.{context_of};
ghost use Rattle.scope_world.specs.Objects.{reference_of};
ghost use Rattle.scope_world.specs.Seen.{world_of};
ghost use Rattle.meaning_forms.specs.Construct as rules;

use crate::callee::{Callee, Calls, Constructor};
use cxx_ast::declaration::{Func, FuncKind};
use cxx_ast::program::Checked;
use cxx_ast::types::{Param, Ty};
use scope_world::{Argument, Context, Halt, Outside, Reference, World, class_named, methods_of};

// The parameters of a copy constructor of the class: one `const T&` of it.
fn takes_copy(class: u32, parameters: &[Param]) -> bool
    ensures { result ≡ rules.takes_copy class parameters.now }
{
    match parameters {
        [only] => match &only.ty {
            Ty::ObjectRef(true, name) => class_named(name) == class,
            _ => false,
        },
        _ => false,
    }
}

/// Which of its functions a class is searched for: its copy constructor, any other for so many arguments, or its destructor.
#[derive(Clone, Copy)]
pub enum Wanted {
    Copy,
    With(usize),
    Destructor,
}

fn fits(class: u32, wanted: Wanted, function: &Func) -> bool
    ensures { result ≡ wanted_of class wanted (function_of function.now) }
{
    let copies = takes_copy(class, function.params.as_slice());
    match (wanted, function.kind) {
        (Wanted::Copy, FuncKind::Constructor) => copies,
        (Wanted::With(count), FuncKind::Constructor) => !copies && function.params.len() == count,
        (Wanted::Destructor, FuncKind::Destructor) => true,
        _ => false,
    }
}

// The place of the first function that fits.
fn place_of(class: u32, wanted: Wanted, functions: &[Func]) -> Option<usize>
    ensures { result ≡ rules.place_from 0 (wanted_of class wanted) (map function_of functions.now) }
{
    let mut place = 0;
    let mut rest = functions;
    'functions: while let Some((first, others)) = rest.split_first() {
        if fits(class, wanted, first) {
            return Some(place);
        }
        place += 1;
        rest = others;
    }
    None
}

/// The copy constructor of a class.
pub fn copy_constructor(program: &Checked, class: u32) -> Constructor
    ensures { constructor_of result ≡ rules.copy_constructor (checked_of program.now) class }
{
    match place_of(class, Wanted::Copy, methods_of(program, class)) {
        Some(place) => Constructor::Declared(place),
        None => Constructor::ImplicitCopy,
    }
}

/// The constructor of a class for so many arguments.
pub fn constructor_for(program: &Checked, class: u32, count: usize) -> Constructor
    ensures { constructor_of result ≡ rules.constructor_for (checked_of program.now) class count }
{
    match place_of(class, Wanted::With(count), methods_of(program, class)) {
        Some(place) => Constructor::Declared(place),
        None => Constructor::ImplicitDefault,
    }
}

/// The place of the declared destructor of a class.
pub fn destructor_place(program: &Checked, class: u32) -> Option<usize>
    ensures { result ≡ rules.destructor_place (checked_of program.now) class }
{
    place_of(class, Wanted::Destructor, methods_of(program, class))
}

/// An object is built by the default constructor of its class.
pub fn default_object<G: Outside, C: Calls<G>>(
    calls: &C,
    c: &Context<'_>,
    w: &mut World<G>,
    class: u32,
    target: &Reference,
) -> Result<(), Halt>
    requires { C.answers calls.now c.now.depth }
    ensures { Gives (rules.default_object (always (checked_of c.now.program.now)) class (reference_of target.now) (context_of c.now) (world_of G.told c.now.depth w.old)) result (world_of G.told c.now.depth w.new) }
{
    let which = constructor_for(c.program, class, 0);
    calls.call(c, w, Callee::Constructor(class, which), target, &[])?;
    Ok(())
}

/// An object is built by the copy constructor of its class.
pub fn copy_object<G: Outside, C: Calls<G>>(
    calls: &C,
    c: &Context<'_>,
    w: &mut World<G>,
    class: u32,
    target: &Reference,
    source: &Reference,
) -> Result<(), Halt>
    requires { C.answers calls.now c.now.depth }
    ensures { Gives (rules.copy_object (always (checked_of c.now.program.now)) class (reference_of target.now) (reference_of source.now) (context_of c.now) (world_of G.told c.now.depth w.old)) result (world_of G.told c.now.depth w.new) }
{
    let which = copy_constructor(c.program, class);
    let given = [Argument::Place(source.copied(c.alloc)?)];
    calls.call(
        c,
        w,
        Callee::Constructor(class, which),
        target,
        given.as_slice(),
    )?;
    Ok(())
}
