// What a program means.

ghost use Rattle.std.specs.Prelude.{◌≡◌, ℤ, Some, map, IfOk, IfSome};
ghost use Rattle.cxx_ast.specs.View.{checked_of};
ghost use Rattle.meaning_forms.specs.Meaning.{after_main, global_object};
ghost use Rattle.meaning_forms.specs.Outcome.{Result as Outcome};
ghost use Rattle.meaning_forms.specs.World.{World as WorldMeant};
ghost use Rattle.scope_world.specs.Gives.{Gives, IsKnown};
ghost use Rattle.scope_world.specs.Objects.{part_of};
ghost use Rattle.scope_world.specs.declared.object.Part.{Cell};
ghost use Rattle.scope_meaning.specs.Mean.{IsRun, Tells, meant};
ghost use Rattle.scope_meaning.specs.Modules.{cleaned_by, kept_of, rests_of};

use crate::calls::call;
use crate::levels::is_shallow;
use crate::modules::{Begins, Modules};
use crate::{Item, MeanEnd, NoMemory};
use cxx_ast::program::Checked;
use eh_outer::Module;
use foreign_host::Host;
use scope_flow::Callee;
use scope_world::{Context, Guards, Halt, Installed, Numbers, Part, Reference, World};
use std::alloc::Global;
use std::marker::{Brand, PhantomData};
use std::mem;

/// What a program writes, how it ends, and the greatest number of calls that were open at once.
#[derive(Drop)]
pub struct Meaning {
    pub items: Vec<Item>,
    pub end: MeanEnd,
    pub deepest: u64,
}

/// What a run leaves: its end, or none where memory was wanting, what was written, and the modules.
pub struct Ran<M> {
    pub end: Option<MeanEnd>,
    pub items: Vec<Item>,
    pub deepest: u64,
    pub modules: Vec<M>,
}

// The end of a program; none where memory ran out. No exception comes out of main, since it would be doomed.
fn end_of(outcome: Result<i32, Halt>) -> Option<MeanEnd>
    ensures end { (m : Outcome ℤ) (w : WorldMeant) → Gives m outcome w → IfSome result (λ end. end ≡ (after_main m).end) }
    ensures known { IfSome result (λ end. IsKnown outcome) }
{
    match outcome {
        Ok(value) => Some(MeanEnd::Exit(value)),
        Err(halt) => match halt {
            Halt::Cancelled(value) => Some(MeanEnd::Exit(value)),
            Halt::Exited(value) => Some(MeanEnd::Exit(value)),
            Halt::Thrown(_) => Some(MeanEnd::Aborted),
            Halt::Aborted => Some(MeanEnd::Aborted),
            Halt::Undefined => Some(MeanEnd::Undefined),
            Halt::OutOfTurns => Some(MeanEnd::OutOfTurns),
            Halt::Deep => Some(MeanEnd::Deep),
            Halt::NoMemory => None,
        },
    }
}

// The objects of the globals, each with its first value.
fn global_objects(alloc: Global, globals: &[i32]) -> Result<Vec<Part>, NoMemory>
    ensures { IfOk result (λ objects. objects.items ≡ map (λ v. Cell (Some v)) globals.now) }
{
    globals
        .iter()
        .map(|value| Part::Cell(Some(*value)))
        .collect(alloc)
}

// The run of a program whose modules begin with given views.
fn run_from<M: Module, K: Begins>(
    alloc: Global,
    program: &Checked,
    objects: Vec<Part>,
    input: Vec<u8>,
    modules: Vec<M>,
    turns: u64,
) -> Ran<M>
    requires { map M.view modules.items ≡ K.views }
    ensures { map part_of objects.items ≡ map global_object program.now.globals.items → IsRun (meant (checked_of program.now) input.items (map M.view modules.items) turns) (map M.view modules.items) (map M.view result.modules.items) result.end result.items.items result.deepest }
{
    let mut w = World {
        objects,
        input,
        read: 0,
        live: Vec::new(alloc),
        last_number: 0,
        outside: Modules::<M, K> {
            host: Host::new(modules),
            items: Vec::new(alloc),
            of: PhantomData,
        },
        installed: Installed {
            terminate: None,
            unexpected: None,
        },
        turns,
        deepest: 0,
    };
    let c = Context {
        alloc,
        program,
        handled: &Numbers::None,
        travelling: &Numbers::None,
        guards: &Guards::None,
        ending: false,
        depth: 0,
    };
    let main = Callee::Function(program.main);
    let outcome = call(&c, &mut w, main, &Reference::whole(alloc, 0), &[]);
    let end = end_of(outcome);
    let (deepest, outside) = w.into_parts();
    let Modules { host, items, of: _ } = outside;
    let Host { modules } = host;
    Ran {
        end,
        items,
        deepest,
        modules,
    }
}

// The run of a program.
fn run<M: Module>(
    alloc: Global,
    program: &Checked,
    objects: Vec<Part>,
    input: Vec<u8>,
    modules: Vec<M>,
    turns: u64,
) -> Ran<M>
    ensures { map part_of objects.items ≡ map global_object program.now.globals.items → IsRun (meant (checked_of program.now) input.items (map M.view modules.items) turns) (map M.view modules.items) (map M.view result.modules.items) result.end result.items.items result.deepest }
{
    run_from::<M, Brand>(alloc, program, objects, input, modules, turns)
}

/// The meaning of a program with an input, modules, turns to spend, and at most 128 open calls.
///
/// The modules give the replies that the meaning takes, and clean the tokens of its cleanups in order, as far as their room goes. After
/// want of memory they hold what the calls so far left. A program in which a call would go more than 600 levels deep, of blocks, operators,
/// variables and parts of its object, is not begun: no source that was read and checked has one.
///
/// ```rust
/// let meaning = mean(alloc, &checked, b"", &mut modules, 1_000)?;
/// assert_eq!(rt; meaning.end, MeanEnd::Exit(0));
/// ```
pub fn mean<M: Module>(
    alloc: Global,
    program: &Checked,
    input: &[u8],
    modules: &mut Vec<M>,
    turns: u64,
) -> Result<Meaning, NoMemory>
    ensures meaning { IfOk result (λ answer. Tells answer (meant (checked_of program.now) input.now (map M.view modules.old.items) turns)) }
    ensures replies { IfOk result (λ answer. rests_of (map M.view modules.new.items) ≡ (meant (checked_of program.now) input.now (map M.view modules.old.items) turns).replies) }
    ensures cleaned { IfOk result (λ answer. map kept_of (map M.view modules.new.items) ≡ map kept_of (cleaned_by answer.items.items (map M.view modules.old.items))) }
{
    if !is_shallow(program) {
        return Err(NoMemory);
    }
    let objects = global_objects(alloc, program.globals.as_slice())?;
    let input = Vec::from_slice(alloc, input)?;
    let outside = mem::replace(modules, Vec::new(alloc));
    let ran = run(alloc, program, objects, input, outside, turns);
    let Ran {
        end,
        items,
        deepest,
        modules: left,
    } = ran;
    *modules = left;
    match end {
        Some(end) => Ok(Meaning {
            items,
            end,
            deepest,
        }),
        None => Err(NoMemory),
    }
}
