// What can be called, and what makes the calls inside a call.

ghost use Rattle.std.specs.Prelude.{ℕ, map};
ghost use Rattle.cxx_ast.specs.View.{checked_of};
ghost use Rattle.scope_flow.specs.Always.{full_call};
ghost use Rattle.scope_flow.specs.Asked.{callee_of};
ghost use Rattle.scope_world.specs.Gives.{Gives};
ghost use Rattle.scope_world.specs.Inward.{argument_of, context_of};
ghost use Rattle.scope_world.specs.Objects.{reference_of};
ghost use Rattle.scope_world.specs.Seen.{world_of};

use scope_world::{Argument, Context, Halt, Outside, Reference, World};

/// A constructor that a class declares, by its place among the class's functions, or one that it has without declaring it.
#[derive(Clone, Copy)]
pub enum Constructor {
    Declared(usize),
    ImplicitDefault,
    ImplicitCopy,
}

/// What can be called.
#[derive(Clone, Copy)]
pub enum Callee {
    Function(u32),
    Method(u32, usize),
    Constructor(u32, Constructor),
    Destructor(u32),
}

/// What makes the calls inside a call.
pub trait Calls<G: Outside> {
    /// A call that is made with so many open comes out as it means.
    ghost answers: { Self → ℕ → Type 0 };

    /// A call of a callee on an object with arguments.
    fn call(
        &self,
        c: &Context<'_>,
        w: &mut World<G>,
        callee: Callee,
        this: &Reference,
        given: &[Argument],
    ) -> Result<i32, Halt>
        requires { answers self.now c.now.depth }
        ensures { Gives (full_call (checked_of c.now.program.now) (callee_of callee) (reference_of this.now) (map argument_of given.now) (context_of c.now) (world_of G.told c.now.depth w.old)) result (world_of G.told c.now.depth w.new) };
}
