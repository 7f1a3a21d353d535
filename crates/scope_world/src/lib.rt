//! What a running program has: its objects, its exceptions, what is outside it, the variables of a call, and what an evaluation is given and answers.
#![tactic(auto)]

mod class;
mod context;
mod exception;
mod frame;
mod guard;
mod object;
mod operators;
mod outcome;
mod outside;
mod world;

pub use class::{
    base_of, body_of, class_named, derives, function_at, member_place, members_of, method_at,
    methods_of, object_type, parameters_of, parts_of, unset,
};
pub use context::{Context, Guard, Guards, Numbers};
pub use exception::{Exception, Installed, Live};
pub use frame::{Argument, Frame, Locals, Variable, bound_as, lvalue, parameters_bound};
pub use guard::{allows, is_doomed, matches};
pub use object::{ObjectType, Part, Parts, Reference};
pub use operators::{binary_value, decided, truth, unary_value};
pub use outcome::{Flow, Halt};
pub use outside::Outside;
pub use std::alloc::AllocError as NoMemory;
pub use world::World;
