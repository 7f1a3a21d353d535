//! How control leaves scopes: terminate, throwing, what is destroyed on the way, handlers, and specifications.
//!
//! What is done inside a call is left to what makes the calls, `Calls`.
#![tactic(auto, using(crate::proofs::Passing::passing))]

mod callee;
mod construct;
mod destroy;
mod handler;
mod names;
mod specification;
mod terminating;
mod throw;

pub use callee::{Callee, Calls, Constructor};
pub use construct::{
    constructor_for, copy_constructor, copy_object, default_object, destructor_place,
};
pub use destroy::{Leaving, after_part, after_scope};
pub use handler::{after_handler, entered, handler_for, new_copy, own_type};
pub use names::{
    Parameters, callee_bound, constructor_parameters, function_named, lvalue_of, names_of,
    parameters_for, receiver,
};
pub use specification::{after_extent, after_noexcept};
pub use std::alloc::AllocError as NoMemory;
pub use terminating::terminate;
pub use throw::{call_module, rethrow, throw_built};
