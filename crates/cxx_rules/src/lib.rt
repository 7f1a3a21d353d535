//! The static rules of a program, part by part: names and scopes, types and conversions, references and const, calls and
//! constructions, statements and handlers, initialisers and bodies. Each call says which refusal answers for its part of the
//! tree: the broken rule at the least place, and there the least number.
#![tactic(auto)]

mod agree;
mod call;
mod class;
mod construct;
mod entry;
mod environment;
mod expression;
mod found;
mod function;
mod handler;
mod initialiser;
mod judgement;
mod kind;
mod lookup;
mod lvalue;
mod meaning;
mod member;
mod names;
mod object_call;
mod reference;
mod row;
mod rule;
mod scope;
mod signatures;
mod simple;
mod size;
mod statement;
mod texts;
mod thrown;
mod types;

pub use class::ClassEntry;
pub use construct::{
    are_copy_parameters, construction_found, constructor_with, declares_constructor, has_default,
};
pub use entry::{Field, Passing, Signature};
pub use environment::Environment;
pub use expression::{all_judged, judged};
pub use found::{Found, Refusal};
pub use function::{body_found, declare_params, function_scope, params_twice};
pub use judgement::{Judged, Reached, Target, Valued};
pub use kind::Kind;
pub use lookup::Meaning;
pub use lvalue::reached;
pub use meaning::{builtin_named, look, member_meaning, own_meaning};
pub use member::derives;
pub use names::{Names, Thing};
pub use object_call::std_builtin;
pub use row::Variable;
pub use rule::Rule;
pub use scope::Scope;
pub use signatures::Signatures;
pub use simple::declare_param;
pub use size::Size;
pub use statement::{declare_caught, statements};
pub use std::alloc::AllocError as NoMemory;
pub use texts::Texts;
pub use types::{
    class_found, class_of_name, head_types_found, is_bad_exception, passing, signature, type_found,
    type_kind,
};
