// What an evaluation is given from outside, and never hands on outwards.
ghost use Rattle.std.specs.Prelude.{◌≡◌, ◌==◌, not};
ghost use Rattle.meaning_forms.specs.Class.{contains, some_of};
ghost use Rattle.scope_world.specs.Inward.{numbers_of};

use cxx_ast::program::Checked;
use cxx_ast::statement::Handler;
use cxx_ast::types::Ty;
use std::alloc::Global;

/// Numbers of exceptions, newest first.
#[derive(Clone, Copy)]
pub enum Numbers<'a> {
    None,
    More(u64, &'a Numbers<'a>),
}

/// What may stop an exception on its way outwards.
#[derive(Clone, Copy)]
pub enum Guard<'a> {
    /// A try block with its handlers.
    Try(&'a [Handler]),
    /// What stops every exception and lets it be passed on.
    CatchAll,
    /// A function's specification.
    Specification(&'a [Ty]),
    Barrier,
}

/// Guards, innermost first.
#[derive(Clone, Copy)]
pub enum Guards<'a> {
    None,
    More(Guard<'a>, &'a Guards<'a>),
}

/// The program, the handled exceptions, once for each entered handler, those that travel, the guards, whether the terminate handler is
/// running, and how many calls are open.
#[derive(Clone, Copy)]
pub struct Context<'a> {
    pub alloc: Global,
    pub program: &'a Checked,
    pub handled: &'a Numbers<'a>,
    pub travelling: &'a Numbers<'a>,
    pub guards: &'a Guards<'a>,
    pub ending: bool,
    pub depth: u64,
}

impl Numbers<'_> {
    /// Whether the number stands among them.
    pub fn contains(&self, number: u64) -> bool
        ensures { result ≡ contains (numbers_of self.now) number }
    {
        match self {
            Numbers::None => false,
            Numbers::More(first, more) => *first == number || more.contains(number),
        }
    }

    /// Whether another than the number stands among them.
    pub fn contains_other(&self, number: u64) -> bool
        ensures { result ≡ some_of (λ n. not (n == number)) (numbers_of self.now) }
    {
        match self {
            Numbers::None => false,
            Numbers::More(first, more) => *first != number || more.contains_other(number),
        }
    }
}
