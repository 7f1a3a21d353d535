// The members of a class and of its bases, and which classes are derived from which.
ghost use Rattle.std.specs.Prelude.{ℕ, suc, ◌≡◌, length, None, slice_get};
ghost use Rattle.cxx_ast.specs.Lookup.{member_of, derives};
ghost use Rattle.cxx_rules.specs.MeaningOf.{meaning_of, told, base_of};

use crate::environment::Environment;
use crate::lookup::{Meaning, own_member};

// What a class says of a name: what it means, or in which class it is sought next.
#[derive(Drop)]
pub enum Step<'e, 't> {
    Here(Meaning<'e, 't>),
    Base(usize),
}

// What a class says of a name.
fn step_in<'e, 't>(
    env: &'e Environment<'t>,
    class: usize,
    limit: Option<u32>,
    text: &[u8],
) -> Step<'e, 't>
    ensures { (n : ℕ) → member_of (suc n) env.now class limit text.now ≡ told (λ b. member_of n env.now b limit text.now) result }
{
    match env.class(class) {
        None => Step::Here(Meaning::Unknown),
        Some(c) => match own_member(limit, text, class, c) {
            Some(found) => Step::Here(found.meaning),
            None => match c.base() {
                None => Step::Here(Meaning::Unknown),
                Some(base) => Step::Base(base),
            },
        },
    }
}

// What a name means as a member of a class or of its bases.
pub fn member<'e, 't>(
    env: &'e Environment<'t>,
    class: usize,
    limit: Option<u32>,
    text: &[u8],
) -> Meaning<'e, 't>
    ensures { meaning_of result ≡ member_of (length env.now.classes) env.now class limit text.now }
{
    if env.has_no_member(text) {
        return Meaning::Unknown;
    }
    let mut class = class;
    let count = env.class_count();
    for _ in 0..count {
        match step_in(env, class, limit, text) {
            Step::Here(meaning) => return meaning,
            Step::Base(base) => class = base,
        }
    }
    Meaning::Unknown
}

// The base of a class.
fn base(env: &Environment<'_>, class: usize) -> Option<usize>
    ensures { result ≡ base_of env.now class }
{
    match env.class(class) {
        None => None,
        Some(c) => c.base(),
    }
}

/// A class is another or is derived from it.
pub fn derives(env: &Environment<'_>, class: usize, from: usize) -> bool
    ensures { result ≡ derives env.now class from }
{
    let mut class = class;
    let count = env.class_count();
    for _ in 0..count {
        if class == from {
            return true;
        }
        match base(env, class) {
            None => return false,
            Some(next) => class = next,
        }
    }
    false
}
