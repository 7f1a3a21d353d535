// Whether the declarations of a function agree.
ghost use Rattle.std.specs.Prelude.{◌≡◌, ◌&&◌, true, is_some, map, position};
ghost use Rattle.cxx_ast.specs.Environment.{same_kind};
ghost use Rattle.cxx_ast.specs.Broken.{same_passing, same_parameters, has_kind, all_in, same_allowed, agree};
ghost use Rattle.cxx_rules.specs.KindOf.{kind_of, kinds_of};

use crate::entry::{Passing, Signature};
use crate::kind::Kind;

// Two parameters are of the same type.
fn same_passing(p: &Passing, q: &Passing) -> bool
    ensures { result ≡ same_passing p.now q.now }
{
    p.kind().is(q.kind()) && p.is_reference() == q.is_reference() && p.is_const() == q.is_const()
}

// Parameters are of the same types.
fn same_parameters(ps: &[Passing], qs: &[Passing]) -> bool
    ensures { result ≡ same_parameters ps.now qs.now }
{
    if ps.len() != qs.len() {
        return false;
    }
    for i in 0..ps.len() {
        if !same_passing(&ps[i], &qs[i]) {
            return false;
        }
    }
    true
}

// A list has a type at a place.
fn is_at(kind: Kind, kinds: &[Kind], place: usize) -> bool
    ensures { result ≡ true → has_kind (kind_of kind) (map kind_of kinds.now) ≡ true }
{
    match kinds.get(place) {
        None => false,
        Some(k) => k.is(kind),
    }
}

// The first place of a type in a list.
fn place_in(kind: Kind, kinds: &[Kind]) -> Option<usize>
    ensures { result ≡ position (λ k. same_kind (kind_of k) (kind_of kind)) kinds.now }
{
    kinds.iter().position(|k| k.is(kind))
}

// Where a list has a type. It is sought beside a place first, since two declarations mostly name their types in one order, or in its reverse.
fn place_near(kind: Kind, kinds: &[Kind], near: usize) -> Option<usize>
    ensures { is_some result ≡ has_kind (kind_of kind) (map kind_of kinds.now) }
{
    let next = near.saturating_add(1);
    if is_at(kind, kinds, next) {
        return Some(next);
    }
    let last = near.saturating_sub(1);
    if is_at(kind, kinds, last) {
        return Some(last);
    }
    place_in(kind, kinds)
}

// Each type of a list is in another.
fn all_in(kinds: &[Kind], others: &[Kind]) -> bool
    ensures { result ≡ all_in (map kind_of kinds.now) (map kind_of others.now) }
{
    let mut near = 0;
    for k in kinds {
        match place_near(*k, others, near) {
            None => return false,
            Some(place) => near = place,
        }
    }
    true
}

// Two specifications allow the same set of types.
fn same_allowed(first: &Option<Vec<Kind>>, second: &Option<Vec<Kind>>) -> bool
    ensures { result ≡ same_allowed (kinds_of first.now) (kinds_of second.now) }
{
    match (first, second) {
        (None, None) => true,
        (Some(a), Some(b)) => {
            all_in(a.as_slice(), b.as_slice()) && all_in(b.as_slice(), a.as_slice())
        }
        _ => false,
    }
}

/// Two declarations agree.
pub fn agree(s: &Signature<'_>, t: &Signature<'_>) -> bool
    ensures { result ≡ agree s.now t.now }
{
    s.result().is(t.result())
        && same_parameters(s.parameters(), t.parameters())
        && same_allowed(s.allowed(), t.allowed())
}
