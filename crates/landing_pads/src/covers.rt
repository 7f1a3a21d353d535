// Covers in the extent of landing pads.
ghost use Rattle.std.specs.Prelude.{◌≡◌, [], ◌∷◌, pos, IfOk};
ghost use Rattle.meaning_forms.specs.Arithmetic.{int_equal};
ghost use Rattle.meaning_forms.specs.Class.{some_of};
ghost use Rattle.linear_forms.specs.Emission as rules;
ghost use Rattle.linear_forms.specs.Tables.{padded};
ghost use Rattle.landing_pads.specs.View.{cover_of};

use crate::NoMemory;
use crate::filters::CLEANUP;
use crate::placed::{Chain, Cover};
use smallvec::SmallVec;
use std::alloc::Global;
use std::rc::Rc;

// The filters of a cover, innermost first.
fn chain_of(cover: &Cover) -> &[i64]
    ensures { result.now ≡ rules.chain_of (cover_of cover.now) }
{
    match cover {
        Cover::Bare | Cover::Unpadded => &[],
        Cover::Padded(_, chain) => chain.as_slice(),
    }
}

/// In the extent of a pad with filters, which come before those of the surroundings.
pub fn guarded(alloc: Global, pad: u32, filters: Chain, cover: &Cover) -> Result<Cover, NoMemory>
    ensures { IfOk result (λ c. cover_of c ≡ rules.guarded pad filters.items (cover_of cover.now)) }
{
    let mut chain = filters;
    for filter in chain_of(cover) {
        chain.push(*filter)?;
    }
    Ok(Cover::Padded(pad, Rc::new(alloc, chain)?))
}

// A chain of one filter.
fn one_filter(alloc: Global, filter: i64) -> Result<Chain, NoMemory>
    ensures { IfOk result (λ chain. chain.items ≡ filter ∷ []) }
{
    let mut chain = SmallVec::new(alloc);
    chain.push(filter)?;
    Ok(chain)
}

/// In the extent of a pad with a specification's filter.
pub fn limit_cover(alloc: Global, pad: u32, filter: i64, cover: &Cover) -> Result<Cover, NoMemory>
    ensures { IfOk result (λ c. cover_of c ≡ rules.guarded pad (filter ∷ []) (cover_of cover.now)) }
{
    let filters = one_filter(alloc, filter)?;
    let made = guarded(alloc, pad, filters, cover)?;
    Ok(made)
}

// Whether a chain has the filter of a cleanup.
fn has_cleanup(chain: &[i64]) -> bool
    ensures { result ≡ some_of (int_equal (pos 0)) chain.now }
{
    for filter in chain {
        if *filter == CLEANUP {
            return true;
        }
    }
    false
}

/// In the extent of a pad with a cleanup: one filter of a cleanup says as much as several.
pub fn cleaned(alloc: Global, pad: u32, cover: &Cover) -> Result<Cover, NoMemory>
    ensures { IfOk result (λ c. cover_of c ≡ padded pad (rules.with_cleanup (pos 0) (rules.chain_of (cover_of cover.now)))) }
{
    if let Cover::Padded(_, chain) = cover {
        if has_cleanup(chain.as_slice()) {
            return Ok(Cover::Padded(pad, chain.clone()?));
        }
    }
    guarded(alloc, pad, one_filter(alloc, CLEANUP)?, cover)
}
