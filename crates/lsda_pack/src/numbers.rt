// The ends of chains by numbers.
ghost use Rattle.std.specs.Prelude.{◌≡◌, ℕ, ℤ, Option, IfOk, OnOk, Some, map};
ghost use Rattle.std.specs.BTreeMap.{get};
ghost use Rattle.lsda_pack.specs.EndNumbers.{AreNumbered, AreNumbers, HaveNumbers, Keeps, end_cmp, end_number, filters_of};

use crate::NoMemory;
use std::alloc::Global;
use std::collections::BTreeMap;

/// A chain, and the numbers of its ends that are not empty, the shortest one's first.
#[derive(Drop)]
pub struct NumberedChain<'a> {
    pub filters: &'a [i64],
    pub ends: Vec<u64>,
}

// The number of the end that has this filter before the end with a number.
fn number_of(
    known: &mut BTreeMap<(i64, u64), u64>,
    filter: i64,
    behind: u64,
) -> Result<u64, NoMemory>
    requires { AreNumbers known.old }
    ensures numbers { OnOk result (AreNumbers known.new) }
    ensures keeps { OnOk result (Keeps (get end_cmp known.old) (get end_cmp known.new)) }
    ensures number { IfOk result (λ n. get end_cmp known.new (filter, behind) ≡ Some n) }
{
    if let Some(number) = known.get(&(filter, behind)) {
        return Ok(*number);
    }
    let number = known.len() as u64 + 1;
    known.insert((filter, behind), number)?;
    Ok(number)
}

// The numbers of the ends of a chain.
fn end_numbers(
    alloc: Global,
    known: &mut BTreeMap<(i64, u64), u64>,
    filters: &[i64],
) -> Result<Vec<u64>, NoMemory>
    requires { AreNumbers known.old }
    ensures numbers { OnOk result (AreNumbers known.new) }
    ensures keeps { OnOk result (Keeps (get end_cmp known.old) (get end_cmp known.new)) }
    ensures ends { IfOk result (λ ends. HaveNumbers (get end_cmp known.new) filters.now ends.items) }
{
    let mut ends = Vec::new(alloc);
    let mut number = 0;
    let mut rest = filters;
    'filters: while let Some((filter, front)) = rest.split_last() {
        number = number_of(known, *filter, number)?;
        ends.push(number)?;
        rest = front;
    }
    Ok(ends)
}

/// Chains with the numbers of their ends: equal ends have one number, and different ones have
/// different numbers.
pub fn numbered_chains<'a>(
    alloc: Global,
    chains: &'a [Vec<i64>],
) -> Result<Vec<NumberedChain<'a>>, NoMemory>
    ensures filters { IfOk result (λ numbered. filters_of numbered.items ≡ map (λ chain. chain.items) chains.now) }
    ensures ends { IfOk result (λ numbered. (known : ℤ × ℕ → Option ℕ) × AreNumbered known numbered.items) }
{
    let mut known = BTreeMap::new(alloc);
    let mut numbered = Vec::new(alloc);
    let mut rest = chains;
    'chains: while let Some((chain, others)) = rest.split_first() {
        let filters = chain.as_slice();
        numbered.push(NumberedChain {
            filters,
            ends: end_numbers(alloc, &mut known, filters)?,
        })?;
        rest = others;
    }
    Ok(numbered)
}
