// What is read of an image, in the order of its addresses.
ghost use Rattle.std.specs.Prelude.{◌≡◌, IfOk, true};
ghost use Rattle.std.specs.List.Sorted.{IsPermutation};
ghost use Rattle.lsda_pack.specs.Reaches.{AreApart, swept_apart};

use crate::NoMemory;

/// A table, or something else that is read, from a first address up to an end.
#[derive(Clone, Copy, Drop)]
pub struct Reach {
    pub table: bool,
    pub first: u128,
    pub end: u128,
}

/// Addresses that are read, or bytes of the file, from a first one up to an end; and a place of the
/// file.
#[derive(Clone, Copy, Drop)]
pub struct Taken {
    pub first: u128,
    pub end: u128,
    pub place: u128,
}

/// What a table takes of memory, and of the file.
#[derive(Clone, Copy, Drop)]
pub struct TableTaken {
    pub memory: Taken,
    pub file: Taken,
}

// In the order of their addresses: each begins at or behind the ends of those before it that it may
// not meet.
fn swept_apart(reaches: &[Reach]) -> bool
    ensures { result ≡ swept_apart 0 0 reaches.now }
{
    let mut tables: u128 = 0;
    let mut others: u128 = 0;
    let mut rest = reaches;
    'reaches: while let Some((reach, behind)) = rest.split_first() {
        rest = behind;
        let first = reach.first;
        if first < reach.end {
            if first < tables {
                return false;
            }
            if reach.table {
                if first < others {
                    return false;
                }
                tables = reach.end;
            } else if others < reach.end {
                others = reach.end;
            }
        }
    }
    true
}

/// Whether no table shares bytes with another one or with anything else, as far as a sweep can
/// tell.
#[tactic(auto, using(crate::proofs::ReachesApart::apart_before))]
pub fn are_apart(reaches: &mut Vec<Reach>) -> Result<bool, NoMemory>
    ensures { IfOk result (λ apart. apart ≡ true → AreApart reaches.old.items) }
{
    reaches.sort_by_key(|reach| reach.first)?;
    Ok(swept_apart(reaches.as_slice()))
}
