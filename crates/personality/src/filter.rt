// Filters that stop what is thrown.
ghost use Rattle.std.specs.Prelude.{◌≡◌, Contains, true};
ghost use Rattle.lsda_read.specs.Names.{lists_named};
ghost use Rattle.table_forms.specs.Verdict.{allows, stops};
ghost use Rattle.personality.specs.Seen.{thrown_of};
ghost use Rattle.personality.specs.Named.{FilterIsNamed};

use crate::thrown::Thrown;
use lsda_read::Lsda;

/// Whether the list of a specification, counted from 1, has an entry that matches what is thrown.
#[tactic(auto, using(crate::proofs::NamedBy::indices_named))]
pub fn allows(table: &Lsda<'_>, thrown: &Thrown, list: u64) -> bool
    requires { Contains (lists_named table.now) list }
    ensures { result ≡ allows table.now (thrown_of thrown.now) list }
{
    let mut indices = table.spec_list(list);
    'indices: while let Some(index) = indices.next() {
        if thrown.matches(table.type_entry(index)) {
            return true;
        }
    }
    false
}

/// Whether a filter of a chain stops it: its type matches, or its list does not allow it.
pub fn stops(table: &Lsda<'_>, thrown: &Thrown, filter: i64) -> bool
    requires { FilterIsNamed table.now filter }
    ensures { result ≡ stops table.now (thrown_of thrown.now) filter }
{
    if filter > 0 {
        return thrown.matches(table.type_entry(filter.unsigned_abs()));
    }
    if filter == 0 {
        return false;
    }
    match thrown {
        Thrown::Forced => false,
        Thrown::Foreign => true,
        Thrown::Native(_) => !allows(table, thrown, filter.unsigned_abs()),
    }
}
