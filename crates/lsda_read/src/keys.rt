// Numbers in rising order.
ghost use Rattle.std.specs.Prelude.{◌≡◌, IfOk};
ghost use Rattle.table_forms.specs.Keys.{keys};

use std::alloc::{AllocError, Global};
use std::collections::BTreeSet;

/// The numbers of a list in rising order, each once.
pub fn keys_of(alloc: Global, numbers: &[u64]) -> Result<Vec<u64>, AllocError>
    ensures { IfOk result (λ ks. ks.items ≡ keys numbers.now) }
{
    let mut set = BTreeSet::new(alloc);
    let mut rest = numbers;
    'numbers: while let Some((number, others)) = rest.split_last() {
        set.insert(*number)?;
        rest = others;
    }
    set.into_iter().collect(alloc)
}
