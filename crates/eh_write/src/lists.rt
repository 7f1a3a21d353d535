// The lists of specifications, one after the other.
ghost use Rattle.std.specs.Prelude.{◌≡◌, ◌++◌, ◌∷◌, [], map, flat_map, OnOk};
ghost use Rattle.eh_bytes.specs.Spelling.{uleb_spelling};
ghost use Rattle.std.specs.List.{AllByRecursion};
ghost use Rattle.eh_write.specs.Fits.{IsWord};
ghost use Rattle.eh_write.specs.Written.{lists_bytes};

use crate::NoMemory;
use eh_bytes::put_uleb;

fn put_list(out: &mut Vec<u8>, indices: &[u64]) -> Result<(), NoMemory>
    ensures bytes { OnOk result (out.new.items ≡ out.old.items ++ (flat_map uleb_spelling indices.now ++ 0 ∷ [])) }
    ensures words { OnOk result (AllByRecursion IsWord indices.now) }
{
    let mut rest = indices;
    'indices: while let Some((index, others)) = rest.split_first() {
        put_uleb(out, *index)?;
        rest = others;
    }
    out.push(0)?;
    Ok(())
}

/// Appends the lists, each as its indices and a 0.
pub fn put_lists(out: &mut Vec<u8>, lists: &[Vec<u64>]) -> Result<(), NoMemory>
    ensures bytes { OnOk result (out.new.items ≡ out.old.items ++ lists_bytes (map (λ indices. indices.items) lists.now)) }
    ensures words { OnOk result (AllByRecursion (AllByRecursion IsWord) (map (λ indices. indices.items) lists.now)) }
{
    let mut rest = lists;
    'lists: while let Some((list, others)) = rest.split_first() {
        put_list(out, list.as_slice())?;
        rest = others;
    }
    Ok(())
}
