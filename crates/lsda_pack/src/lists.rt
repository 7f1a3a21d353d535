// Lists of type indices.
ghost use Rattle.std.specs.Prelude.{◌≡◌, map, option_map, IfOk};
ghost use Rattle.table_forms.specs.WrittenTable.{list_size, list_from};

use crate::NoMemory;
use eh_bytes::put_uleb;
use std::alloc::Global;

/// How many bytes a list takes: its indices in the shortest ULEB128, and a 0.
pub fn list_size(alloc: Global, indices: &[u64]) -> Result<u64, NoMemory>
    ensures { IfOk result (λ size. size ≡ list_size indices.now) }
{
    let mut spelled = Vec::new(alloc);
    let mut rest = indices;
    'indices: while let Some((index, others)) = rest.split_first() {
        put_uleb(&mut spelled, *index)?;
        rest = others;
    }
    spelled.push(0)?;
    Ok(spelled.len() as u64)
}

/// The list whose first byte is this one, where the lists stand one after the other.
pub fn list_from<'a>(
    alloc: Global,
    lists: &'a [Vec<u64>],
    byte: u64,
) -> Result<Option<&'a [u64]>, NoMemory>
    ensures { IfOk result (λ list. option_map (λ l. l.now) list ≡ list_from (map (λ l. l.items) lists.now) byte) }
{
    let mut left = byte;
    let mut rest = lists;
    'lists: while let Some((list, others)) = rest.split_first() {
        if left == 0 {
            return Ok(Some(list.as_slice()));
        }
        let size = list_size(alloc, list.as_slice())?;
        if left < size {
            return Ok(None);
        }
        left -= size;
        rest = others;
    }
    Ok(None)
}

/// The same lists.
pub fn copied(alloc: Global, lists: &[Vec<u64>]) -> Result<Vec<Vec<u64>>, NoMemory>
    ensures { IfOk result (λ copy. map (λ l. l.items) copy.items ≡ map (λ l. l.items) lists.now) }
{
    let mut copy = Vec::new(alloc);
    let mut rest = lists;
    'lists: while let Some((list, others)) = rest.split_first() {
        copy.push(list.as_slice().to_vec(alloc)?)?;
        rest = others;
    }
    Ok(copy)
}
