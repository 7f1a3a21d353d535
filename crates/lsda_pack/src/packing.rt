// The packed bytes of a table that was read.
ghost use Rattle.std.specs.Prelude.{◌≡◌, ◌+◌, ◌-◌, ◌<◌, ◌^◌, ◌&&◌, nat_le, length, IfOk, IfSome, Contains, option_map, true};
ghost use Rattle.std.specs.List.{AllByRecursion};
ghost use Rattle.eh_bytes.specs.Listed.{listed_table};
ghost use Rattle.lsda_read.specs.Names.{lists_named};
ghost use Rattle.lsda_pack.specs.MayPack.{may_be, shorter_bytes};
ghost use Rattle.lsda_pack.specs.PackedBytes.{packed_bytes};
ghost use Rattle.lsda_pack.specs.PackedLists.{packed_lists};
ghost use Rattle.lsda_pack.specs.ReadLists.{lists_read};
ghost use Rattle.lsda_read.specs.WholeTable.{IsWhole};

use crate::NoMemory;
use crate::listing::read_lists;
use crate::packed::pack_lists;
use crate::packed_bytes::{base_for, write_packed};
use crate::placing::TableAt;
use crate::rule::{are_near, is_plain, names_stand, pads_count};
use eh_bytes::LsdaList;
use lsda_read::{Lsda, Shape};
use std::alloc::Global;

// A table that ends here can be read the same when it is packed to these lists.
fn may_be(
    alloc: Global,
    bytes: &[u8],
    table: &Lsda<'_>,
    lists: &[u64],
    shape: &Shape,
    at: TableAt,
    end: u128,
    packed: &LsdaList,
) -> Result<bool, NoMemory>
    requires small { length bytes.now < 2 ^ 63 }
    requires near { IfSome at.base (λ b. b < 2 ^ 65) }
    requires named { AllByRecursion (Contains (lists_named table.now)) lists.now }
    ensures { IfOk result (λ may. may ≡ may_be bytes.now at.base table.now lists.now shape.now at.region.start at.first end (listed_table packed.now)) }
{
    if !is_plain(shape) {
        return Ok(false);
    }
    if !pads_count(table, at.region.start) {
        return Ok(false);
    }
    let stand = base_for(alloc, packed, at.first)?;
    if !are_near(at.first, end, stand, packed.types.as_slice()) {
        return Ok(false);
    }
    names_stand(alloc, bytes, at.base, table, lists)
}

// The packed bytes of lists, where they are fewer than so many.
fn shorter(
    alloc: Global,
    packed: &LsdaList,
    first: u64,
    size: u128,
) -> Result<Option<Vec<u8>>, NoMemory>
    ensures { IfOk result (λ bytes. option_map (λ b. b.items) bytes ≡ shorter_bytes true (packed_bytes (listed_table packed.now) first) size) }
{
    let mut bytes = Vec::new(alloc);
    write_packed(alloc, packed, first, &mut bytes)?;
    if (bytes.len() as u128) < size {
        Ok(Some(bytes))
    } else {
        Ok(None)
    }
}

/// The packed bytes of a table that ends here, where it is packed: its bytes stand in the file, its
/// form is plain, the packed bytes read the same, and they are fewer.
pub fn packed_from(
    alloc: Global,
    bytes: &[u8],
    table: &Lsda<'_>,
    lists: &[u64],
    shape: &Shape,
    at: TableAt,
    end: u128,
) -> Result<Option<Vec<u8>>, NoMemory>
    requires small { length bytes.now < 2 ^ 63 }
    requires near { IfSome at.base (λ b. b < 2 ^ 65) }
    requires named { AllByRecursion (Contains (lists_named table.now)) lists.now }
    requires whole { IsWhole table.now }
    requires end { end < 2 ^ 70 }
    requires place { at.place < 2 ^ 66 }
    ensures { IfOk result (λ packed. option_map (λ b. b.items) packed ≡ shorter_bytes (nat_le (at.place + (end - at.first)) at.file_end && may_be bytes.now at.base table.now lists.now shape.now at.region.start at.first end (packed_lists (lists_read at.region.start table.now))) (packed_bytes (packed_lists (lists_read at.region.start table.now)) at.first) (end - at.first)) }
{
    let size = end.saturating_sub(at.first as u128);
    if at.place + size > at.file_end {
        return Ok(None);
    }
    let read = read_lists(alloc, table, at.region.start)?;
    let packed = pack_lists(alloc, &read)?;
    // Few tables get shorter, and of the others nothing else need be known.
    let Some(fewer) = shorter(alloc, &packed, at.first, size)? else {
        return Ok(None);
    };
    if !may_be(alloc, bytes, table, lists, shape, at, end, &packed)? {
        return Ok(None);
    }
    Ok(Some(fewer))
}
