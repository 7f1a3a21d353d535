// Tables in the place of those that were read.
ghost use Rattle.std.specs.Prelude.{◌≡◌, ◌+◌, ◌-◌, ◌≤◌, ◌++◌, fold, length, replicate, IfOk, OnOk};
ghost use Rattle.std.specs.List.{AllByRecursion};
ghost use Rattle.lsda_pack.specs.Counted.{HasRoom, left_over, not_packed, packing_seen, put_placing};
ghost use Rattle.lsda_pack.specs.PackedImage.{put_at};

use crate::NoMemory;
use crate::placing::Placing;
use crate::reach::Taken;
use crate::rewrite::rewrite;
use std::alloc::{AllocError, Global};

/// What packing makes of an image: its bytes, how many tables it has, how many of them are packed,
/// and how many bytes that saves.
#[derive(Drop)]
pub struct Packed {
    pub bytes: Vec<u8>,
    pub tables: u64,
    pub packed: u64,
    pub saved: u64,
}

// A sum that 64 bits hold.
fn sum(a: u64, b: u64) -> Result<u64, NoMemory>
    ensures { IfOk result (λ n. n ≡ a + b) }
{
    match a.checked_add(b) {
        None => Err(AllocError),
        Some(n) => Ok(n),
    }
}

// The packed bytes of a table in its place; gives how many bytes that saves.
fn put_bytes(file: &mut Vec<u8>, taken: &Taken, bytes: Vec<u8>) -> Result<u64, NoMemory>
    requires fewer { length bytes.items ≤ taken.now.end - taken.now.first }
    requires inside { taken.now.place + (taken.now.end - taken.now.first) ≤ length file.old.items }
    ensures spare { IfOk result (λ spare. spare ≡ left_over taken.now bytes.items) }
    ensures bytes { OnOk result (file.new.items ≡ put_at taken.now.place (bytes.items ++ replicate (left_over taken.now bytes.items) 0) file.old.items) }
{
    let size = taken.end.saturating_sub(taken.first) as u64;
    let spare = size - bytes.len() as u64;
    rewrite(file, taken.place as usize, bytes, size)?;
    Ok(spare)
}

// A table, packed where it has packed bytes.
fn put_placing(packed: &mut Packed, placing: &Placing) -> Result<(), NoMemory>
    requires { HasRoom (length packed.old.bytes.items) placing.now }
    ensures { OnOk result (packing_seen packed.new ≡ put_placing (packing_seen packed.old) placing.now) }
{
    packed.tables = sum(packed.tables, 1)?;
    if let Some(bytes) = &placing.packed {
        let spare = put_bytes(&mut packed.bytes, &placing.taken.memory, bytes.clone()?)?;
        packed.packed = sum(packed.packed, 1)?;
        packed.saved = sum(packed.saved, spare)?;
    }
    Ok(())
}

// All tables, in their order.
fn put_placings(packed: &mut Packed, placings: &[Placing]) -> Result<(), NoMemory>
    requires { AllByRecursion (HasRoom (length packed.old.bytes.items)) placings.now }
    ensures { OnOk result (packing_seen packed.new ≡ fold put_placing (packing_seen packed.old) placings.now) }
{
    let mut rest = placings;
    'placings: while let Some((placing, others)) = rest.split_first() {
        put_placing(packed, placing)?;
        rest = others;
    }
    Ok(())
}

/// A file with its tables packed, and what is counted of them.
pub fn packed_file(alloc: Global, file: &[u8], placings: &[Placing]) -> Result<Packed, NoMemory>
    requires { AllByRecursion (HasRoom (length file.now)) placings.now }
    ensures { IfOk result (λ packed. packing_seen packed ≡ fold put_placing (not_packed file.now) placings.now) }
{
    let mut packed = Packed {
        bytes: file.to_vec(alloc)?,
        tables: 0,
        packed: 0,
        saved: 0,
    };
    put_placings(&mut packed, placings)?;
    Ok(packed)
}
