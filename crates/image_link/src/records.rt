// Type records, their names, and globals.
ghost use Rattle.std.specs.Prelude.{◌≡◌, ◌++◌, ◌+◌, ◌*◌, length, map, flat_map, IfOk, OnOk};
ghost use Rattle.image_forms.specs.Placed.{base_at};
ghost use Rattle.image_forms.specs.Room.{kept_name};
ghost use Rattle.image_forms.specs.Records.{name_bytes, names_bytes, records_words, records_bytes, words_bytes, globals_bytes};

use crate::NoMemory;
use eh_bytes::TypeRow;
use std::alloc::{AllocError, Global};

// How many bytes of a name are kept.
const KEPT: usize = 255;

// The bytes of a record.
const RECORD: u64 = 24;

// The first bytes of a name.
fn kept_name(row: &TypeRow) -> &[u8]
    ensures { result.now ≡ kept_name row.now }
{
    let name = row.name.as_bytes();
    match name.split_at_checked(KEPT) {
        Some((kept, _)) => kept,
        None => name,
    }
}

/// Puts the names of types, each with a zero behind it.
pub fn put_names(out: &mut Vec<u8>, types: &[TypeRow]) -> Result<(), NoMemory>
    ensures { OnOk result (out.new.items ≡ out.old.items ++ names_bytes types.now) }
{
    let mut rest = types;
    'types: while let Some((row, others)) = rest.split_first() {
        out.extend_from_slice(kept_name(row))?;
        out.push(0)?;
        rest = others;
    }
    Ok(())
}

// The address of a base's record, where the records end at an address.
fn base_at(end: u64, base: Option<u32>) -> u64
    ensures { result ≡ base_at end base }
{
    match base {
        None => 0,
        Some(row) => end.saturating_sub(RECORD * (u64::from(row) + 1)),
    }
}

// The words of records, the first of which has its name at an address, and the others behind it.
fn records_words(
    alloc: Global,
    end: u64,
    name: u64,
    types: &[TypeRow],
) -> Result<Vec<[u64; 3]>, NoMemory>
    ensures { IfOk result (λ records. records.items ≡ records_words end name types.now) }
{
    let mut records = Vec::new(alloc);
    let mut name_at = name;
    let mut rest = types;
    'types: while let Some((row, others)) = rest.split_first() {
        records.push([u64::from(row.kind), name_at, base_at(end, row.base)])?;
        let size = kept_name(row).len() as u64 + 1;
        name_at = name_at.checked_add(size).ok_or(AllocError)?;
        rest = others;
    }
    Ok(records)
}

fn put_record(out: &mut Vec<u8>, words: [u64; 3]) -> Result<(), NoMemory>
    ensures { OnOk result (out.new.items ≡ out.old.items ++ words_bytes words) }
{
    let [kind, name, base] = words;
    out.extend_from_slice(kind.to_le_bytes().as_slice())?;
    out.extend_from_slice(name.to_le_bytes().as_slice())?;
    out.extend_from_slice(base.to_le_bytes().as_slice())
}

/// The records of types, each below the one before, where they end at an address and the first name
/// stands at another.
pub fn records_bytes(
    alloc: Global,
    end: u64,
    name: u64,
    types: &[TypeRow],
) -> Result<Vec<u8>, NoMemory>
    ensures { IfOk result (λ bytes. bytes.items ≡ records_bytes end name types.now) }
{
    let mut records = records_words(alloc, end, name, types)?;
    records.reverse();
    let mut bytes = Vec::new(alloc);
    let mut rest = records.as_slice();
    'records: while let Some((words, others)) = rest.split_first() {
        put_record(&mut bytes, *words)?;
        rest = others;
    }
    Ok(bytes)
}

/// Ints, each below the one before.
pub fn globals_bytes(alloc: Global, globals: &[i32]) -> Result<Vec<u8>, NoMemory>
    ensures { IfOk result (λ bytes. bytes.items ≡ globals_bytes globals.now) }
{
    let mut values = globals.to_vec(alloc)?;
    values.reverse();
    let mut bytes = Vec::new(alloc);
    let mut rest = values.as_slice();
    'values: while let Some((value, others)) = rest.split_first() {
        bytes.extend_from_slice(value.to_le_bytes().as_slice())?;
        rest = others;
    }
    Ok(bytes)
}
