// Type entries.
ghost use Rattle.std.specs.Prelude.{◌≡◌, ◌+◌, ◌*◌, ◌<◌, ◌^◌, option_map};
ghost use Rattle.eh_bytes.specs.Memory.{part_of, memory_of};
ghost use Rattle.table_forms.specs.LsdaTypes.{entry_at, followed};
ghost use Rattle.table_forms.specs.Lsda.{entry_value};
ghost use Rattle.table_forms.specs.Fault.{least, refusal_of};
ghost use Rattle.table_forms.specs.Seen.{fault_of};
ghost use Rattle.lsda_read.specs.Reads.{Reads};
ghost use Rattle.lsda_read.specs.Heads.{head_seen, types_of};

use crate::field::encoded_at;
use crate::head::{Head, Types};
use eh_bytes::{Pointer, Segment, Segments};
use table_forms::{Reason, Refusal, refused};

// An address, or the word that is stored there.
fn followed(memory: &Segments, place: u128, pointer: Pointer) -> Result<u64, Refusal>
    ensures { Reads (λ x. x) result (followed (memory_of memory.now) place pointer.indirect pointer.value) }
{
    if pointer.indirect {
        match memory.word_at(pointer.value) {
            Some(word) => Ok(word),
            None => Err(refused(Reason::TableTruncated, place)),
        }
    } else {
        Ok(pointer.value)
    }
}

/// The value of entry i, which the record at this place names.
#[tactic(auto, using(table_forms::proofs::Beyond::cut_behind), unfolding(table_forms::specs::LsdaTypes::entry_at))]
pub fn entry_of(
    memory: &Segments,
    segment: &Segment,
    head: &Head,
    types: &Types,
    named_at: u128,
    i: u64,
) -> Result<u64, Refusal>
    requires { named_at < 2 ^ 66 }
    ensures { Reads (λ x. x) result (entry_at (memory_of memory.now) (part_of segment.now) (head_seen head.now) (types_of types.now) named_at i) }
{
    let down = i as u128 * types.size as u128;
    if head.actions_at + down > types.base {
        return Err(refused(Reason::FilterOutside, segment.file_at as u128 + named_at));
    }
    let at = types.base - down;
    let bytes = segment.bytes.as_slice();
    let place = segment.file_at as u128 + at;
    if at > bytes.len() as u128 {
        return Err(refused(Reason::TableTruncated, place));
    }
    let (pointer, _) = encoded_at(
        types.encoding,
        segment.address,
        bytes,
        segment.file_at,
        at as usize,
    )?;
    followed(memory, place, pointer)
}

/// What is refused of entry i.
#[tactic(auto, unfolding(table_forms::specs::Fault::least))]
pub fn entry_refusal(
    memory: &Segments,
    segment: &Segment,
    head: &Head,
    types: &Types,
    named_at: u128,
    i: u64,
) -> Option<Refusal>
    requires { named_at < 2 ^ 66 }
    ensures { option_map fault_of result ≡ least (refusal_of (entry_at (memory_of memory.now) (part_of segment.now) (head_seen head.now) (types_of types.now) named_at i)) }
{
    match entry_of(memory, segment, head, types, named_at, i) {
        Ok(_) => None,
        Err(e) => Some(e),
    }
}

/// The value of entry i, of which nothing is refused.
pub fn entry_value(memory: &Segments, segment: &Segment, head: &Head, i: u64) -> u64
    ensures { result ≡ entry_value (memory_of memory.now) (part_of segment.now) (head_seen head.now) (head_seen head.now).types i }
{
    match head.types {
        None => 0,
        Some(types) => match entry_of(memory, segment, head, &types, 0, i) {
            Ok(value) => value,
            Err(_) => 0,
        },
    }
}
