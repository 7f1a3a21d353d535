// Records of the call-site table.
ghost use Rattle.std.specs.Prelude.{◌≡◌, ◌<◌, ◌≤◌, length, IfOk};
ghost use Rattle.table_forms.specs.LsdaSites.{record_at, number_at};
ghost use Rattle.lsda_read.specs.Reads.{Reads};
ghost use Rattle.lsda_read.specs.Heads.{head_seen};
ghost use Rattle.lsda_read.specs.Sites.{record_seen};

use crate::field::{encoded_at, uleb_at};
use crate::head::Head;
use table_forms::Refusal;

// DW_EH_PE_uleb128 (LSB Core, "DWARF Exception Header Encoding"): the encoding of nearly all call-site tables.
const ULEB128: u8 = 1;

/// The numbers of a record, and where it stands.
#[derive(Clone, Copy, Drop)]
pub struct SiteRecord {
    pub at: usize,
    pub start: u64,
    pub length: u64,
    pub pad: u64,
    pub action: u64,
}

// A start, a length or a pad.
fn number_of(
    bytes: &[u8],
    file_at: u64,
    encoding: u8,
    place: usize,
) -> Result<(u64, usize), Refusal>
    requires { place ≤ length bytes.now }
    ensures reads { Reads (λ x. x) result (number_at bytes.now file_at encoding place) }
    ensures inside { IfOk result (λ x. x.1 ≤ length bytes.now) }
    ensures on { IfOk result (λ x. place < x.1) }
{
    if encoding == ULEB128 {
        return uleb_at(bytes, file_at, place);
    }
    let (pointer, next) = encoded_at(encoding, 0, bytes, file_at, place)?;
    Ok((pointer.value, next))
}

/// The record at a place of bytes that end with the table.
#[tactic(auto, unfolding(table_forms::specs::LsdaSites::record_at))]
pub fn record_of(
    bytes: &[u8],
    file_at: u64,
    head: &Head,
    place: usize,
) -> Result<(SiteRecord, usize), Refusal>
    requires { place ≤ length bytes.now }
    ensures reads { Reads record_seen result (record_at bytes.now file_at (head_seen head.now) place) }
    ensures here { IfOk result (λ x. x.0.at ≡ place) }
    ensures inside { IfOk result (λ x. x.1 ≤ length bytes.now) }
    ensures on { IfOk result (λ x. place < x.1) }
{
    let (start, next) = number_of(bytes, file_at, head.site_encoding, place)?;
    let (length, next) = number_of(bytes, file_at, head.site_encoding, next)?;
    let (pad, next) = number_of(bytes, file_at, head.site_encoding, next)?;
    let (action, next) = uleb_at(bytes, file_at, next)?;
    Ok((
        SiteRecord {
            at: place,
            start,
            length,
            pad,
            action,
        },
        next,
    ))
}
