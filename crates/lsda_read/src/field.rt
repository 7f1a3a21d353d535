// Fields of a table, where a refusal stands at the field.
ghost use Rattle.std.specs.Prelude.{◌≡◌, ◌+◌, ◌<◌, ◌≤◌, length, IfOk};
ghost use Rattle.eh_bytes.specs.Field.{at, byte};
ghost use Rattle.eh_bytes.specs.Leb128.{uleb};
ghost use Rattle.eh_bytes.specs.Encoded.{encoded};
ghost use Rattle.table_forms.specs.Fault.{with_reason, table_reason};
ghost use Rattle.lsda_read.specs.Reads.{Reads};

use crate::refusal::field_refusal;
use eh_bytes::{Pointer, RawCursor};
use table_forms::Refusal;

/// The byte at a place, and the place behind it.
pub fn byte_at(bytes: &[u8], file_at: u64, place: usize) -> Result<(u8, usize), Refusal>
    requires { place ≤ length bytes.now }
    ensures reads { Reads (λ x. x) result (with_reason table_reason (file_at + place) (at byte bytes.now place)) }
    ensures next { IfOk result (λ x. x.1 ≡ place + 1) }
    ensures inside { IfOk result (λ x. x.1 ≤ length bytes.now) }
    ensures on { IfOk result (λ x. place < x.1) }
{
    let mut cursor = RawCursor::new(bytes, place);
    match cursor.take_u8() {
        Ok(value) => Ok((value, cursor.position())),
        Err(cause) => Err(field_refusal(cause, file_at as u128 + place as u128)),
    }
}

/// The ULEB128 number at a place, and the place behind it.
pub fn uleb_at(bytes: &[u8], file_at: u64, place: usize) -> Result<(u64, usize), Refusal>
    requires { place ≤ length bytes.now }
    ensures reads { Reads (λ x. x) result (with_reason table_reason (file_at + place) (at uleb bytes.now place)) }
    ensures inside { IfOk result (λ x. x.1 ≤ length bytes.now) }
    ensures on { IfOk result (λ x. place < x.1) }
{
    let mut cursor = RawCursor::new(bytes, place);
    match cursor.take_uleb() {
        Ok(value) => Ok((value, cursor.position())),
        Err(cause) => Err(field_refusal(cause, file_at as u128 + place as u128)),
    }
}

/// The encoded pointer at a place of bytes with this address, and the place behind it.
pub fn encoded_at(
    encoding: u8,
    address: u64,
    bytes: &[u8],
    file_at: u64,
    place: usize,
) -> Result<(Pointer, usize), Refusal>
    requires { place ≤ length bytes.now }
    ensures reads { Reads (λ x. x) result (with_reason table_reason (file_at + place) (at (encoded encoding (address + place)) bytes.now place)) }
    ensures inside { IfOk result (λ x. x.1 ≤ length bytes.now) }
    ensures on { IfOk result (λ x. place < x.1) }
{
    let mut cursor = RawCursor::new(bytes, place);
    match cursor.take_encoded(encoding, address) {
        Ok(value) => Ok((value, cursor.position())),
        Err(cause) => Err(field_refusal(cause, file_at as u128 + place as u128)),
    }
}
