// The numbers of a schedule, in decimal digits without superfluous zeros.
ghost use Rattle.std.specs.Prelude.{◌≡◌, ◌<◌, true, length, option_map};
ghost use Rattle.std.specs.Char.{is_ascii_digit};
ghost use Rattle.std.specs.List.{list_all};
ghost use Rattle.std.specs.Str.Parse.{digits_value};
ghost use Rattle.hart_sched.specs.Decimal.{as_turns, number_in, turns_in};
ghost use Rattle.hart_sched.specs.Reads.{capped};

use plain_text::{is_decimal, up_to};

// The number that digits write, as it is kept.
#[tactic(auto, using(crate::proofs::Numbers::value_is_kept))]
fn value_of(digits: &[u8]) -> u64
    requires digits { list_all is_ascii_digit digits.now ≡ true }
    requires some { 0 < length digits.now }
    ensures { result ≡ capped (digits_value 10 digits.now) }
{
    up_to(u64::MAX, digits).unwrap_or(u64::MAX)
}

/// The number that a text writes, `u64::MAX` for all from there on.
#[tactic(auto, unfolding(crate::specs::Decimal::number_in))]
pub fn number_in(text: &[u8]) -> Option<u64>
    ensures { result ≡ option_map capped (number_in text.now) }
{
    if is_decimal(text) {
        Some(value_of(text))
    } else {
        None
    }
}

// A number of turns.
fn as_turns(n: u64) -> Option<u32>
    ensures { result ≡ as_turns n }
{
    if 1 <= n && n <= 4_294_967_295 {
        Some(n as u32)
    } else {
        None
    }
}

/// The number of turns that a text writes, 1 to 4,294,967,295.
pub fn turns_in(text: &[u8]) -> Option<u32>
    ensures { result ≡ turns_in text.now }
{
    match number_in(text) {
        Some(n) => as_turns(n),
        None => None,
    }
}
