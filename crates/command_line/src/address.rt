// Addresses on the command line: the places of a backtrace, and what comes by its frames.
ghost use Rattle.std.specs.Prelude.{◌≡◌, ◌<◌, ℕ, length, map, string_bytes};
ghost use Rattle.std.specs.Char.{is_ascii_hexdigit};
ghost use Rattle.std.specs.List.{list_all};
ghost use Rattle.command_line.specs.declared.command.Raised.{Raised};
ghost use Rattle.command_line.specs.Gives.{Gives};
ghost use Rattle.command_line.specs.Script.{all_some};
ghost use Rattle.command_line.specs.Address.{address_of, hexadecimal, is_prefixed, places_for, raised_in, raised_of};

use crate::command::{Raised, Verb};
use crate::error::WordsError;
use plain_text::number_of;
use std::alloc::Global;

fn are_hexadecimal(text: &[u8]) -> bool
    ensures { result ≡ list_all is_ascii_hexdigit text.now }
{
    text.iter().all(|byte| byte.is_ascii_hexdigit())
}

// The number that hexadecimal digits write, where it is below 2^64.
#[tactic(auto, unfolding(crate::specs::Address::hexadecimal), using(crate::proofs::Addresses::hexadecimal_from_parse, crate::proofs::Addresses::hexadecimal_is_text))]
fn hexadecimal(text: &[u8]) -> Option<u64>
    requires { 0 < length text.now }
    ensures { result ≡ hexadecimal text.now }
{
    if !are_hexadecimal(text) {
        return None;
    }
    match std::str::from_utf8(text) {
        Ok(digits) => match u64::from_str_radix(digits, 16) {
            Ok(number) => Some(number),
            Err(_) => None,
        },
        Err(_) => None,
    }
}

// Whether something stands behind `0x`.
fn is_prefixed(text: &[u8]) -> bool
    ensures { result ≡ is_prefixed text.now }
{
    text.len() > 2 && text[0] == b'0' && text[1] == b'x'
}

// The address that a text writes, hexadecimal behind `0x`, and else decimal.
#[tactic(auto, unfolding(crate::specs::Address::address_of))]
fn address_of(text: &[u8]) -> Option<u64>
    ensures { result ≡ address_of text.now }
{
    if is_prefixed(text) {
        hexadecimal(&text[2..])
    } else {
        number_of(u64::MAX, text)
    }
}

// The address that a text writes. Usage where it writes none.
fn address_in(text: &str) -> Result<u64, WordsError>
    ensures { Gives (λ (n : ℕ). n) result (address_of text.now) }
{
    match address_of(text.as_bytes()) {
        None => Err(WordsError::Usage),
        Some(address) => Ok(address),
    }
}

// The address that each text writes.
fn places_of(alloc: Global, texts: &[String]) -> Result<Vec<u64>, WordsError>
    ensures { Gives (λ places. places.items) result (all_some address_of (map string_bytes texts.now)) }
{
    let mut places = Vec::new(alloc);
    for text in texts {
        let place = address_in(text.as_str())?;
        places.push(place)?;
    }
    Ok(places)
}

/// The places among the operands: none but where a command is about places, and then all behind the first operand.
pub fn places_for(alloc: Global, verb: Verb, operands: &[String]) -> Result<Vec<u64>, WordsError>
    ensures { Gives (λ places. places.items) result (places_for verb (map string_bytes operands.now)) }
{
    match (verb, operands) {
        (Verb::At, [_, texts @ ..]) => places_of(alloc, texts),
        _ => Ok(Vec::new(alloc)),
    }
}

// What a text says that comes by.
fn raised_in(text: &str) -> Result<Raised, WordsError>
    ensures { Gives (λ (r : Raised). r) result (raised_in text.now) }
{
    match text {
        "foreign" => Ok(Raised::Foreign),
        "forced" => Ok(Raised::Forced),
        _ => Ok(Raised::Typed(address_in(text)?)),
    }
}

/// What comes by, an exception of no type that a table names where no option says so.
pub fn raised_of(texts: &[String]) -> Result<Raised, WordsError>
    ensures { Gives (λ (r : Raised). r) result (raised_of (map string_bytes texts.now)) }
{
    match texts {
        [] => Ok(Raised::Untyped),
        [text] => raised_in(text.as_str()),
        _ => Err(WordsError::Usage),
    }
}
