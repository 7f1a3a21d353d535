// The texts, bytes and numbers of a transcript.
use std::alloc::{AllocError, Global};

// What stands before a byte of a text.
#[derive(Clone, Copy)]
enum Before {
    Nothing,
    Backslash,
    /// `\x`, and its first digit.
    High,
    Low(u8),
}

// The value of a hexadecimal digit.
fn digit(byte: u8) -> u8 {
    match byte {
        b'0'..=b'9' => byte.wrapping_sub(b'0'),
        b'a'..=b'f' => byte.wrapping_sub(b'a').wrapping_add(10),
        _ => 0,
    }
}

/// Puts a text's bytes, in which `\n`, `\\` and `\xHH` are one byte.
pub fn put_text(bytes: &mut Vec<u8>, text: &str) -> Result<(), AllocError> {
    let mut before = Before::Nothing;
    for byte in text.as_bytes() {
        before = match (before, *byte) {
            (Before::Nothing, b'\\') => Before::Backslash,
            (Before::Backslash, b'x') => Before::High,
            (Before::High, high) => Before::Low(digit(high)),
            (Before::Nothing, other) => put_byte(bytes, other)?,
            (Before::Backslash, b'n') => put_byte(bytes, b'\n')?,
            (Before::Backslash, other) => put_byte(bytes, other)?,
            (Before::Low(high), low) => {
                put_byte(bytes, high.wrapping_mul(16).wrapping_add(digit(low)))?
            }
        };
    }
    Ok(())
}

fn put_byte(bytes: &mut Vec<u8>, byte: u8) -> Result<Before, AllocError> {
    bytes.push(byte)?;
    Ok(Before::Nothing)
}

/// Puts bytes that are written with two hexadecimal digits each.
pub fn put_hex(bytes: &mut Vec<u8>, digits: &str) -> Result<(), AllocError> {
    let mut high = None;
    for byte in digits.as_bytes() {
        high = match high {
            None => Some(digit(*byte)),
            Some(high) => {
                let high: u8 = high;
                bytes.push(high.wrapping_mul(16).wrapping_add(digit(*byte)))?;
                None
            }
        };
    }
    Ok(())
}

/// A number; 0 where there is none.
pub fn number_of(word: Option<&str>) -> u64 {
    match word {
        Some(word) => word.parse::<u64>().unwrap_or(0),
        None => 0,
    }
}

/// A piece of a text with a number in the place of each `#`; `#/2` is its half, and `#+N` so much more.
pub fn numbered(alloc: Global, piece: &str, number: u64) -> Result<String, AllocError> {
    let mut all = String::new(alloc);
    for (place, part) in piece.split('#').enumerate() {
        if place == 0 {
            all.push_str(part)?;
        } else {
            put_behind_number(alloc, &mut all, part, number)?;
        }
    }
    Ok(all)
}

// Puts a number, and what stands behind it.
fn put_behind_number(
    alloc: Global,
    all: &mut String,
    part: &str,
    number: u64,
) -> Result<(), AllocError> {
    let (value, behind) = match part.split_once('/') {
        Some(("", behind)) => (number / 2, behind.strip_prefix("2").unwrap_or(behind)),
        _ => match part.split_once('+') {
            Some(("", behind)) => more_than(number, behind),
            _ => (number, part),
        },
    };
    all.push_str(format!(in alloc; "{value}{behind}")?.as_str())
}

// A number and so much more as the text begins with, and the rest of the text.
fn more_than(number: u64, text: &str) -> (u64, &str) {
    let digits = text
        .bytes()
        .take_while(|byte| byte.is_ascii_digit())
        .count();
    match text.split_at_checked(digits) {
        Some((more, behind)) => (number.wrapping_add(number_of(Some(more))), behind),
        None => (number, text),
    }
}
