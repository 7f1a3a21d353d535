// The shortest spellings of LEB128 numbers.
ghost use Rattle.std.specs.Prelude.{◌≡◌, ◌<◌, ◌≤◌, ◌++◌, ℕ, List, length, Ok, OnOk, OnErr};
ghost use Rattle.eh_bytes.specs.Leb128.{uleb, sleb};
ghost use Rattle.eh_bytes.specs.Spelling.{uleb_spelling, sleb_spelling, fits_seven, low_seven, without_seven};

use crate::NoMemory;

/// Appends the shortest ULEB128 spelling of a number (DWARF 5, 7.6).
pub fn put_uleb(out: &mut Vec<u8>, value: u64) -> Result<(), NoMemory>
    ensures put { OnOk result (out.new.items ≡ out.old.items ++ uleb_spelling value) }
    ensures read_again { (rest : List ℕ) → uleb (uleb_spelling value ++ rest) ≡ Ok (value, length (uleb_spelling value)) }
    ensures shortest { (bytes : List ℕ) (taken : ℕ) → uleb bytes ≡ Ok (value, taken) → length (uleb_spelling value) ≤ taken }
    ensures refused { OnErr result (out.new.items ≡ out.old.items) }
{
    let mut spelling = [0u8; 10];
    let mut length = 0;
    let mut rest = value;
    while rest >= 128 {
        spelling[length] = (rest % 128) as u8 + 128;
        length += 1;
        rest /= 128;
    }
    spelling[length] = rest as u8;
    out.extend_from_slice(&spelling[..length + 1])
}

// Whether seven bits hold the number, the highest of which is the sign.
fn fits_seven(value: i64) -> bool
    ensures { result ≡ fits_seven value }
{
    -64 <= value && value < 64
}

fn low_seven(value: i64) -> u8
    ensures low { result ≡ low_seven value }
    ensures small { result < 128 }
{
    value.rem_euclid(128) as u8
}

fn without_seven(value: i64) -> i64
    ensures { result ≡ without_seven value }
{
    value.div_euclid(128)
}

/// Appends the shortest SLEB128 spelling of a number (DWARF 5, 7.6).
pub fn put_sleb(out: &mut Vec<u8>, value: i64) -> Result<(), NoMemory>
    ensures put { OnOk result (out.new.items ≡ out.old.items ++ sleb_spelling value) }
    ensures read_again { (rest : List ℕ) → sleb (sleb_spelling value ++ rest) ≡ Ok (value, length (sleb_spelling value)) }
    ensures shortest { (bytes : List ℕ) (taken : ℕ) → sleb bytes ≡ Ok (value, taken) → length (sleb_spelling value) ≤ taken }
    ensures refused { OnErr result (out.new.items ≡ out.old.items) }
{
    let mut spelling = [0u8; 10];
    let mut length = 0;
    let mut rest = value;
    while !fits_seven(rest) {
        spelling[length] = low_seven(rest) + 128;
        length += 1;
        rest = without_seven(rest);
    }
    spelling[length] = low_seven(rest);
    out.extend_from_slice(&spelling[..length + 1])
}
