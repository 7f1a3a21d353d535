// Numbers in names.
ghost use Rattle.std.specs.Prelude.{◌≡◌, ◌++◌, OnOk};
ghost use Rattle.std.specs.Fmt.{decimal};
ghost use Rattle.symbol_names.specs.Component.{digit, sequence, substitution};

use crate::NoMemory;
use itoa::Buffer;

/// Appends a number in decimal.
pub fn put_decimal(out: &mut Vec<u8>, number: usize) -> Result<(), NoMemory>
    ensures { OnOk result (out.new.items ≡ out.old.items ++ decimal number) }
{
    let mut buffer = Buffer::new();
    out.extend_from_slice(buffer.format(number).as_bytes())
}

// A digit to base 36.
fn digit(number: usize) -> u8
    ensures { result ≡ digit number }
{
    let value = (number % 36) as u8;
    if value < 10 {
        b'0' + value
    } else {
        b'A' + (value - 10)
    }
}

// Appends a number to base 36, of which the last two digits count.
fn put_sequence(out: &mut Vec<u8>, number: usize) -> Result<(), NoMemory>
    ensures { OnOk result (out.new.items ≡ out.old.items ++ sequence number) }
{
    if number >= 36 {
        out.push(digit(number / 36))?;
    }
    out.push(digit(number))?;
    Ok(())
}

/// Appends what refers to the component with a number.
pub fn put_substitution(out: &mut Vec<u8>, number: usize) -> Result<(), NoMemory>
    ensures { OnOk result (out.new.items ≡ out.old.items ++ substitution number) }
{
    out.push(b'S')?;
    if number > 0 {
        put_sequence(out, number - 1)?;
    }
    out.push(b'_')?;
    Ok(())
}
