// Numbers and registers as they are printed.
ghost use Rattle.std.specs.Prelude.{◌≡◌, ◌+◌, ◌<◌, ◌≤◌, ◌^◌, IfOk, OnOk, ◌++◌};
ghost use Rattle.std.specs.String.{string_bytes};
ghost use Rattle.table_dump.specs.Texts.{hex, register, signed};

use itoa::Buffer;
use std::alloc::{AllocError, Global};

/// Appends a text.
pub fn put_text(out: &mut Vec<u8>, text: &str) -> Result<(), AllocError>
    ensures { OnOk result (out.new.items ≡ out.old.items ++ text.now) }
{
    out.extend_from_slice(text.as_bytes())
}

/// x0 to x31 and f0 to f31.
pub fn register(alloc: Global, number: u8) -> Result<String, AllocError>
    ensures { IfOk result (λ text. string_bytes text ≡ register number) }
{
    if number < 32 {
        format!(in alloc; "x{number}")
    } else {
        let float = number - 32;
        format!(in alloc; "f{float}")
    }
}

/// Appends x0 to x31 and f0 to f31.
pub fn put_register(out: &mut Vec<u8>, number: u8) -> Result<(), AllocError>
    ensures { OnOk result (out.new.items ≡ out.old.items ++ register number) }
{
    let mut buffer = Buffer::new();
    if number < 32 {
        put_text(out, "x")?;
        put_text(out, buffer.format(number))
    } else {
        put_text(out, "f")?;
        put_text(out, buffer.format(number - 32))
    }
}

/// Appends an offset with its sign.
pub fn put_signed(out: &mut Vec<u8>, offset: i64) -> Result<(), AllocError>
    ensures { OnOk result (out.new.items ≡ out.old.items ++ signed offset) }
{
    let mut buffer = Buffer::new();
    if offset >= 0 {
        put_text(out, "+")?;
    }
    put_text(out, buffer.format(offset))
}

/// The end of a range that may end with the address space.
pub fn end_of(alloc: Global, address: u64, length: u64) -> Result<String, AllocError>
    requires { address + length ≤ 2 ^ 64 }
    ensures { IfOk result (λ text. string_bytes text ≡ hex (address + length)) }
{
    match address.checked_add(length) {
        Some(end) => format!(in alloc; "0x{end:x}"),
        None => String::from_str(alloc, "0x10000000000000000"),
    }
}
