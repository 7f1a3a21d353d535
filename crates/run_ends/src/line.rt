// The line of how a run ended.
ghost use Rattle.std.specs.Prelude.{◌≡◌, ◌≤◌, ◌+◌, ◌++◌, length};
ghost use Rattle.arrayvec.specs.ArrayVec.{array_vec_len};
ghost use Rattle.cxa_runtime.specs.declared.effect.End.TheVariants as ends;
ghost use Rattle.run_ends.specs.EndLine.{end_line, fault_name, whole_address};

use arrayvec::ArrayVec;
use cxa_runtime::End;
use itoa::Buffer;
use rv64_isa::FaultKind;

/// Room for the longest line, which is that of a fault.
pub type EndText = ArrayVec<u8, 64>;

// Adds bytes for which there is room.
fn push(line: &mut EndText, bytes: &[u8])
    requires { array_vec_len line.old + length bytes.now ≤ 64 }
    ensures bytes { line.new.items ≡ line.old.items ++ bytes.now }
    ensures len { array_vec_len line.new ≡ array_vec_len line.old + length bytes.now }
{
    match line.try_extend_from_slice(bytes) {
        Ok(()) => {}
        Err(_) => unreachable!(),
    }
}

fn name_of(kind: FaultKind) -> &'static [u8]
    ensures name { result.now ≡ fault_name kind }
    ensures short { length result.now ≤ 10 }
{
    match kind {
        FaultKind::Illegal => b"illegal",
        FaultKind::Misaligned => b"misaligned",
        FaultKind::Unmapped => b"unmapped",
        FaultKind::ReadOnly => b"readonly",
        FaultKind::Break => b"break",
        FaultKind::Call => b"call",
        FaultKind::Walk => b"walk",
    }
}

// Adds an address with all of its digits.
fn push_address(line: &mut EndText, place: u64)
    requires { array_vec_len line.old + 18 ≤ 64 }
    ensures bytes { line.new.items ≡ line.old.items ++ whole_address place }
    ensures len { array_vec_len line.new ≡ array_vec_len line.old + 18 }
{
    let mut digits = [0u8; 16];
    match hex::encode_to_slice(place.to_be_bytes().as_slice(), &mut digits) {
        Ok(()) => {}
        Err(_) => unreachable!(),
    }
    push(line, b"0x");
    push(line, digits.as_slice());
}

// A text as it stands.
fn plain(text: &[u8]) -> EndText
    requires { length text.now ≤ 64 }
    ensures { result.items ≡ text.now }
{
    let mut line = EndText::new();
    push(&mut line, text);
    line
}

// That of an exit.
fn exit_text(n: i32) -> EndText
    ensures { result.items ≡ end_line (ends.Exit n) }
{
    let mut buffer = Buffer::new();
    let mut line = plain(b"= exit ");
    push(&mut line, buffer.format(n).as_bytes());
    push(&mut line, b"\n");
    line
}

// That of a fault at an address.
fn fault_text(kind: FaultKind, place: u64) -> EndText
    ensures { result.items ≡ end_line (ends.Fault kind place) }
{
    let mut line = EndText::new();
    push(&mut line, b"= fault ");
    push(&mut line, name_of(kind));
    push(&mut line, b" ");
    push_address(&mut line, place);
    push(&mut line, b"\n");
    line
}

/// The line of an end, with its line feed; nothing of a run whose lines could not be written.
pub fn end_text(end: End) -> EndText
    ensures { result.items ≡ end_line end }
{
    match end {
        End::Exit(n) => exit_text(n),
        End::Aborted => plain(b"= aborted\n"),
        End::Budget => plain(b"= budget\n"),
        End::Stack => plain(b"= stack\n"),
        End::Fault(kind, place) => fault_text(kind, place),
        End::WriteFault => EndText::new(),
    }
}
