// Numbers in a slice of bytes.
ghost use Rattle.std.specs.Prelude.{◌≡◌, ◌<◌, ◌≤◌, ◌+◌, ◌^◌, length};
ghost use Rattle.rv64_machine.specs.Bytes.{number_at, size_of, with_number};

/// How many bytes are loaded or stored.
#[derive(Clone, Copy, Debug, PartialEq, Eq)]
pub enum Size {
    Byte,
    Half,
    Word,
    Double,
}

impl Size {
    #[inline(always)]
    pub fn bytes(self) -> u64
        ensures { result ≡ size_of self }
    {
        match self {
            Size::Byte => 1,
            Size::Half => 2,
            Size::Word => 4,
            Size::Double => 8,
        }
    }
}

#[tactic(auto, using(crate::proofs::Numbers::numbers))]
fn half(bytes: &[u8], at: usize) -> u16
    requires { at + 2 ≤ length bytes.now }
    ensures { result ≡ number_at bytes.now at 2 }
{
    u16::from_le_bytes([bytes[at], bytes[at + 1]])
}

#[tactic(auto, using(crate::proofs::Numbers::numbers))]
pub fn word_at(bytes: &[u8], at: usize) -> u32
    requires { at + 4 ≤ length bytes.now }
    ensures { result ≡ number_at bytes.now at 4 }
{
    u32::from_le_bytes([bytes[at], bytes[at + 1], bytes[at + 2], bytes[at + 3]])
}

#[tactic(auto, using(crate::proofs::Numbers::numbers))]
fn double(bytes: &[u8], at: usize) -> u64
    requires { at + 8 ≤ length bytes.now }
    ensures { result ≡ number_at bytes.now at 8 }
{
    u64::from_le_bytes([
        bytes[at],
        bytes[at + 1],
        bytes[at + 2],
        bytes[at + 3],
        bytes[at + 4],
        bytes[at + 5],
        bytes[at + 6],
        bytes[at + 7],
    ])
}

/// The number that stands at a place, the lowest byte first.
#[inline(always)]
#[tactic(auto, using(crate::proofs::Numbers::numbers))]
pub fn number_at(bytes: &[u8], at: usize, size: Size) -> u64
    requires { at + size_of size ≤ length bytes.now }
    ensures value { result ≡ number_at bytes.now at (size_of size) }
    ensures small { result < 256 ^ size_of size }
{
    match size {
        Size::Byte => u64::from(bytes[at]),
        Size::Half => u64::from(half(bytes, at)),
        Size::Word => u64::from(word_at(bytes, at)),
        Size::Double => double(bytes, at),
    }
}

/// Writes the low bytes of a value at a place, the lowest first.
#[inline(always)]
pub fn put_number(bytes: &mut [u8], at: usize, size: Size, value: u64)
    requires { at + size_of size ≤ length bytes.old }
    ensures { bytes.new ≡ with_number bytes.old at (size_of size) value }
{
    let mut rest = value;
    for k in 0..size.bytes() as usize {
        bytes[at + k] = (rest % 0x100) as u8;
        rest /= 0x100;
    }
}
