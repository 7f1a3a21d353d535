// The types of an exception.
ghost use Rattle.std.specs.Prelude.{◌≤◌};

/// The addresses of the records of a type and of its bases, the type first.
#[derive(Clone, Copy, Debug)]
pub struct TypeChain {
    pub records: [u64; 64],
    /// How many of them count, at most 64.
    pub length: u8,
    pub ghost short: { length ≤ 64 },
}
