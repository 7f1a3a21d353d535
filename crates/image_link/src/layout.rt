// Where the parts of an image stand.

/// The first byte of the globals, of the records, of the code and of the unit's code, and of the names.
#[derive(Clone, Copy)]
pub struct Layout {
    pub globals: u64,
    pub records: u64,
    pub code: u64,
    pub unit: u64,
    pub names: u64,
}
