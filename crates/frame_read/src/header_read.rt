// What a header says.
use eh_bytes::HdrRow;
use table_forms::Refusal;

/// The encodings of the pointer to the frames, of the count and of the table.
#[derive(Clone, Copy, Drop)]
pub struct Encodings {
    pub pointer: u8,
    pub count: u8,
    pub table: u8,
}

/// The address of the frames, the rows of the table, and what is refused first, each as far as it
/// can be read.
#[derive(Drop)]
pub struct HeaderRead {
    pub frames_at: Option<u64>,
    pub rows: Option<Vec<HdrRow>>,
    pub least: Option<Refusal>,
}
