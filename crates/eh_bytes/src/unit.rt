// The machine code of a unit with its tables, before it has addresses, and what an image records for the runtime.
use crate::frames::FrameMove;
use crate::name::RowName;
use crate::table::LsdaList;

/// A type record: its kind (1 int, 2 class, 3 `std::bad_exception`), its name, and the number of
/// the row of its direct base.
#[derive(Drop)]
pub struct TypeRow {
    pub kind: u32,
    pub name: RowName,
    pub base: Option<u32>,
}

/// The words of a unit's functions, its type records, the values of its globals, and the number
/// of tokens of its source.
#[derive(Drop)]
pub struct Emitted {
    pub code: Vec<u32>,
    pub functions: Vec<EmittedFunc>,
    pub types: Vec<TypeRow>,
    pub globals: Vec<i32>,
    pub tokens: u32,
}

/// A function: its words in the unit's code from `first` on, its exception table, and its frame.
///
/// The places of `table` and the locations of `moves` count from the function's first byte. A type
/// of `table` is 0 for `catch (...)`, else one more than the number of its row in the unit's types.
#[derive(Drop)]
pub struct EmittedFunc {
    pub name: RowName,
    pub first: u32,
    pub words: u32,
    pub table: LsdaList,
    pub moves: Vec<FrameMove>,
}

/// What an image records for the runtime: the address of its terminate stub, and of the type
/// record of `std::bad_exception`.
#[derive(Clone, Copy, Debug, PartialEq, Eq)]
pub struct RuntimeRecord {
    pub terminate: u64,
    pub bad_exception: u64,
}
