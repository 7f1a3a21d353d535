//! Machine code of linear code, as plain data. `specs/` has the definitions: the RV64IM instructions of each operation, the frame of a
//! function, and the words, tables and frame moves of a unit and of the runtime's own functions.
#![tactic(auto)]

pub mod laws;
