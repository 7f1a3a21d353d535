// Sources that are read.
use cxx_ast::program::Checked;
use cxx_ast::standard::Std;
use cxx_front::{SourceError, checked};
use std::alloc::Global;

/// The checked program of a source.
pub fn program(alloc: Global, source: &[u8]) -> Result<Checked, SourceError> {
    if source.len() > 1_048_576 {
        return Err(SourceError::NoMemory);
    }
    checked(alloc, source, Std::Cxx03)
}
