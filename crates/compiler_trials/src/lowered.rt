// The regions and the linear code of a source.

use class_layout::layout;
use cxx_ast::standard::Std;
use cxx_front::checked;
use landing_pads::pads;
use landing_pads::unit::UnitCode;
use region_ir::program::Regions;
use region_ir::regions;
use std::alloc::{AllocError, Global};

// The most bytes of a source.
const MOST: usize = 0x10_0000;

/// The regions of a source, or nothing where it is refused.
pub fn lowered(alloc: Global, source: &str) -> Result<Option<Regions>, AllocError> {
    if source.len() > MOST {
        return Ok(None);
    }
    match checked(alloc, source.as_bytes(), Std::Cxx03) {
        Err(_) => Ok(None),
        Ok(program) => {
            let layout = layout(alloc, &program.classes)?;
            Ok(Some(regions(alloc, &program, &layout)?))
        }
    }
}

/// The linear code of a source, or nothing where it is refused.
pub fn linear(alloc: Global, source: &str) -> Result<Option<UnitCode>, AllocError> {
    match lowered(alloc, source)? {
        None => Ok(None),
        Some(regions) => Ok(Some(pads(alloc, &regions)?)),
    }
}
