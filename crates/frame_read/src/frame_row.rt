// Rows of places of an FDE that was listed, and the locations where they change.
ghost use Rattle.std.specs.Prelude.{◌≡◌, ℕ, true, Ok, Contains, IfOk};
ghost use Rattle.eh_bytes.specs.Memory.{memory_of};
ghost use Rattle.table_forms.specs.Fde as forms;
ghost use Rattle.table_forms.specs.Frames.{frames};
ghost use Rattle.frame_read.specs.ReadsFrames.{ReadsFrames};
ghost use Rattle.frame_read.specs.Given.{IsFrameOf};
ghost use Rattle.frame_read.specs.CieFolds.{AreFolds};
ghost use Rattle.frame_read.specs.FdeRows.{AreRows};
ghost use Rattle.frame_read.specs.RowWalk.{IsWalk};

use crate::cie_folds::CieFolds;
use crate::fde_rows::{FdeRows, rows_in};
use crate::frame_list::Frames;
use crate::listed::Fde;
use crate::lookup::{next_in, row_in};
use crate::row_walk::{RowWalk, walk_in};
use eh_bytes::Segments;
use std::alloc::{AllocError, Global};
use table_forms::Row;

impl Frames {
    /// The row of a place in the region of an FDE of this list (DWARF 5, 6.4.3), read from a memory
    /// from which `read_frames` gives this list. No memory is taken.
    pub fn row_at(&self, memory: &Segments, fde: &Fde, pc: u64) -> Row
        requires read { (header : ℕ) × ReadsFrames (Ok self.now) (frames (memory_of memory.now) header) }
        requires listed { Contains self.now.fdes fde.now }
        requires inside { forms.is_in fde.now.region pc ≡ true }
        ensures { (f : forms.Fde) → IsFrameOf (memory_of memory.now) self.now fde.now pc f → result ≡ forms.row_at f pc }
    {
        match row_in(memory, fde.address, pc) {
            Some(row) => row,
            None => unreachable!(),
        }
    }

    /// The least location above a place in the region of an FDE of this list, inside the region, to
    /// which its instructions or those of its CIE move, in a memory from which `read_frames` gives
    /// this list: none exactly where there is none. Up to it the row of the place may hold on; a
    /// move back counts as any other (DWARF 5, 6.4.2.1). No memory is taken.
    pub fn next_location(&self, memory: &Segments, fde: &Fde, pc: u64) -> Option<u64>
        requires read { (header : ℕ) × ReadsFrames (Ok self.now) (frames (memory_of memory.now) header) }
        requires listed { Contains self.now.fdes fde.now }
        requires inside { forms.is_in fde.now.region pc ≡ true }
        ensures { (f : forms.Fde) → IsFrameOf (memory_of memory.now) self.now fde.now pc f → result ≡ forms.next_location f pc }
    {
        next_in(memory, fde.address, pc)
    }

    /// The rows of an FDE of this list (DWARF 5, 6.4.3), read from a memory from which `read_frames`
    /// gives this list: their locations, which are the start of the region and then each next location,
    /// and a walk at the first of them. What the instructions of CIEs leave is kept for the FDEs to
    /// come.
    pub fn rows<'m>(
        &self,
        alloc: Global,
        memory: &'m Segments,
        fde: &Fde,
        folds: &mut CieFolds,
    ) -> Result<FdeRows<'m>, AllocError>
        requires read { (header : ℕ) × ReadsFrames (Ok self.now) (frames (memory_of memory.now) header) }
        requires listed { Contains self.now.fdes fde.now }
        requires inside { (pc : ℕ) × (forms.is_in fde.now.region pc ≡ true) }
        requires folds { AreFolds (memory_of memory.now) folds.old }
        ensures folds { AreFolds (memory_of memory.now) folds.new }
        ensures rows { IfOk result (λ r. (f : forms.Fde) (pc : ℕ) → IsFrameOf (memory_of memory.now) self.now fde.now pc f → AreRows r f) }
    {
        rows_in(alloc, memory, fde.address, folds)
    }

    /// The rows of an FDE of this list at rising places, from the first of its region on, read from a
    /// memory from which `read_frames` gives this list. No memory is taken.
    pub fn walk<'m>(&self, memory: &'m Segments, fde: &Fde) -> RowWalk<'m>
        requires read { (header : ℕ) × ReadsFrames (Ok self.now) (frames (memory_of memory.now) header) }
        requires listed { Contains self.now.fdes fde.now }
        requires inside { (pc : ℕ) × (forms.is_in fde.now.region pc ≡ true) }
        ensures { (f : forms.Fde) (pc : ℕ) → IsFrameOf (memory_of memory.now) self.now fde.now pc f → IsWalk result f f.region.start }
    {
        match walk_in(memory, fde.address) {
            Some(walk) => walk,
            None => unreachable!(),
        }
    }
}
