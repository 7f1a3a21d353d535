// The rows of an FDE behind the instructions of its CIE, of which is kept what they leave.
ghost use Rattle.std.specs.Prelude.{◌≡◌};
ghost use Rattle.eh_bytes.specs.Memory.{part_of};
ghost use Rattle.table_forms.specs.Fde.{Fde};
ghost use Rattle.frame_read.specs.CieFold.{IsFold};
ghost use Rattle.frame_read.specs.Known.{HasPlaces, IsKnown};
ghost use Rattle.frame_read.specs.RowWalk.{IsWalk};

use crate::cie_fold::CieFold;
use crate::lookup::FdeHere;
use crate::row_walk::RowWalk;
use eh_bytes::Segment;

impl<'a> RowWalk<'a> {
    /// Before the first instruction of its own, at the first place of the region of an FDE that was
    /// read before.
    pub fn behind(kept: &CieFold, here: &FdeHere<'_>, segment: &'a Segment) -> RowWalk<'a>
        requires places { HasPlaces segment.now.bytes.items here.now }
        requires kept { (f : Fde) × IsKnown (part_of segment.now) here.now f × IsFold kept.now f.cie }
        ensures { (f : Fde) → IsKnown (part_of segment.now) here.now f → IsFold kept.now f.cie → IsWalk result f f.region.start }
    {
        RowWalk {
            segment,
            coding: here.cie.coding,
            folding: kept.begun(here.fde.region.start),
            place: here.fde.first,
            stop: here.fde.stop,
            own: None,
        }
    }
}
