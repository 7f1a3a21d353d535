// What the definitions say of packed tables and images.
ghost use Rattle.lsda_pack.specs.Laws.{PackedOnce, PackedTableDecides, PackingKeeps, PacksNoMore};

/// Packed lists that are packed again stay as they are.
pub fn packed_lists_stay()
    ensures { PackedOnce }
{}

/// A table that stands for the packed lists of another decides at each place, and for whatever is
/// thrown, as that one.
pub fn packed_tables_decide_alike()
    ensures { PackedTableDecides }
{}

/// A packed image is as long as the image, has its bytes outside of packed tables, and is clean;
/// each of its functions has the verdict that it had, at each place and for whatever is thrown.
pub fn packed_images_keep_their_verdicts()
    ensures { PackingKeeps }
{}

/// A packed image that is packed again is not refused, and stays as it is: no table of it is
/// packed, and no byte is saved.
pub fn packed_images_pack_nothing()
    ensures { PacksNoMore }
{}
