// The examples of docstrings, on the worked image.
use crate::clean_images::WORKED;
use crate::rows::row_there;
use eh_bytes::{ByteError, RawCursor, Region64};
use elf_image::read_elf;
use frame_read::read_frames;
use lsda_read::Lsda;
use std::test::Fail;
use table_check::check_image;

#[test]
fn examples_of_docstrings(rt: HostRuntime) -> Result<(), Fail> {
    let alloc = rt.alloc();
    let mut cursor = RawCursor::new(b"\xe5\x8e\x26\x7e", 0);
    assert_eq!(rt; cursor.take_uleb(), Ok(624485));
    assert_eq!(rt; cursor.take_sleb(), Ok(-2));
    assert_eq!(rt; cursor.take_u8(), Err(ByteError::Truncated));

    let summary = check_image(alloc, WORKED).expect(&rt, "a clean image");
    assert_eq!(rt; (summary.frames, summary.tables), (1, 1));

    let elf = read_elf(alloc, WORKED, false).expect(&rt, "an image");
    let frames = read_frames(alloc, &elf.segments, elf.frame_header).expect(&rt, "no refusal");
    match row_there(&frames, &elf.segments, 0x1_0110) {
        None => assert!(rt; false, "a row"),
        Some((row, _)) => assert_eq!(rt; (row.cfa_register, row.cfa_offset), (2, 16)),
    }

    let region = Region64 {
        start: 0x1_010c,
        length: 36,
    };
    let table = Lsda::read_at(&elf.segments, 0x1_00fc, region).expect(&rt, "no refusal");
    let mut found = Vec::new(alloc);
    for site in table.sites() {
        for filter in table.chain(site.action) {
            found.push((site.start, site.end, site.pad, filter))?;
        }
    }
    assert_eq!(rt;
        found.as_slice(),
        [(0x1_011c, 0x1_0124, 0x1_012c, 1)].as_slice()
    );
    Ok(())
}
