// Images that another compiler wrote, which are packed.
use crate::produced::{IMAGES, Produced};
use lsda_pack::pack_image;
use std::alloc::{AllocError, Global};
use std::test::Fail;
use table_check::{Summary, check_image};
use table_dump::dump_image;

// The bytes of an image of another producer, as it is or packed.
fn produced(alloc: Global, image: &Produced, is_packed: bool) -> Result<Vec<u8>, AllocError> {
    let mut bytes = image.front.to_vec(alloc)?;
    for (_, before, after) in image.tables {
        let table = if is_packed { after } else { before };
        bytes.extend_from_slice(table.bytes)?;
    }
    bytes.extend_from_slice(image.back)?;
    Ok(bytes)
}

// The text of its dump: the same frames, and their tables.
fn dumped(alloc: Global, image: &Produced, is_packed: bool) -> Result<Vec<u8>, AllocError> {
    let mut text = image.head.as_bytes().to_vec(alloc)?;
    for (frame, before, after) in image.tables {
        let table = if is_packed { after } else { before };
        text.extend_from_slice(frame.as_bytes())?;
        text.extend_from_slice(table.lines.as_bytes())?;
    }
    Ok(text)
}

// What another compiler wrote is clean, packed as by hand, clean with the same frames, and then not packed again.
#[test]
fn images_of_another_compiler(rt: HostRuntime) -> Result<(), Fail> {
    let alloc = rt.alloc();
    let counts = Summary {
        cies: 1,
        frames: 4,
        tables: 4,
        sites: 13,
    };
    for image in IMAGES.iter() {
        for (is_packed, packed, saved) in [(false, image.packed, image.saved), (true, 0, 0)] {
            let bytes = produced(alloc, image, is_packed)?;
            assert_eq!(rt; check_image(alloc, &bytes), Ok(counts));
            let text = dump_image(alloc, &bytes)?;
            assert_eq!(rt;
                text.as_slice(),
                dumped(alloc, image, is_packed)?.as_slice()
            );
            let made = pack_image(alloc, &bytes)?;
            assert_eq!(rt;
                made.bytes.as_slice(),
                produced(alloc, image, true)?.as_slice()
            );
            assert_eq!(rt; (made.tables, made.packed, made.saved), (4, packed, saved));
        }
    }
    Ok(())
}
