// Worked images by hand from the ELF-64 Object File Format, DWARF 5 and the LSB Core's "Exception
// Frames", and what is printed of them and of changes.
use crate::clean_images::WORKED;
use std::alloc::Global;
use std::test::Fail;
use table_dump::{ImageError, dump_image};
use table_forms::Reason;

static TEXT: &str = "image entry 0x1010c
segment 0x10000 0x10130 r-x
cie 0x100c4 version 1 aug zLR code 4 data -8 ra x1
frame 0x1010c 0x10130
  row 0x1010c cfa x2+0
  row 0x10110 cfa x2+16 x1=c-8
  lsda 0x100fc
  site 0x1011c 0x10124 pad 0x1012c action 1
  action 1: 1
  type 1: 0x0
";

// For any place in memory: frames at 0xf0 of three CIEs, of which the last is a signal frame's, and a
// table at 0x198 with call sites in four bytes, an indirect type, and a list. The second segment
// holds the word to which the indirect type leads.
static ANYWHERE: &[u8] = b"\x7fELF\x02\x01\x01\0\0\0\0\0\0\0\0\0\
\x03\0\xf3\0\x01\0\0\0\xe0\x01\0\0\0\0\0\0\
@\0\0\0\0\0\0\0\0\0\0\0\0\0\0\0\
\0\0\0\0@\08\0\x03\0\0\0\0\0\0\0\
\x01\0\0\0\x05\0\0\0\0\0\0\0\0\0\0\0\
\0\0\0\0\0\0\0\0\0\0\0\0\0\0\0\0\
\x20\x02\0\0\0\0\0\0\x20\x02\0\0\0\0\0\0\
\0\0\0\0\0\0\0\0\x01\0\0\0\x06\0\0\0\
\x20\x02\0\0\0\0\0\0\x20\x12\0\0\0\0\0\0\
\x20\x12\0\0\0\0\0\0\x08\0\0\0\0\0\0\0\
\x10\0\0\0\0\0\0\0\0\0\0\0\0\0\0\0\
P\xe5td\x04\0\0\0\xe8\0\0\0\0\0\0\0\
\xe8\0\0\0\0\0\0\0\xe8\0\0\0\0\0\0\0\
\x08\0\0\0\0\0\0\0\x08\0\0\0\0\0\0\0\
\0\0\0\0\0\0\0\0\x01\x1b\xff\xff\x04\0\0\0\
\x10\0\0\0\0\0\0\0\x01zR\0\x01|\x01\x01\
\x1b\x0c\x02\0\x1c\0\0\0\x18\0\0\0\xd4\0\0\0\
\x10\0\0\0\0D\x0e\x10\x81\x04\x0aD\x0e\0\xc1D\
\x0b\0\0\0\x18\0\0\0\0\0\0\0\x03zPL\
R\0\x02x\x01\x07\x1b\0\0\0\0\x1b\x1b\x0c\x02\0\
\x18\0\0\0\x20\0\0\0\xa8\0\0\00\0\0\0\
\x04G\0\0\0B\x0e\x20\x88\x02\0\0\x20\0\0\0\
\0\0\0\0\x01zRS\0\x01|\x01\x01\x1b\x0c\x08\
\x10\x07\x01\x08\x02\x09\x09\x05\x14\x12\x01\x05(\x02\0\0\
\x10\0\0\0(\0\0\0P\0\0\0\x08\0\0\0\
\0\0\0\0\0\0\0\0\xff\x9b9\x03'\0\0\0\
\0\x08\0\0\0\0\0\0\0\0\x08\0\0\0\x08\0\
\0\0\x20\0\0\0\x03\x10\0\0\0\x10\0\0\0$\
\0\0\0\x01\x01\0\x7f\x01\0{\0\0\0\0\0\0\
P\x10\0\0\x02\0\0\0\x13\0\0\0\x13\0\0\0\
\x13\0\0\0\x13\0\0\0\x13\0\0\0\x13\0\0\0\
\x13\0\0\0\x13\0\0\0\x13\0\0\0\x13\0\0\0\
\x13\0\0\0\x13\0\0\0\x13\0\0\0\x13\0\0\0\
\x13\0\0\0\x13\0\0\0\x13\0\0\0\x13\0\0\0\
4\x12\0\0\0\0\0\0";

static ANYWHERE_TEXT: &str = "image entry 0x1e0
segment 0x0 0x220 r-x
segment 0x1220 0x1230 rw-
cie 0xf0 version 1 aug zR code 1 data -4 ra x1
cie 0x124 version 3 aug zPLR code 2 data -8 ra x1
cie 0x15c version 1 aug zRS code 1 data -4 ra x1
frame 0x1d8 0x1e0
  row 0x1d8 cfa x8+16 x1=u x2=s x9=x5 x18=v-4 f8=c-8
frame 0x1e0 0x1f0
  row 0x1e0 cfa x2+0
  row 0x1e4 cfa x2+16 x1=c-16
  row 0x1e8 cfa x2+0
  row 0x1ec cfa x2+16 x1=c-16
frame 0x1f0 0x220
  row 0x1f0 cfa x2+0
  row 0x1f4 cfa x2+32 x8=c-16
  lsda 0x198
  site 0x1f0 0x1f8 pad 0x0 action 0
  site 0x1f8 0x200 pad 0x210 action 3
  site 0x200 0x210 pad 0x214 action 1
  action 1: 1
  action 3: -1 0 1
  type 1: 0x1234
  type 2: 0x0
  list -1: 2
";

// Loaded at 0x20000 and nowhere else: a header with a table of three rows, at 0xd4 a CIE without
// letters and one whose tables and locations are absolute, at 0x160 a table with an LPStart and
// absolute types, and at 0x190 one without types.
static ABSOLUTE: &[u8] = b"\x7fELF\x02\x01\x01\0\0\0\0\0\0\0\0\0\
\x02\0\xf3\0\x01\0\0\0\0\x02\x02\0\0\0\0\0\
@\0\0\0\0\0\0\0\0\0\0\0\0\0\0\0\
\0\0\0\0@\0\x38\0\x02\0\0\0\0\0\0\0\
\x01\0\0\0\x05\0\0\0\0\0\0\0\0\0\0\0\
\0\0\x02\0\0\0\0\0\0\0\x02\0\0\0\0\0\
@\x02\0\0\0\0\0\0@\x02\0\0\0\0\0\0\
\0\x10\0\0\0\0\0\0P\xe5td\x04\0\0\0\
\xb0\0\0\0\0\0\0\0\xb0\0\x02\0\0\0\0\0\
\xb0\0\x02\0\0\0\0\0$\0\0\0\0\0\0\0\
$\0\0\0\0\0\0\0\x04\0\0\0\0\0\0\0\
\x01\x1b\x03;\x20\0\0\0\x03\0\0\0P\x01\0\0\
\x34\0\0\0p\x01\0\0l\0\0\0\x80\x01\0\0\
\x8c\0\0\0\x0c\0\0\0\0\0\0\0\x01\0\x01x\
\x01\x0c\x02\0\x1c\0\0\0\x14\0\0\0\0\x02\x02\0\
\0\0\0\0\x20\0\0\0\0\0\0\0D\x0e\x10\x81\
\x01\0\0\0\x14\0\0\0\0\0\0\0\x03zLR\
\0\x02|\x01\x02\0\x03\x0c\x02\0\0\0\x1c\0\0\0\
\x1c\0\0\0\x20\x02\x02\0\x10\0\0\0\x08`\x01\x02\
\0\0\0\0\0B\x0e\x20\x81\x02\0\0\x18\0\0\0\
<\0\0\0\x30\x02\x02\0\x10\0\0\0\x08\x90\x01\x02\
\0\0\0\0\0B\x0e\x10\0\0\0\0\0\0\0\0\
\x04\0\x02\x02\0\0\0\0\0\0$\x02\x0e\x04\0\x08\
\0\x10\0\x03\x0c\0\x04\0\x14\0\0\x02\0\x01}\0\
\0\0\0\0\0\0\0\0\x0f\x02\0\0\0\0\0\0\
\xff\xff\x01\x04\0\x10\0\0\0\0\0\0\0\0\0\0\
\0\0\0\0\0\0\0\0\0\0\0\0\0\0\0\0\
\0\0\0\0\0\0\0\0\0\0\0\0\0\0\0\0\
\0\0\0\0\0\0\0\0\0\0\0\0\0\0\0\0\
\0\0\0\0\0\0\0\0\0\0\0\0\0\0\0\0\
\0\0\0\0\0\0\0\0\0\0\0\0\0\0\0\0\
\0\0\0\0\0\0\0\0\0\0\0\0\0\0\0\0\
\x13\0\0\0\x13\0\0\0\x13\0\0\0\x13\0\0\0\
\x13\0\0\0\x13\0\0\0\x13\0\0\0\x13\0\0\0\
\x13\0\0\0\x13\0\0\0\x13\0\0\0\x13\0\0\0\
\x13\0\0\0\x13\0\0\0\x13\0\0\0\x13\0\0\0";

static ABSOLUTE_TEXT: &str = "image entry 0x20200
segment 0x20000 0x20240 r-x
cie 0x200d4 version 1 aug - code 1 data -8 ra x1
cie 0x20104 version 3 aug zLR code 2 data -4 ra x1
frame 0x20200 0x20220
  row 0x20200 cfa x2+0
  row 0x20204 cfa x2+16 x1=c-8
frame 0x20220 0x20230
  row 0x20220 cfa x2+0
  row 0x20224 cfa x2+32 x1=c-8
  lsda 0x20160
  site 0x20224 0x2022c pad 0x20210 action 3
  site 0x2022c 0x20230 pad 0x20214 action 0
  action 3: 1 2
  type 1: 0x20f00
  type 2: 0x0
frame 0x20230 0x20240
  row 0x20230 cfa x2+0
  row 0x20234 cfa x2+16
  lsda 0x20190
  site 0x20230 0x20240 pad 0x0 action 0
";

// The bytes put at a place, a line that then stands in place of another one.
static CHANGES: &[(usize, &[u8], &str, &str)] = &[
    (0, b"", "", ""),
    (
        0xfd,
        b"\x9b\x0d\x01\x04\x10\x08\x20\x01\x01\0\0\x04\0\0\0",
        "  type 1: 0x0\n",
        "  type 1: 0x1300000013\n",
    ),
    (0x44, b"\x07", " r-x\n", " rwx\n"),
    (0xd3, b"\x3f", " ra x1\n", " ra f31\n"),
    (
        0xf2,
        b"\x08\x21\0\0",
        "cfa x2+16 x1=c-8\n",
        "cfa x2+0 f1=s\n",
    ),
    (
        0xf2,
        b"\x09\x08\x20\x07\x03",
        "cfa x2+16 x1=c-8\n",
        "cfa x2+0 x3=u x8=f0\n",
    ),
    (
        0xf2,
        b"\x14\x05\x02\0",
        "cfa x2+16 x1=c-8\n",
        "cfa x2+0 x5=v-16\n",
    ),
    (0xf2, b"\x12\x08\x01\0", "cfa x2+16 x1=c-8\n", "cfa x8-8\n"),
    (
        0x105,
        b"\x7f\0\0\0\0\0\0\x01\0",
        "action 1: 1\n  type 1: 0x0\n",
        "action 1: -1\n  type 1: 0x0\n  list -1: 1\n",
    ),
    (
        0x105,
        b"\x7f\0\0\0\0\0\0\0",
        "action 1: 1\n  type 1: 0x0\n",
        "action 1: -1\n  list -1: \n",
    ),
    (
        0x104,
        b"\0",
        "action 1\n  action 1: 1\n  type 1: 0x0\n",
        "action 0\n",
    ),
];

// The worked image with some bytes changed.
fn image(alloc: Global, at: usize, bytes: &[u8]) -> Result<Vec<u8>, Fail> {
    let mut image = WORKED.to_vec(alloc)?;
    for (i, byte) in bytes.iter().enumerate() {
        if let Some(place) = image.get_mut(at.wrapping_add(i)) {
            *place = *byte;
        }
    }
    Ok(image)
}

#[test]
fn a_worked_image_and_changes(rt: HostRuntime) -> Result<(), Fail> {
    let alloc = rt.alloc();
    for &(at, bytes, old, new) in CHANGES {
        let wanted = if old.is_empty() {
            String::from_str(alloc, TEXT)?
        } else {
            TEXT.replace(alloc, old, new)?
        };
        let text = dump_image(alloc, &image(alloc, at, bytes)?);
        assert_eq!(rt; text.as_deref(), Ok(wanted.as_bytes()), "{bytes:?} at {at}");
    }
    Ok(())
}

#[test]
fn an_image_for_any_place(rt: HostRuntime) -> Result<(), Fail> {
    let alloc = rt.alloc();
    let text = dump_image(alloc, ANYWHERE);
    assert_eq!(rt; text.as_deref(), Ok(ANYWHERE_TEXT.as_bytes()));
    Ok(())
}

#[test]
fn an_image_for_one_place(rt: HostRuntime) -> Result<(), Fail> {
    let alloc = rt.alloc();
    let text = dump_image(alloc, ABSOLUTE);
    assert_eq!(rt; text.as_deref(), Ok(ABSOLUTE_TEXT.as_bytes()));
    Ok(())
}

#[test]
fn a_refused_image(rt: HostRuntime) -> Result<(), Fail> {
    let alloc = rt.alloc();
    let text = dump_image(alloc, &image(alloc, 0x106, b"\x7f".as_slice())?);
    let refused = ImageError::Refused {
        reason: Reason::ActionLoop,
        place: 261,
        location: 0,
        other: 0,
    };
    assert_eq!(rt; text.err(), Some(refused));
    Ok(())
}
