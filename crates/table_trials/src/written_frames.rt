// Frames and their header as bytes, by hand from the LSB Core's tables and DWARF 5, 7.24.
use eh_bytes::{FrameChange, FrameList, FrameMove, HdrRow, ListFde, Region64};
use eh_write::{write_eh_frame, write_hdr};
use std::alloc::Global;
use std::test::Fail;

fn moves(alloc: Global, changes: &[FrameMove]) -> Result<Vec<FrameMove>, Fail> {
    Ok(changes.to_vec(alloc)?)
}

// A function of 36 bytes that saves x1 behind its first instruction.
#[test]
fn a_worked_frame(rt: HostRuntime) -> Result<(), Fail> {
    let alloc = rt.alloc();
    let changes = [
        FrameMove {
            location: 0x1_0110,
            change: FrameChange::Cfa(16),
        },
        FrameMove {
            location: 0x1_0110,
            change: FrameChange::Saved(1, -8),
        },
    ];
    let mut fdes = Vec::new(alloc);
    fdes.push(ListFde {
        region: Region64 {
            start: 0x1_010c,
            length: 0x24,
        },
        lsda: 0x1_00fc,
        moves: moves(alloc, changes.as_slice())?,
    })?;
    let mut bytes = Vec::new(alloc);
    write_eh_frame(alloc, &FrameList { lsda: true, fdes }, 0x1_00c4, &mut bytes)?;
    let wanted = b"\x14\0\0\0\0\0\0\0\x01zLR\0\x04\x78\x01\x02\x1b\x1b\x0c\x02\0\0\0\
\x18\0\0\0\x1c\0\0\0\x28\0\0\0\x24\0\0\0\x04\x0f\0\0\0\x41\x0e\x10\x81\x01\0\0\0\0\0\0";
    assert_eq!(rt; bytes.as_slice(), wanted.as_slice());
    Ok(())
}

// Without tables; a location 0x200 bytes on, and a register without a value.
#[test]
fn a_frame_without_tables(rt: HostRuntime) -> Result<(), Fail> {
    let alloc = rt.alloc();
    let changes = [
        FrameMove {
            location: 0x2000,
            change: FrameChange::Undefined(1),
        },
        FrameMove {
            location: 0x2200,
            change: FrameChange::Cfa(0x80),
        },
    ];
    let mut fdes = Vec::new(alloc);
    fdes.push(ListFde {
        region: Region64 {
            start: 0x2000,
            length: 0x400,
        },
        lsda: 0,
        moves: moves(alloc, changes.as_slice())?,
    })?;
    let mut bytes = Vec::new(alloc);
    write_eh_frame(alloc, &FrameList { lsda: false, fdes }, 0x1000, &mut bytes)?;
    let wanted = b"\x10\0\0\0\0\0\0\0\x01zR\0\x04\x78\x01\x01\x1b\x0c\x02\0\
\x18\0\0\0\x18\0\0\0\xe4\x0f\0\0\0\x04\0\0\0\x07\x01\x04\x80\0\0\0\x0e\x80\x01\0\0\0\0\0";
    assert_eq!(rt; bytes.as_slice(), wanted.as_slice());
    Ok(())
}

#[test]
fn a_worked_header(rt: HostRuntime) -> Result<(), Fail> {
    let alloc = rt.alloc();
    let rows = [HdrRow {
        location: 0x1_010c,
        fde: 0x1_00dc,
    }];
    let mut bytes = Vec::new(alloc);
    write_hdr(alloc, rows.as_slice(), 0x1_00c4, 0x1_00b0, &mut bytes)?;
    let wanted = b"\x01\x1b\x03\x3b\x10\0\0\0\x01\0\0\0\x5c\0\0\0\x2c\0\0\0";
    assert_eq!(rt; bytes.as_slice(), wanted.as_slice());
    Ok(())
}
