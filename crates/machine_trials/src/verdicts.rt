// Look-ups in a table of eight sites, by hand from the Itanium C++ ABI's "Exception Handling Tables".
use eh_bytes::{ListSite, LsdaList, Region64, Segment, Segments};
use eh_write::write_lsda;
use lsda_read::Lsda;
use personality::{FrameView, Thrown, TypeChain, personality};
use std::alloc::Global;
use std::test::Fail;
use table_forms::Verdict;

const TABLE: u64 = 0x2000;

// A function of 256 bytes at 0x1000, whose pads stand at 0x1080.
const REGION: Region64 = Region64 {
    start: 0x1000,
    length: 0x100,
};

// The records of two types, and of one that is derived from the first.
const BASE: u64 = 0x500;

const OTHER: u64 = 0x600;

const DERIVED: u64 = 0x700;

// Two lists: of the first type, and none. Their filters are -1 and -3.
fn listed(alloc: Global) -> Result<LsdaList, Fail> {
    let mut types = Vec::new(alloc);
    for record in [BASE, OTHER, 0] {
        types.push(record)?;
    }
    let mut lists = Vec::new(alloc);
    for list in [[1].as_slice(), [].as_slice()] {
        lists.push(list.to_vec(alloc)?)?;
    }
    let mut chains = Vec::new(alloc);
    for chain in [
        [1].as_slice(),
        [0, 2].as_slice(),
        [-1].as_slice(),
        [3].as_slice(),
        [-3].as_slice(),
        [0].as_slice(),
    ] {
        chains.push(chain.to_vec(alloc)?)?;
    }
    let mut sites = Vec::new(alloc);
    for turn in 0..8u64 {
        sites.push(ListSite {
            start: turn.wrapping_mul(8),
            length: 8,
            pad: if turn == 0 { 0 } else { 0x80 },
            chain: (turn as u32).checked_sub(2),
        })?;
    }
    Ok(LsdaList {
        sites,
        chains,
        types,
        lists,
    })
}

fn memory(alloc: Global) -> Result<Segments, Fail> {
    let mut bytes = Vec::new(alloc);
    bytes.resize(0x1000, 0)?;
    write_lsda(alloc, &listed(alloc)?, TABLE, &mut bytes)?;
    let mut parts = Vec::new(alloc);
    parts.push(Segment {
        address: 0x1000,
        bytes,
        file_at: 0,
        write: false,
        exec: true,
    })?;
    Ok(Segments { parts })
}

fn native(first: u64, second: u64) -> Thrown {
    let mut records = [0; 64];
    records[0] = first;
    records[1] = second;
    Thrown::Native(TypeChain {
        records,
        length: if second == 0 { 1 } else { 2 },
    })
}

#[test]
fn a_table_of_eight_sites(rt: HostRuntime) -> Result<(), Fail> {
    let alloc = rt.alloc();
    let memory = memory(alloc)?;
    let base = native(BASE, 0);
    let derived = native(DERIVED, BASE);
    let other = native(OTHER, 0);
    let pad = 0x1080;
    let rows = [
        (0x1001, false, base, Verdict::Nothing),
        (0x1009, false, base, Verdict::Cleanup(pad)),
        (0x1009, false, Thrown::Forced, Verdict::Cleanup(pad)),
        (0x1010, false, base, Verdict::Cleanup(pad)),
        (0x1010, true, base, Verdict::Handler(pad, 1)),
        (0x1011, false, base, Verdict::Handler(pad, 1)),
        (0x1011, false, derived, Verdict::Handler(pad, 1)),
        (0x1011, false, other, Verdict::Nothing),
        (0x1011, false, Thrown::Foreign, Verdict::Nothing),
        (0x1019, false, other, Verdict::Handler(pad, 2)),
        (0x1019, false, base, Verdict::Cleanup(pad)),
        (0x1019, false, Thrown::Foreign, Verdict::Cleanup(pad)),
        (0x1019, false, Thrown::Forced, Verdict::Cleanup(pad)),
        (0x1021, false, base, Verdict::Nothing),
        (0x1021, false, derived, Verdict::Nothing),
        (0x1021, false, other, Verdict::Spec(pad, -1)),
        (0x1021, false, Thrown::Foreign, Verdict::Terminate),
        (0x1021, false, Thrown::Forced, Verdict::Nothing),
        (0x1029, false, other, Verdict::Handler(pad, 3)),
        (0x1029, false, Thrown::Foreign, Verdict::Handler(pad, 3)),
        (0x1029, false, Thrown::Forced, Verdict::Nothing),
        (0x1031, false, base, Verdict::Spec(pad, -3)),
        (0x1031, false, Thrown::Foreign, Verdict::Terminate),
        (0x1039, false, base, Verdict::Cleanup(pad)),
        (0x1040, false, base, Verdict::Cleanup(pad)),
        (0x1040, true, base, Verdict::Terminate),
        (0x1041, false, base, Verdict::Terminate),
        (0x1041, false, Thrown::Forced, Verdict::Terminate),
        (0, false, base, Verdict::Terminate),
    ];
    for (ip, signal, thrown, wanted) in rows {
        let table = Lsda::read_at(&memory, TABLE, REGION).expect(&rt, "no refusal");
        let frame = FrameView {
            ip,
            signal,
            lsda: Some(table),
        };
        for actions in 0..8 {
            let verdict = personality(actions, &thrown, &frame);
            assert_eq!(rt; verdict, wanted, "{thrown:?} at {ip:#x}, {signal}");
        }
    }
    let frame = FrameView {
        ip: 0x1011,
        signal: false,
        lsda: None,
    };
    assert_eq!(rt; personality(1, &base, &frame), Verdict::Nothing);
    Ok(())
}
