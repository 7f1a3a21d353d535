// Tables with room to spare, packed and written by hand.
use eh_bytes::{ListSite, LsdaList};
use lsda_pack::{pack_lists, write_packed};
use std::alloc::{AllocError, Global};
use std::test::Fail;

fn site(start: u64, length: u64, pad: u64, chain: u32) -> ListSite {
    ListSite {
        start,
        length,
        pad,
        chain: Some(chain),
    }
}

// Two neighbouring sites of one pad, with a chain each, which are the same; and two types, of which they name the first.
fn spread(alloc: Global) -> Result<LsdaList, AllocError> {
    Ok(LsdaList {
        sites: [site(0, 4, 16, 0), site(4, 4, 16, 1)].to_vec(alloc)?,
        chains: vec![in alloc; vec![in alloc; 1]?, vec![in alloc; 1]?]?,
        types: [0x5000, 0x6000].to_vec(alloc)?,
        lists: Vec::new(alloc),
    })
}

fn packed(alloc: Global) -> Result<LsdaList, AllocError> {
    Ok(LsdaList {
        sites: [site(0, 8, 16, 0)].to_vec(alloc)?,
        chains: vec![in alloc; vec![in alloc; 1]?]?,
        types: [0x5000].to_vec(alloc)?,
        lists: Vec::new(alloc),
    })
}

// No start for landing pads; types by four bytes from their entries, up to byte 16; one site and one record, and a 0 before the type.
static BYTES: &[u8] = b"\xff\x1b\x0d\x01\x04\0\x08\x10\x01\x01\0\0\xf4\x3f\0\0";

#[test]
fn a_table(rt: HostRuntime) -> Result<(), Fail> {
    let alloc = rt.alloc();
    let lists = pack_lists(alloc, &spread(alloc)?)?;
    assert_eq!(rt; lists, packed(alloc)?);
    let mut out = Vec::new(alloc);
    write_packed(alloc, &lists, 0x1000, &mut out)?;
    assert_eq!(rt; out.as_slice(), BYTES);
    Ok(())
}

// The same with `catch (...)` alone, whose entry is 0.
fn spread_for_all(alloc: Global) -> Result<LsdaList, AllocError> {
    Ok(LsdaList {
        sites: [site(0, 8, 32, 0), site(8, 8, 32, 1)].to_vec(alloc)?,
        chains: vec![in alloc; vec![in alloc; 1]?, vec![in alloc; 1]?]?,
        types: [0].to_vec(alloc)?,
        lists: Vec::new(alloc),
    })
}

static BYTES_FOR_ALL: &[u8] = b"\xff\x1b\x0d\x01\x04\0\x10\x20\x01\x01\0\0\0\0\0\0";

#[test]
fn a_table_for_all(rt: HostRuntime) -> Result<(), Fail> {
    let alloc = rt.alloc();
    let lists = pack_lists(alloc, &spread_for_all(alloc)?)?;
    let mut out = Vec::new(alloc);
    write_packed(alloc, &lists, 0x1000, &mut out)?;
    assert_eq!(rt; out.as_slice(), BYTES_FOR_ALL);
    Ok(())
}
