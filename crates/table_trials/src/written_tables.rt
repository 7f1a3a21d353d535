// Worked tables as bytes, and generated lists that are read again.
ghost use Rattle.std.specs.Prelude.{◌<◌, ◌^◌};

use eh_bytes::{ListSite, LsdaList, Region64, Segment, Segments};
use eh_write::write_lsda;
use lsda_read::Lsda;
use std::alloc::Global;
use std::test::Fail;
use table_forms::Site;

const REGION: Region64 = Region64 {
    start: 0x2_2000,
    length: 0x1000,
};

#[derive(Drop)]
struct Random(u64);

impl Random {
    fn below(&mut self, n: u64) -> u64
        ensures { result < 2 ^ 31 }
    {
        self.0 = self
            .0
            .wrapping_mul(0x5851_f42d_4c95_7f2d)
            .wrapping_add(0x1405_7b7e_f767_814f);
        (self.0 >> 33) % n.max(1)
    }
}

// Some of them are 0, the others lie above the table's first address.
fn types(alloc: Global, random: &mut Random) -> Result<Vec<u64>, Fail> {
    let mut types = Vec::new(alloc);
    for _ in 0..random.below(5) + 1 {
        let kind = random.below(3);
        let address = 0x1_0000 + random.below(0x8000);
        types.push(if kind == 0 { 0 } else { address })?;
    }
    Ok(types)
}

// Lists of so many types, and the filter of each, whose sign is turned.
fn lists(
    alloc: Global,
    random: &mut Random,
    types: u64,
) -> Result<(Vec<Vec<u64>>, Vec<i64>), Fail> {
    let mut lists: Vec<Vec<u64>> = Vec::new(alloc);
    let mut firsts = Vec::new(alloc);
    let mut first = 1i64;
    for _ in 0..random.below(4) {
        let mut list = Vec::new(alloc);
        for _ in 0..random.below(4) {
            list.push(random.below(types) + 1)?;
        }
        firsts.push(first)?;
        first = first.wrapping_add(list.len() as i64).wrapping_add(1);
        lists.push(list)?;
    }
    Ok((lists, firsts))
}

fn filter(random: &mut Random, types: u64, firsts: &[i64]) -> i64 {
    match random.below(3) {
        0 => 0,
        1 => random.below(types) as i64 + 1,
        _ => {
            let at = random.below(firsts.len() as u64) as usize;
            0i64.wrapping_sub(firsts.get(at).copied().unwrap_or(0))
        }
    }
}

fn chains(
    alloc: Global,
    random: &mut Random,
    types: u64,
    firsts: &[i64],
) -> Result<Vec<Vec<i64>>, Fail> {
    let mut chains: Vec<Vec<i64>> = Vec::new(alloc);
    for _ in 0..random.below(40) + 1 {
        let mut chain = Vec::new(alloc);
        for _ in 0..random.below(4) + 1 {
            chain.push(filter(random, types, firsts))?;
        }
        chains.push(chain)?;
    }
    Ok(chains)
}

fn sites(alloc: Global, random: &mut Random, chains: u64) -> Result<Vec<ListSite>, Fail> {
    let mut sites = Vec::new(alloc);
    let mut start = 0u64;
    for _ in 0..random.below(20) {
        start = start.wrapping_add(random.below(20));
        let length = random.below(40);
        let pad = random.below(0x1000);
        let chain = random.below(chains.saturating_add(1)) as u32;
        sites.push(ListSite {
            start,
            length,
            pad,
            chain: chain.checked_sub(1),
        })?;
        start = start.wrapping_add(length);
    }
    Ok(sites)
}

fn generated(alloc: Global, random: &mut Random) -> Result<LsdaList, Fail> {
    let types = types(alloc, random)?;
    let (lists, firsts) = lists(alloc, random, types.len() as u64)?;
    let chains = chains(alloc, random, types.len() as u64, &firsts)?;
    let sites = sites(alloc, random, chains.len() as u64)?;
    Ok(LsdaList {
        sites,
        chains,
        types,
        lists,
    })
}

fn memory(alloc: Global, bytes: &[u8]) -> Result<Segments, Fail> {
    let mut all = bytes.to_vec(alloc)?;
    all.resize(bytes.len().max(0x4000), 0)?;
    let mut parts = Vec::new(alloc);
    parts.push(Segment {
        address: 0x2_0000,
        bytes: all,
        file_at: 0,
        write: false,
        exec: true,
    })?;
    Ok(Segments { parts })
}

#[test]
fn generated_lists_are_read_again(rt: HostRuntime) -> Result<(), Fail> {
    let alloc = rt.alloc();
    let mut random = Random(1);
    for turn in 0..200 {
        let list = generated(alloc, &mut random)?;
        let mut bytes = Vec::new(alloc);
        write_lsda(alloc, &list, 0x2_0000, &mut bytes)?;
        let memory = memory(alloc, &bytes)?;
        let table = Lsda::read_at(&memory, 0x2_0000, REGION).expect(&rt, "no refusal");
        let sites: Vec<Site> = table.sites().collect(alloc)?;
        assert_eq!(rt; sites.len(), list.sites.len(), "turn {turn}");
        for (site, wanted) in table.sites().zip(list.sites.iter()) {
            assert_eq!(rt;
                site.start,
                REGION.start.wrapping_add(wanted.start),
                "turn {turn}"
            );
            assert_eq!(rt;
                site.end,
                REGION
                    .start
                    .wrapping_add(wanted.start)
                    .wrapping_add(wanted.length),
                "turn {turn}"
            );
            let pad = if wanted.pad == 0 {
                0
            } else {
                REGION.start.wrapping_add(wanted.pad)
            };
            assert_eq!(rt; site.pad, pad, "turn {turn}");
            if let Some(chain) = wanted.chain {
                let filters: Vec<i64> = table.chain(site.action).collect(alloc)?;
                assert_eq!(rt;
                    Some(&filters),
                    list.chains.get(chain as usize),
                    "turn {turn}"
                );
                for filter in filters.iter() {
                    if *filter > 0 {
                        let i = *filter as u64;
                        let value = table.type_entry(i);
                        assert_eq!(rt;
                            Some(&value),
                            list.types.get((i as usize).wrapping_sub(1)),
                            "turn {turn}"
                        );
                    }
                }
            } else {
                assert_eq!(rt; site.action, 0, "turn {turn}");
            }
        }
    }
    Ok(())
}

// By hand from the Itanium C++ ABI's "Exception Handling Tables".
#[test]
fn a_worked_table(rt: HostRuntime) -> Result<(), Fail> {
    let alloc = rt.alloc();
    let mut sites = Vec::new(alloc);
    sites.push(ListSite {
        start: 0x10,
        length: 8,
        pad: 0x20,
        chain: Some(0),
    })?;
    let mut chain = Vec::new(alloc);
    chain.push(1)?;
    let mut chains = Vec::new(alloc);
    chains.push(chain)?;
    let mut types = Vec::new(alloc);
    types.push(0)?;
    let list = LsdaList {
        sites,
        chains,
        types,
        lists: Vec::new(alloc),
    };
    let mut bytes = Vec::new(alloc);
    write_lsda(alloc, &list, 0x1_00fc, &mut bytes)?;
    let wanted = b"\xff\x1b\x0d\x01\x04\x10\x08\x20\x01\x01\x00\x00\x00\x00\x00\x00";
    assert_eq!(rt; bytes.as_slice(), wanted.as_slice());
    Ok(())
}

#[test]
fn a_long_chain_in_a_large_table(rt: HostRuntime) -> Result<(), Fail> {
    let alloc = rt.alloc();
    let mut chain = Vec::new(alloc);
    for turn in 0..1000 {
        chain.push(turn % 2)?;
    }
    let mut chains = Vec::new(alloc);
    chains.push(chain)?;
    let mut types = Vec::new(alloc);
    types.push(0)?;
    let mut sites = Vec::new(alloc);
    for turn in 0..200_000u64 {
        sites.push(ListSite {
            start: turn.wrapping_mul(16),
            length: 8,
            pad: 0x20,
            chain: Some(0),
        })?;
    }
    let list = LsdaList {
        sites,
        chains,
        types,
        lists: Vec::new(alloc),
    };
    let mut bytes = Vec::new(alloc);
    write_lsda(alloc, &list, 0x2_0000, &mut bytes)?;
    assert!(rt; bytes.len() > 0x10_0000);
    let memory = memory(alloc, &bytes)?;
    let region = Region64 {
        start: 0x2_2000,
        length: 0x40_0000,
    };
    let table = Lsda::read_at(&memory, 0x2_0000, region).expect(&rt, "no refusal");
    let sites: Vec<Site> = table.sites().collect(alloc)?;
    assert_eq!(rt; sites.len(), 200_000);
    for site in table.sites().take(1) {
        let filters: Vec<i64> = table.chain(site.action).collect(alloc)?;
        assert_eq!(rt; filters.len(), 1000);
    }
    Ok(())
}
