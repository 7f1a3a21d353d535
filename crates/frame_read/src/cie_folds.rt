// What the instructions of CIEs leave, as far as that is kept.
ghost use Rattle.std.specs.Prelude.{◌≡◌, ◌-◌, ◌≤◌, length, vec_len, option_map, Ok, Some, IsSome, OnOk};
ghost use Rattle.std.specs.BTreeMap.{get};
ghost use Rattle.std.specs.Ordering.{nat_cmp};
ghost use Rattle.eh_bytes.specs.Memory.{Memory, part_of};
ghost use Rattle.table_forms.specs.Cie.{Cie};
ghost use Rattle.frame_read.specs.CieFold.{AllStay};
ghost use Rattle.frame_read.specs.CieFolds.{AreFolds, cie_in};
ghost use Rattle.frame_read.specs.Heads.{cie_after};

use crate::cie_fold::{CieFold, fold_of};
use crate::cie_part::CiePart;
use eh_bytes::Segment;
use std::alloc::{AllocError, Global};
use std::collections::BTreeMap;

// Fewer bytes of instructions are gone over anew for each FDE.
const MANY: usize = 256;

/// What the instructions of CIEs leave, by the addresses of the CIEs: of those that have many, none
/// of which moves the location.
#[derive(Drop)]
pub struct CieFolds {
    pub folds: BTreeMap<u128, CieFold>,
}

impl CieFolds {
    /// Of no CIE yet.
    pub fn new(alloc: Global) -> CieFolds
        ensures { (memory : Memory) → AreFolds memory result }
    {
        CieFolds {
            folds: BTreeMap::new(alloc),
        }
    }

    // Keeps what the instructions of the CIE at an address leave, if they are many and leave the
    // location where it is.
    pub(crate) fn keeps(
        &mut self,
        alloc: Global,
        address: u128,
        cie: &CiePart<'_>,
        segment: &Segment,
    ) -> Result<(), AllocError>
        requires stop { cie.now.stop ≤ vec_len segment.now.bytes }
        requires first { cie.now.first ≤ cie.now.stop }
        requires whole { (c : Cie) × (cie_after (part_of segment.now) cie.now ≡ Ok c) }
        ensures folds { (memory : Memory) → AreFolds memory self.old → ((c : Cie) → cie_in memory address ≡ Some c → cie_after (part_of segment.now) cie.now ≡ Ok c) → AreFolds memory self.new }
        ensures kept { OnOk result ((c : Cie) → cie_after (part_of segment.now) cie.now ≡ Ok c → AllStay c.instructions → 256 ≤ cie.now.stop - cie.now.first → IsSome (get nat_cmp self.new.folds address)) }
    {
        if cie.stop - cie.first < MANY || self.folds.contains_key(&address) {
            return Ok(());
        }
        match fold_of(alloc, cie, segment)? {
            None => Ok(()),
            Some(fold) => {
                self.folds.insert(address, fold)?;
                Ok(())
            }
        }
    }

    // What is kept of the CIE at an address.
    pub(crate) fn kept(&self, address: u128) -> Option<&CieFold>
        ensures { option_map (λ k. k.now) result ≡ get nat_cmp self.now.folds address }
    {
        self.folds.get(&address)
    }
}
