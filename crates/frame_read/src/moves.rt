// Where the instructions of an FDE move to, inside its region (DWARF 5, 6.4.2.1).
ghost use Rattle.std.specs.Prelude.{◌≡◌, ◌+◌, ◌++◌, ◌≤◌, ◌^◌, ℕ, [], ◌∷◌, min, filter, IfOk, OnOk};
ghost use Rattle.table_forms.specs.Fde.{is_in};
ghost use Rattle.frame_read.specs.Fits.{Fits};
ghost use Rattle.frame_read.specs.Moves.{MovesOver};
ghost use Rattle.frame_read.specs.Seen.{instruction_seen};

use crate::instruction::Instruction;
use eh_bytes::Region64;
use std::alloc::{AllocError, Global};

/// The region, the location, which is at most 2^64, and the locations inside the region that were
/// reached so far.
#[derive(Drop)]
pub struct Moves {
    pub region: Region64,
    pub location: u128,
    pub reached: Vec<u64>,
}

impl Moves {
    /// Before the instructions of an FDE: the start of its region is reached.
    pub fn begun(alloc: Global, region: Region64) -> Result<Moves, AllocError>
        requires { region.start + region.length ≤ 2 ^ 64 }
        ensures region { IfOk result (λ m. m.region ≡ region) }
        ensures at { IfOk result (λ m. m.location ≡ min region.start (2 ^ 64)) }
        ensures reached { IfOk result (λ m. m.reached.items ≡ filter (is_in region) (region.start ∷ [])) }
    {
        let mut moves = Moves {
            region,
            location: 0,
            reached: Vec::new(alloc),
        };
        moves.reaches(region.start as u128)?;
        Ok(moves)
    }

    // A location is reached.
    fn reaches(&mut self, location: u128) -> Result<(), AllocError>
        requires { self.old.region.start + self.old.region.length ≤ 2 ^ 64 }
        ensures region { self.new.region ≡ self.old.region }
        ensures at { OnOk result (self.new.location ≡ min location (2 ^ 64)) }
        ensures reached { OnOk result (self.new.reached.items ≡ self.old.reached.items ++ filter (is_in self.old.region) (location ∷ [])) }
    {
        let end = self.region.start as u128 + self.region.length as u128;
        if self.region.start as u128 <= location && location < end {
            self.reached.push(location as u64)?;
        }
        self.location = location.min(1 << 64);
        Ok(())
    }

    /// Takes an instruction.
    pub fn takes(&mut self, instruction: Instruction) -> Result<(), AllocError>
        requires fits { Fits instruction }
        requires ends { self.old.region.start + self.old.region.length ≤ 2 ^ 64 }
        requires low { self.old.location ≤ 2 ^ 64 }
        ensures region { self.new.region ≡ self.old.region }
        ensures low { OnOk result (self.new.location ≤ 2 ^ 64) }
        ensures moves { OnOk result ((location : ℕ) → self.old.location ≡ min location (2 ^ 64) → MovesOver self.old self.new location (instruction_seen instruction ∷ [])) }
    {
        match instruction {
            Instruction::GoTo(location) => self.reaches(location as u128),
            Instruction::Advance(count) => self.reaches(self.location + count),
            _ => Ok(()),
        }
    }
}
