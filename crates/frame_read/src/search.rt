// The search for the next location of an FDE, one instruction after the other.
ghost use Rattle.std.specs.Prelude.{◌≡◌, ◌+◌, ◌≤◌, ◌^◌};
ghost use Rattle.frame_read.specs.Fits.{Fits};
ghost use Rattle.frame_read.specs.Seen.{instruction_seen};
ghost use Rattle.frame_read.specs.Search.{lesser, reached, searched};

use crate::instruction::Instruction;
use eh_bytes::Region64;

/// The region and the place above which it searches, the location, which is at most 2^64, and the
/// least location found so far.
#[derive(Clone, Copy, Drop)]
pub struct Search {
    pub region: Region64,
    pub pc: u64,
    pub location: u128,
    pub least: Option<u64>,
}

// The lesser of two locations.
fn lesser(least: Option<u64>, location: u64) -> Option<u64>
    ensures { result ≡ lesser least location }
{
    match least {
        None => Some(location),
        Some(before) => Some(before.min(location)),
    }
}

impl Search {
    // The instructions move to a location.
    fn reaches(&mut self, location: u128)
        requires { self.old.region.start + self.old.region.length ≤ 2 ^ 64 }
        ensures { self.new ≡ reached self.old location }
    {
        let end = self.region.start as u128 + self.region.length as u128;
        let is_inside = self.region.start as u128 <= location && location < end;
        if (self.pc as u128) < location && is_inside {
            self.least = lesser(self.least, location as u64);
        }
        self.location = location.min(1 << 64);
    }

    /// Takes an instruction.
    pub fn takes(&mut self, instruction: Instruction)
        requires fits { Fits instruction }
        requires ends { self.old.region.start + self.old.region.length ≤ 2 ^ 64 }
        requires low { self.old.location ≤ 2 ^ 64 }
        ensures seen { self.new ≡ searched self.old (instruction_seen instruction) }
        ensures region { self.new.region ≡ self.old.region }
        ensures low { self.new.location ≤ 2 ^ 64 }
    {
        match instruction {
            Instruction::GoTo(location) => self.reaches(location as u128),
            Instruction::Advance(count) => self.reaches(self.location + count),
            _ => {}
        }
    }
}
