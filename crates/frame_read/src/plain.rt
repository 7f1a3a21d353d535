// A fold over call frame instructions that remembers no row: most lists of instructions need none.
ghost use Rattle.std.specs.Prelude.{◌≡◌, ◌<◌, ◌≤◌, ◌^◌, ℕ, true, false, Bool, fold, vec_len, Ok, Some, IfSome, IsOk};
ghost use Rattle.eh_bytes.specs.Memory.{part_of};
ghost use Rattle.table_forms.specs.Instructions.{Instructions, instructions_at, states_after};
ghost use Rattle.table_forms.specs.Row.{begun, location_after, after, stepped, with_initial, row_of};
ghost use Rattle.frame_read.specs.Seen.{coding_seen, instruction_seen};
ghost use Rattle.frame_read.specs.Fits.{Fits};
ghost use Rattle.frame_read.specs.Plain.{plain_seen};
ghost use Rattle.frame_read.specs.States.{list_of, states_of};

use crate::cie_part::CiePart;
use crate::fde_part::FdePart;
use crate::folding::State;
use crate::instruction::{Coding, Instruction};
use crate::step::instruction_of;
use eh_bytes::Segment;
use table_forms::{Row, Rule};

/// The location, the row, and the rules that `restore` gives back.
#[derive(Drop)]
pub struct Plain {
    pub location: u64,
    pub row: State,
    pub initial: [Rule; 64],
}

impl Plain {
    // Before the instructions of a CIE, for a region that begins here.
    #[tactic(auto, unfolding(table_forms::specs::Row::begun))]
    fn begun(start: u64) -> Plain
        ensures seen { plain_seen false result ≡ begun start }
        ensures location { result.location ≡ start }
    {
        Plain {
            location: start,
            row: State::first(),
            initial: [Rule::Unspecified; 64],
        }
    }

    // The location after an instruction.
    fn location_after(&self, instruction: Instruction) -> u128
        requires { Fits instruction }
        ensures { result ≡ location_after (instruction_seen instruction) self.now.location }
    {
        match instruction {
            Instruction::GoTo(location) => location as u128,
            Instruction::Advance(count) => self.location as u128 + count,
            _ => self.location as u128,
        }
    }

    // Takes an instruction that does not stop it; whether it could, as it remembers no row.
    fn takes(&mut self, instruction: Instruction) -> bool
        requires fits { Fits instruction }
        requires low { location_after (instruction_seen instruction) self.old.location < 2 ^ 64 }
        ensures seen { result ≡ true → plain_seen false self.new ≡ after (plain_seen false self.old) (instruction_seen instruction) }
        ensures below { result ≡ true → self.new.location ≡ location_after (instruction_seen instruction) self.old.location }
        ensures none { result ≡ true → states_after (instruction_seen instruction) 0 ≡ Some 0 }
        ensures same { result ≡ false → self.new.location ≡ self.old.location }
    {
        match instruction {
            Instruction::Nop => {}
            Instruction::GoTo(location) => self.location = location,
            Instruction::Advance(count) => self.location += count as u64,
            Instruction::SetCfa(register, offset) => {
                self.row.cfa_register = register;
                self.row.cfa_offset = offset;
            }
            Instruction::SetCfaRegister(register) => self.row.cfa_register = register,
            Instruction::SetCfaOffset(offset) => self.row.cfa_offset = offset,
            Instruction::SetRule(register, rule) => self.row.rules[register as usize] = rule,
            Instruction::Restore(register) => {
                let rule = self.initial[register as usize];
                self.row.rules[register as usize] = rule;
            }
            Instruction::RememberState | Instruction::RestoreState => return false,
        }
        true
    }

    // `restore` gives back the rules as they are now.
    fn keeps_initial(&mut self)
        ensures seen { (b : Bool) → plain_seen b self.new ≡ with_initial (plain_seen b self.old) }
        ensures location { self.new.location ≡ self.old.location }
    {
        let rules = self.row.rules;
        self.initial = rules;
    }
}

// Goes on over the instructions from a place up to a stop, of which none is refused, as far as the
// first that moves above a pc: whether there is one; none where a row would be remembered.
fn goes_over(
    plain: &mut Plain,
    pc: u64,
    coding: Coding,
    segment: &Segment,
    stop: usize,
    first: usize,
) -> Option<bool>
    requires stop { stop ≤ vec_len segment.now.bytes }
    requires first { first ≤ stop }
    requires below { plain.old.location ≤ pc }
    requires whole { IsOk (instructions_at (coding_seen coding) (part_of segment.now) stop first 0) }
    ensures seen { IfSome result (λ stopped. plain_seen stopped plain.new ≡ fold (stepped pc) (plain_seen false plain.old) (list_of (instructions_at (coding_seen coding) (part_of segment.now) stop first 0))) }
    ensures below { plain.new.location ≤ pc }
    ensures kept { result ≡ Some false → states_of (instructions_at (coding_seen coding) (part_of segment.now) stop first 0) ≡ Ok 0 }
{
    let mut place = first;
    'instructions: while place < stop {
        match instruction_of(coding, segment, stop, place) {
            Err(_) => return None,
            Ok((instruction, next)) => {
                let location = plain.location_after(instruction);
                if location > pc as u128 {
                    return Some(true);
                }
                if !plain.takes(instruction) {
                    return None;
                }
                place = next;
            }
        }
    }
    Some(false)
}

// Goes on over the instructions from a place up to a stop, if it has not stopped; whether it could.
#[tactic(auto, using(table_forms::proofs::RowFold::fold_off))]
fn goes_on_over(
    plain: &mut Plain,
    stopped: bool,
    pc: u64,
    coding: Coding,
    segment: &Segment,
    stop: usize,
    first: usize,
) -> Option<bool>
    requires stop { stop ≤ vec_len segment.now.bytes }
    requires first { first ≤ stop }
    requires below { plain.old.location ≤ pc }
    requires whole { stopped ≡ false → IsOk (instructions_at (coding_seen coding) (part_of segment.now) stop first 0) }
    ensures seen { IfSome result (λ b. plain_seen b plain.new ≡ fold (stepped pc) (plain_seen stopped plain.old) (list_of (instructions_at (coding_seen coding) (part_of segment.now) stop first 0))) }
{
    if stopped {
        return Some(true);
    }
    goes_over(plain, pc, coding, segment, stop, first)
}

/// The row of a pc in the region of an FDE, of whose instructions and those of its CIE none is
/// refused; none where a row would be remembered on the way.
#[tactic(auto, unfolding(table_forms::specs::Row::row_of))]
pub fn plain_row_of(cie: &CiePart<'_>, fde: &FdePart, segment: &Segment, pc: u64) -> Option<Row>
    requires stop { cie.now.stop ≤ vec_len segment.now.bytes }
    requires first { cie.now.first ≤ cie.now.stop }
    requires own_stop { fde.now.stop ≤ vec_len segment.now.bytes }
    requires own_first { fde.now.first ≤ fde.now.stop }
    requires region { fde.now.region.start ≤ pc }
    requires whole { IsOk (instructions_at (coding_seen cie.now.coding) (part_of segment.now) cie.now.stop cie.now.first 0) }
    requires own { (n : ℕ) → states_of (instructions_at (coding_seen cie.now.coding) (part_of segment.now) cie.now.stop cie.now.first 0) ≡ Ok n → IsOk (instructions_at (coding_seen cie.now.coding) (part_of segment.now) fde.now.stop fde.now.first n) }
    ensures { IfSome result (λ row. (is own : Instructions) → instructions_at (coding_seen cie.now.coding) (part_of segment.now) cie.now.stop cie.now.first 0 ≡ Ok is →
        instructions_at (coding_seen cie.now.coding) (part_of segment.now) fde.now.stop fde.now.first is.states ≡ Ok own → row ≡ row_of fde.now.region.start is.list own.list pc) }
{
    let mut plain = Plain::begun(fde.region.start);
    let stopped = goes_over(&mut plain, pc, cie.coding, segment, cie.stop, cie.first)?;
    plain.keeps_initial();
    let _stopped = goes_on_over(
        &mut plain, stopped, pc, cie.coding, segment, fde.stop, fde.first,
    )?;
    Some(plain.row.into_row())
}
