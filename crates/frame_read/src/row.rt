// Rows of the call frame information (DWARF 5, 6.4.1 and 6.4.3): a fold over instructions.
ghost use Rattle.std.specs.Prelude.{◌≡◌, ◌<◌, ◌≤◌, ◌^◌, true, false, not, nat_lt, Some, IsSome};
ghost use Rattle.arrayvec.specs.ArrayVec.{array_vec_len};
ghost use Rattle.table_forms.specs.Row.{first_row, begun, location_after, after, stepped, with_initial};
ghost use Rattle.table_forms.specs.Instructions.{states_after};
ghost use Rattle.frame_read.specs.Seen.{instruction_seen};
ghost use Rattle.frame_read.specs.Fits.{Fits};
ghost use Rattle.frame_read.specs.SeenRow.{state_seen, folding_seen, HasRoom};

use crate::folding::{Folding, State};
use crate::instruction::Instruction;
use arrayvec::ArrayVec;
use table_forms::{Row, Rule};

impl Default for State {
    fn default() -> State {
        State::first()
    }
}

impl State {
    /// The canonical frame address is x2 + 0, and no register has a rule.
    #[tactic(auto, unfolding(table_forms::specs::Row::first_row))]
    pub fn first() -> State
        ensures { state_seen result ≡ first_row }
    {
        State {
            cfa_register: 2,
            cfa_offset: 0,
            rules: [Rule::Unspecified; 64],
        }
    }

    /// As a row.
    pub fn into_row(self) -> Row
        ensures { result ≡ state_seen self }
    {
        let rules = self.rules;
        Row {
            cfa_register: self.cfa_register,
            cfa_offset: self.cfa_offset,
            rules,
        }
    }
}

impl Folding {
    /// Before the instructions of a CIE, for a region that begins here.
    #[tactic(auto, unfolding(table_forms::specs::Row::begun))]
    pub fn begun(start: u64) -> Folding
        ensures seen { folding_seen result ≡ begun start }
        ensures states { array_vec_len result.states ≡ 0 }
        ensures goes { result.stopped ≡ false }
        ensures location { result.location ≡ start }
    {
        Folding {
            location: start,
            row: State::first(),
            states: ArrayVec::new(),
            initial: [Rule::Unspecified; 64],
            stopped: false,
        }
    }

    /// The location after an instruction.
    pub fn location_after(&self, instruction: Instruction) -> u128
        requires { Fits instruction }
        ensures { result ≡ location_after (instruction_seen instruction) (folding_seen self.now).location }
    {
        match instruction {
            Instruction::GoTo(location) => location as u128,
            Instruction::Advance(count) => self.location as u128 + count,
            _ => self.location as u128,
        }
    }

    // Takes an instruction that does not stop it.
    pub(crate) fn takes(&mut self, instruction: Instruction)
        requires fits { Fits instruction }
        requires low { location_after (instruction_seen instruction) (folding_seen self.old).location < 2 ^ 64 }
        requires room { HasRoom instruction (array_vec_len self.old.states) }
        ensures seen { folding_seen self.new ≡ after (folding_seen self.old) (instruction_seen instruction) }
        ensures below { self.new.location ≡ location_after (instruction_seen instruction) (folding_seen self.old).location }
        ensures kept { IsSome (states_after (instruction_seen instruction) (array_vec_len self.old.states)) → states_after (instruction_seen instruction) (array_vec_len self.old.states) ≡ Some (array_vec_len self.new.states) }
    {
        match instruction {
            Instruction::Nop => {}
            Instruction::GoTo(location) => self.location = location,
            Instruction::Advance(count) => self.location += count as u64,
            Instruction::SetCfa(register, offset) => {
                self.row.cfa_register = register;
                self.row.cfa_offset = offset;
            }
            Instruction::SetCfaRegister(register) => self.row.cfa_register = register,
            Instruction::SetCfaOffset(offset) => self.row.cfa_offset = offset,
            Instruction::SetRule(register, rule) => self.row.rules[register as usize] = rule,
            Instruction::Restore(register) => {
                let rule = self.initial[register as usize];
                self.row.rules[register as usize] = rule;
            }
            Instruction::RememberState => self.states.push(self.row),
            Instruction::RestoreState => {
                if let Some(row) = self.states.pop() {
                    self.row = row;
                }
            }
        }
    }

    /// Takes an instruction, or stops before it where it moves above a place; whether it goes on.
    #[tactic(auto, using(crate::proofs::Room::has_room))]
    pub fn steps(&mut self, pc: u64, instruction: Instruction) -> bool
        requires fits { Fits instruction }
        requires goes { self.old.stopped ≡ false }
        requires below { self.old.location ≤ pc }
        requires kept { IsSome (states_after (instruction_seen instruction) (array_vec_len self.old.states)) }
        ensures seen { folding_seen self.new ≡ stepped pc (folding_seen self.old) (instruction_seen instruction) }
        ensures stopped { self.new.stopped ≡ not result }
        ensures below { self.new.location ≤ pc }
        ensures kept { result ≡ true → states_after (instruction_seen instruction) (array_vec_len self.old.states) ≡ Some (array_vec_len self.new.states) }
    {
        if self.location_after(instruction) > pc as u128 {
            self.stopped = true;
            return false;
        }
        self.takes(instruction);
        true
    }

    /// `restore` gives back the rules as they are now.
    pub fn keeps_initial(&mut self)
        ensures seen { folding_seen self.new ≡ with_initial (folding_seen self.old) }
        ensures states { array_vec_len self.new.states ≡ array_vec_len self.old.states }
        ensures stopped { self.new.stopped ≡ self.old.stopped }
        ensures location { self.new.location ≡ self.old.location }
    {
        let rules = self.row.rules;
        self.initial = rules;
    }
}
