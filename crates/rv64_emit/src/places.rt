// Where the code of a unit stands, in bytes and words from the first word of the runtime's own functions.
use crate::piece::{Function, Target};
use eh_bytes::EmittedFunc;

/// How many words the runtime's own functions have. The unit's code stands behind them.
pub const STUB_WORDS: u32 = 100;

// The first words of those that a unit calls.
const END_CATCH: u32 = 12;

const CALL_UNEXPECTED: u32 = 40;

/// What a unit's code reaches outside its functions.
#[derive(Drop, Clone, Copy)]
pub struct Targets<'a> {
    pub functions: &'a [EmittedFunc],
    /// The first word behind the last function.
    pub end: u32,
    /// How many types the unit has.
    pub types: u32,
}

impl Targets<'_> {
    ghost use Rattle.std.specs.Prelude.{◌≡◌, ◌*◌, ◌^◌, ◌-ℤ◌, ◌≤ℤ◌, negsuc, pos};
    ghost use Rattle.linear_forms.specs.Linear.{UnitCode};
    ghost use Rattle.machine_forms.specs.Emitted.{entry_word, function_first, target_byte};
    ghost use Rattle.rv64_emit.specs.Places.{HasTargets};
    ghost use Rattle.rv64_emit.specs.View.{function_of, target_of};

    // The first word of a function of the unit, from the unit's first word on.
    fn first(&self, number: u32) -> u32
        ensures { (u : UnitCode) → HasTargets self.now u → result ≡ function_first u number }
    {
        match self.functions.get(number as usize) {
            Some(function) => function.first,
            None => self.end,
        }
    }

    // The first word of a function.
    fn entry(&self, function: Function) -> i64
        ensures word { (u : UnitCode) → HasTargets self.now u → result ≡ pos (entry_word u (function_of function)) }
        ensures low { pos 0 ≤ℤ result }
        ensures high { result ≤ℤ pos (2 ^ 33) }
    {
        match function {
            Function::Compiled(number) => { i64::from(STUB_WORDS) + i64::from(self.first(number)) }
            Function::EndCatch => i64::from(END_CATCH),
            Function::CallUnexpected => i64::from(CALL_UNEXPECTED),
        }
    }

    // Where a target is, in bytes.
    fn byte(&self, target: Target) -> i64
        ensures byte { (u : UnitCode) → HasTargets self.now u → result ≡ target_byte u (target_of target) }
        ensures low { negsuc (2 ^ 40) ≤ℤ result }
        ensures high { result ≤ℤ pos (2 ^ 40) }
    {
        match target {
            Target::Entry(function) => 4 * self.entry(function),
            Target::TypeRecord(ty) => -24 * (i64::from(ty) + 1),
            Target::Global(global, offset) => {
                let records = 24 * i64::from(self.types);
                i64::from(offset) - (records + 4 * (i64::from(global) + 1))
            }
        }
    }

    /// The distance in bytes from a word to a target.
    pub fn distance(&self, here: u32, target: Target) -> i64
        ensures { (u : UnitCode) → HasTargets self.now u → result ≡ target_byte u (target_of target) -ℤ pos (4 * here) }
    {
        self.byte(target) - 4 * i64::from(here)
    }
}
