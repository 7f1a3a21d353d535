// Asks the tables for the place of a frame.
ghost use Rattle.std.specs.Prelude.{◌≡◌, ℕ, Ok, option_map};
ghost use Rattle.table_forms.specs.Frames as forms;
ghost use Rattle.frame_read.specs.ReadsFrames.{ReadsFrames, listing};
ghost use Rattle.frame_walk.specs.Changed.{HasRulesIn};
ghost use Rattle.frame_walk.specs.Located.{located_seen};
ghost use Rattle.frame_walk.specs.Outward.{tables_of, row_for};

use crate::frame::Frame;
use crate::located::Located;
use crate::outward::row_for;
use arrayvec::ArrayVec;
use frame_read::Frames;
use rv64_machine::Machine;
use table_forms::Rule;

// The numbers of the registers that have a rule.
fn changed_by(rules: &[Rule; 64]) -> ArrayVec<u8, 64>
    ensures { HasRulesIn rules.now result.items }
{
    let mut changed = ArrayVec::new();
    'registers: for number in 0..64u8 {
        match rules[number as usize] {
            Rule::Unspecified => {}
            _ => changed.push(number),
        }
    }
    changed
}

/// The FDE whose region holds a frame's look-up place, with its row there, as `row_for` gives them.
pub fn locate(machine: &Machine, frames: &Frames, frame: &Frame) -> Option<Located>
    requires { (header : ℕ) × ReadsFrames (Ok frames.now) (forms.frames (tables_of machine.now) header) }
    ensures { (header : ℕ) (read : forms.Frames) → forms.frames (tables_of machine.now) header ≡ Ok read → frames.now ≡ listing read → option_map located_seen result ≡ row_for read.fdes frame.now }
{
    match row_for(machine, frames, frame) {
        None => None,
        Some((fde, row)) => {
            let changed = changed_by(&row.rules);
            Some(Located { fde, row, changed })
        }
    }
}
