// What the tables say of a place, as a walk uses it.
ghost use Rattle.frame_walk.specs.Changed.{HasRulesIn};

use arrayvec::ArrayVec;
use frame_read::Fde;
use table_forms::Row;

/// An FDE with its row at a place, and the numbers of the registers that have a rule there: all
/// others need no look at their rule.
#[derive(Drop)]
pub struct Located {
    pub fde: Fde,
    pub row: Row,
    pub changed: ArrayVec<u8, 64>,
    pub ghost rules: { HasRulesIn row.rules changed.items },
}
