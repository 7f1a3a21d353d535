// A common information entry where it lies.
ghost use Rattle.std.specs.Prelude.{◌≤◌};

use crate::instruction::Coding;

/// A CIE of a segment: the place of its length, what it says, and where its instructions begin and
/// end. So many states are remembered behind them.
#[derive(Clone, Copy, Drop)]
pub struct CiePart<'a> {
    pub at: usize,
    pub version: u8,
    pub augmentation: &'a [u8],
    pub coding: Coding,
    pub return_register: u8,
    pub lsda_encoding: Option<u8>,
    pub signal: bool,
    pub first: usize,
    pub stop: usize,
    pub states: u8,
    pub ghost few: { states ≤ 16 },
}
