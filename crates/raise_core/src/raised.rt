// What a raise answers.
use frame_walk::FaultKind;

/// A frame was entered: the address of its landing pad, the selector, and the canonical frame
/// address and the exception table of the target. Or why none was.
#[derive(Clone, Copy, Debug, PartialEq, Eq)]
pub enum Raised {
    Install(u64, i64, u64, u64),
    NoHandler,
    Terminate,
    Fault(FaultKind),
}
