//! The words of the runtime's own functions do on the ABI machine what `docs/RUNTIME.md` says, from each runtime call to the next. `specs/`
//! says what that means, stretch by stretch, and the laws are calls of no effect.
#![tactic(auto)]

pub mod laws;
