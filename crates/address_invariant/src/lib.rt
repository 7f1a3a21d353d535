//! Behind the addresses that a program's linear code holds while it runs lie as many bytes of ints as its functions need. `specs/` says what
//! lies behind them, and the laws are calls of no effect.
#![tactic(auto)]

pub mod laws;
