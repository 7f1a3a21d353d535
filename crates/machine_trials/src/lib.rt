//! Trials of the machine and of what finds an exception's handler on it: instructions beside an assembler's words, programs beside another
//! simulator, and frames, tables and caught exceptions worked out by hand. There are tests alone.
#![tactic(auto)]

#[cfg(test)]
mod caught;
#[cfg(test)]
mod instructions;
#[cfg(test)]
mod outward;
#[cfg(test)]
mod programs;
#[cfg(test)]
mod raises;
#[cfg(test)]
mod verdicts;
