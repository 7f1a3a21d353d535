//! Trials of images that are loaded and run: files assembled by hand from the ELF-64 Object File
//! Format, the LSB Core's "Exception Frames" and docs/RUNTIME.md, what they must write, and how they
//! must end. There are tests alone.
#![tactic(auto)]

#[cfg(test)]
mod budgets;
#[cfg(test)]
mod code;
#[cfg(test)]
mod damaged;
#[cfg(test)]
mod exec;
#[cfg(test)]
mod file;
#[cfg(test)]
mod refusals;
#[cfg(test)]
mod runs;
#[cfg(test)]
mod segments;
#[cfg(test)]
mod write_faults;
