//! Trials of the runtime on hand-assembled images: what each must write, and how it must end, worked
//! out from the calls of docs/RUNTIME.md; and of the runtime's own functions, in an image and against an
//! assembler. There are tests alone.
#![tactic(auto)]

#[cfg(test)]
mod call_faults;
#[cfg(test)]
mod faults;
#[cfg(test)]
mod handlers;
#[cfg(test)]
mod image;
#[cfg(test)]
mod linked_runs;
#[cfg(test)]
mod no_object;
#[cfg(test)]
mod op;
#[cfg(test)]
mod plain_calls;
#[cfg(test)]
mod run;
#[cfg(test)]
mod specifications;
#[cfg(test)]
mod stub_image;
#[cfg(test)]
mod stub_runs;
#[cfg(test)]
mod stub_unit;
#[cfg(test)]
mod stub_words;
#[cfg(test)]
mod table_faults;
#[cfg(test)]
mod terminates;
#[cfg(test)]
mod throws;
#[cfg(test)]
mod trials;
#[cfg(test)]
mod unwinds;
#[cfg(test)]
mod walk_faults;
