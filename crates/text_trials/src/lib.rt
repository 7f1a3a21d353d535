//! Trials of bytes, numbers, lines and words: what is written is read again, what is refused, and the lines of runs. There are tests alone.
#![tactic(auto)]

#[cfg(test)]
mod at_words;
#[cfg(test)]
mod bytes;
#[cfg(test)]
mod lines;
#[cfg(test)]
mod memory;
#[cfg(test)]
mod modules;
#[cfg(test)]
mod names;
#[cfg(test)]
mod numbers;
#[cfg(test)]
mod schedules;
#[cfg(test)]
mod sources;
#[cfg(test)]
mod stores;
#[cfg(test)]
mod words;
