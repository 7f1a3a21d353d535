//! Trials of the adapters over the host's files, streams and words. There are tests alone.
#![tactic(auto)]

#[cfg(test)]
mod adapters;
#[cfg(test)]
mod given;
