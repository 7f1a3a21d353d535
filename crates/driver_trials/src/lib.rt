//! Trials of the top call that no transcript shows: what is done to modules, the deepest trees, the numbers of statuses, and rows of a dump. There are
//! tests alone.
#![tactic(auto)]

#[cfg(test)]
mod boxes;
#[cfg(test)]
mod deep;
#[cfg(test)]
mod kept;
#[cfg(test)]
mod outside;
