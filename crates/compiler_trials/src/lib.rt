//! Trials of the compiler's passes: what sources become as regions and as linear code up to the limits, and what words linear code becomes.
//! There are tests alone.
#![tactic(auto)]

#[cfg(test)]
mod emission;
#[cfg(test)]
mod emitted_unit;
#[cfg(test)]
mod kept_variables;
#[cfg(test)]
mod layouts;
#[cfg(test)]
mod lowered;
#[cfg(test)]
mod names;
#[cfg(test)]
mod rows;
#[cfg(test)]
mod sizes;
#[cfg(test)]
mod small_regions;
#[cfg(test)]
mod sources;
#[cfg(test)]
mod tables;
#[cfg(test)]
mod tests;
