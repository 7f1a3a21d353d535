//! Trials of the front end and its passes: what each answers on what was worked out by hand. There are tests alone.
#![tactic(auto)]

#[cfg(test)]
mod bindings;
#[cfg(test)]
mod lexer;
#[cfg(test)]
mod parser;
#[cfg(test)]
mod reading;
#[cfg(test)]
mod rules;
