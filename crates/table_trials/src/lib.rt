//! Trials of the calls that read, write, judge, print and pack exception tables, frames and images, on bytes that were worked out by hand and on
//! what other producers wrote. There are tests alone.
#![tactic(auto)]

#[cfg(test)]
mod clean_images;
#[cfg(test)]
mod documented;
#[cfg(test)]
mod dumps;
#[cfg(test)]
mod frame_lists;
#[cfg(test)]
mod frames;
#[cfg(test)]
mod images;
#[cfg(test)]
mod made_frames;
#[cfg(test)]
mod packed;
#[cfg(test)]
mod packed_images;
#[cfg(test)]
mod packed_table;
#[cfg(test)]
mod produced;
#[cfg(test)]
mod rows;
#[cfg(test)]
mod tables;
#[cfg(test)]
mod written_frames;
#[cfg(test)]
mod written_images;
#[cfg(test)]
mod written_tables;
