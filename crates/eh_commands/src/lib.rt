//! The commands of `ehc`: `compile FILE IMAGE` stores the image of a source, `exec FILE` runs an image on the simulated machine, and
//! `run FILE` does both at once; `mean FILE` prints what a source means; `check FILE` and `dump FILE` judge an image and print its
//! tables, and `frames FILE` says whether both forms of its frames agree; `at IMAGE PC..` prints what becomes of an exception at places
//! of an image, and `doubts IMAGE` what no compiler meant of it; `pack IMAGE OUT` stores an image with shorter exception tables; `harts IMAGE SCHEDULE` runs an image by several harts
//! under a schedule; `gen N` generates a source of a size, and counts what its run does. `answer` does what the words say; its clauses
//! say when each status comes, and what it leaves of the files and the outputs.
#![tactic(auto)]

mod agreement;
mod at;
mod commands;
mod compile;
mod exec;
mod file;
mod frames;
mod generate;
mod hart_files;
mod harts;
mod image;
mod line;
mod lines;
mod mean;
mod pack;
mod ready;
mod report;
mod run_end;
mod run_source;
mod status;

pub use commands::answer;
pub use status::Status;
