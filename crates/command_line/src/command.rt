// What the words of the command line say.
ghost use Rattle.std.specs.Prelude.{◌≤◌, length};

use cxx_ast::standard::Std;
use eh_outer::Reply;

/// What a command does.
#[derive(Clone, Copy, Debug, PartialEq, Eq)]
pub enum Verb {
    /// Compile a source, and store its image.
    Compile,
    /// Compile a source and run it.
    Run,
    /// Run an image.
    Exec,
    /// Run an image by several harts under a schedule.
    Harts,
    /// Print what a source means.
    Mean,
    /// Judge an image, and count what it has.
    Check,
    /// Print the tables of an image.
    Dump,
    /// Compare both forms of the frames of an image.
    Frames,
    /// Print what becomes of an exception at places of an image.
    At,
    /// Print what no compiler meant of an image.
    Doubts,
    /// Make the exception tables of an image shorter, and store what comes of it.
    Pack,
    /// Generate a source of a size, compile it, and count what its run does.
    Gen,
}

/// What comes by the frames of an image.
#[derive(Clone, Copy, Drop)]
pub enum Raised {
    /// An exception of no type that a table names.
    Untyped,
    /// An exception of the type whose record stands at an address.
    Typed(u64),
    /// An exception of another language.
    Foreign,
    /// A forced unwind.
    Forced,
}

/// A command: what is done, with which names, and how.
#[derive(Drop)]
pub struct Command {
    pub verb: Verb,
    /// The names that it is given, in order, or the number that is the size of a source, or a name and addresses.
    pub operands: Vec<String>,
    /// The addresses among these, in order.
    pub places: Vec<u64>,
    /// What comes by the frames of these places.
    pub raised: Raised,
    /// The names of the files that are its input, in order: one for each hart, 1 to 8, where there are several, and else at most one.
    pub inputs: Vec<String>,
    /// The most turns or steps, 1 to 2^40.
    pub max: u64,
    /// The standard by which a source is judged.
    pub std: Std,
    /// Whether events are printed.
    pub trace: bool,
    /// Whether steps are counted.
    pub count: bool,
    /// What each module replies, each reply so many times, in order; at most 64 modules.
    pub scripts: Vec<Vec<(Reply, u32)>>,
    pub ghost few: { length scripts.items ≤ 64 },
}
