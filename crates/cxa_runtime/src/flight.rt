// How an exception of a module comes to fly.

/// It is raised by its module, or a handler throws it again.
#[derive(Clone, Copy, Debug, PartialEq, Eq)]
pub enum Flight {
    Raised,
    Rethrown,
}
