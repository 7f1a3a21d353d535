// What is thrown, as it is asked for.

/// What is thrown: something of no type that a table names, something of the type whose record stands
/// at an address, something of another language, or a forced unwind.
#[derive(Clone, Copy, Drop)]
pub enum Asked {
    Untyped,
    Typed(u64),
    Foreign,
    Forced,
}
