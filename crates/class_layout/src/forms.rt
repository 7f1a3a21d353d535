// Layouts.

/// The size of a class, and the offsets of its members in order, in bytes.
#[derive(Drop, PartialEq, Eq)]
pub struct ClassLayout {
    pub size: u32,
    pub members: Vec<u32>,
}

/// The layouts of a program's classes, by number.
#[derive(Drop, PartialEq, Eq)]
pub struct Layout {
    pub classes: Vec<ClassLayout>,
}
