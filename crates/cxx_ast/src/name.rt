// Names, and what they are bound to.
use crate::text::Text;

/// A function that the language has without a declaration, or its class `std::bad_exception`.
#[derive(Drop, Clone, Copy, PartialEq, Eq)]
pub enum Builtin {
    /// `write_int`
    WriteInt,
    /// `read_byte`
    ReadByte,
    /// `exit`
    Exit,
    /// `__module`
    Module,
    /// `__cancel`
    Cancel,
    /// `std::terminate`
    Terminate,
    /// `std::set_terminate`
    SetTerminate,
    /// `std::set_unexpected`
    SetUnexpected,
    /// `std::uncaught_exception`
    Uncaught,
    /// `std::bad_exception`
    BadException,
}

/// What a name stands for. In a tree that was read each name is free, and in a checked program none is.
#[derive(Drop, Clone, Copy, PartialEq, Eq)]
pub enum Bound {
    /// Not yet sought.
    Free,
    /// A global variable, by its number among those of the program.
    Global(u32),
    /// A variable of the function, by its number among those that the function declares, parameters first.
    Local(u32),
    /// A class, and the number of its data member.
    Field(u32, u32),
    /// A class, where 0 is `std::bad_exception`.
    Class(u32),
    /// A function, by its number among those that the program defines.
    Func(u32),
    /// A class, and the number of its member function, constructors and the destructor counted.
    Method(u32, u32),
    /// A built-in function.
    Builtin(Builtin),
}

/// A name, the place of its first byte, and what it stands for.
#[derive(Drop)]
pub struct Name {
    pub text: Text,
    pub place: u32,
    pub bound: Bound,
}
