// Types and parameters.
use crate::name::Name;

/// A type. The flag of a reference says that it refers to const. The name of `std::bad_exception` has that text, and the place of
/// `std`.
#[derive(Drop)]
pub enum Ty {
    Int,
    Void,
    Object(Name),
    IntRef(bool),
    ObjectRef(bool, Name),
}

/// A parameter, a data member or a local reference. Of these only a parameter may have no name.
#[derive(Drop)]
pub struct Param {
    pub ty: Ty,
    pub name: Option<Name>,
}
