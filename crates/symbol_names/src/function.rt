// The names of functions.
ghost use Rattle.std.specs.Prelude.{◌≡◌, IfOk};
ghost use Rattle.symbol_names.specs.Names.{free_name, member_name, copy_name, record_name, kept};

use crate::NoMemory;
use crate::mangling::Mangling;
use cxx_ast::declaration::{Func, FuncKind};
use cxx_ast::types::Param;
use eh_bytes::RowName;
use std::alloc::Global;

// The longest name of a symbol.
const LONGEST: usize = 96;

/// A name, if it is not too long for a symbol.
pub fn kept(name: Vec<u8>) -> Option<RowName>
    ensures { result ≡ kept name.items }
{
    if name.len() <= LONGEST {
        Some(RowName::new(name))
    } else {
        None
    }
}

/// The name of a function of no class.
pub fn free_name(alloc: Global, function: &Func) -> Result<Vec<u8>, NoMemory>
    ensures { IfOk result (λ name. name.items ≡ free_name function.now.name.text function.now.params.items) }
{
    let mut name = Mangling::new(alloc, b"_Z".as_slice())?;
    name.put_source_name(function.name.text.as_bytes())?;
    name.put_parameters(function.params.as_slice())?;
    Ok(name.into_text())
}

/// What of a class a name is for.
#[derive(Clone, Copy)]
pub struct Member<'a> {
    pub class: u32,
    pub class_name: &'a [u8],
    pub kind: FuncKind,
    pub name: &'a [u8],
}

/// The name of a function of a class.
pub fn member_name(alloc: Global, member: Member<'_>, params: &[Param]) -> Result<Vec<u8>, NoMemory>
    ensures { IfOk result (λ name. name.items ≡ member_name member.entry.class member.entry.class_name.now member.entry.kind member.entry.name.now params.now) }
{
    let mut name = Mangling::new(alloc, b"_ZN".as_slice())?;
    name.put_class(member.class, member.class_name)?;
    match member.kind {
        FuncKind::Constructor => name.put(b"C1E".as_slice())?,
        FuncKind::Destructor => name.put(b"D1E".as_slice())?,
        FuncKind::Plain | FuncKind::Method => {
            name.put_source_name(member.name)?;
            name.put(b"E".as_slice())?;
        }
    }
    name.put_parameters(params)?;
    Ok(name.into_text())
}

/// The name of the implicit copy constructor of a class.
pub fn copy_name(alloc: Global, class: u32, class_name: &[u8]) -> Result<Vec<u8>, NoMemory>
    ensures { IfOk result (λ name. name.items ≡ copy_name class class_name.now) }
{
    let mut name = Mangling::new(alloc, b"_ZN".as_slice())?;
    name.put_class(class, class_name)?;
    name.put(b"C1E".as_slice())?;
    name.put_copied(class, class_name)?;
    Ok(name.into_text())
}

/// The name of the record of a type: int has number 0, and class k number k + 1.
pub fn record_name(alloc: Global, number: u64, name: &[u8]) -> Result<Vec<u8>, NoMemory>
    ensures { IfOk result (λ text. text.items ≡ record_name number name.now) }
{
    let mut text = Mangling::new(alloc, b"_ZTI".as_slice())?;
    text.put_object(number, name)?;
    Ok(text.into_text())
}
