// Classes are laid out in their order, each by the layouts of the classes before it.
ghost use Rattle.std.specs.Prelude.{◌≡◌, ◌≤◌, ◌<◌, length, map, IfOk};
ghost use Rattle.cxx_ast.specs.View.{class_of};
ghost use Rattle.cxx_ast.specs.Limits.{most_class_bytes};
ghost use Rattle.meaning_forms.specs.Class.{class_named, class_type, object_type};
ghost use Rattle.region_forms.specs.Layout.{size_in, class_layout, layouts};
ghost use Rattle.class_layout.specs.Fit.{IsBefore, Fits, Fit};
ghost use Rattle.class_layout.specs.View.{class_layout_of, laid_out};
ghost use Rattle.class_layout.specs.StandApart.{StandApart};

use crate::NoMemory;
use crate::forms::{ClassLayout, Layout};
use cxx_ast::declaration::ClassDecl;
use cxx_ast::name::{Bound, Name};
use cxx_ast::types::Ty;
use std::alloc::Global;

// An int has so many bytes.
const INT_SIZE: u32 = 4;

// The class that a name is bound to.
fn class_number(name: &Name) -> u32
    ensures { result ≡ class_named name.now }
{
    match name.bound {
        Bound::Class(class) => class,
        _ => 0,
    }
}

// The size of an object of the class that a name is bound to, one of those that are laid out.
fn class_size(laid: &[ClassLayout], name: &Name) -> u32
    requires { class_named name.now < length laid.now }
    ensures { result ≡ size_in (map class_layout_of laid.now) (class_type (class_named name.now)) }
{
    laid[class_number(name) as usize].size
}

// The size of an object of a type.
fn object_size(laid: &[ClassLayout], ty: &Ty) -> u32
    requires { IsBefore (length laid.now) (object_type ty.now) }
    ensures { result ≡ size_in (map class_layout_of laid.now) (object_type ty.now) }
{
    match ty {
        Ty::Object(name) | Ty::ObjectRef(_, name) => class_size(laid, name),
        Ty::Int | Ty::Void | Ty::IntRef(_) => INT_SIZE,
    }
}

// The layout of a class that fits behind those that are laid out.
fn class_layout(
    alloc: Global,
    laid: &[ClassLayout],
    class: &ClassDecl,
) -> Result<ClassLayout, NoMemory>
    requires { Fits (map class_layout_of laid.now) (class_of class.now) }
    ensures { IfOk result (λ c. class_layout_of c ≡ class_layout (map class_layout_of laid.now) (class_of class.now)) }
{
    let mut end = match &class.base {
        None => 0,
        Some(base) => class_size(laid, base),
    };
    let mut members = Vec::with_capacity(alloc, class.members.len())?;
    for member in class.members.as_slice() {
        members.push(end)?;
        end += object_size(laid, &member.ty);
    }
    let has_parts = class.base.is_some() || !class.members.is_empty();
    let size = if has_parts { end } else { INT_SIZE };
    Ok(ClassLayout { size, members })
}

/// The layout of a program's classes: where the parts of an object of each class stand.
///
/// The base of a class is at offset 0. Its members follow in order without gaps, an int with 4 bytes, and its size is the end of its
/// last part; a class without parts has size 4. Offsets and sizes are in bytes.
pub fn layout(alloc: Global, classes: &Vec<ClassDecl>) -> Result<Layout, NoMemory>
    requires { Fit (map class_of classes.now.items) }
    ensures exact { IfOk result (λ l. (laid_out l).classes ≡ layouts (map class_of classes.now.items)) }
    ensures apart { IfOk result (λ l. StandApart (laid_out l).classes (map class_of classes.now.items)) }
{
    let mut laid = Vec::with_capacity(alloc, classes.len())?;
    for class in classes.as_slice() {
        let next = class_layout(alloc, laid.as_slice(), class)?;
        laid.push(next)?;
    }
    Ok(Layout { classes: laid })
}
