// Layouts worked out by hand.
ghost use Rattle.std.specs.Prelude.{◌≡◌, IfOk};
ghost use Rattle.cxx_ast.specs.declared.name.Bound.TheVariants.{Class};

use class_layout::{ClassLayout, Layout, layout};
use cxx_ast::declaration::ClassDecl;
use cxx_ast::name::{Bound, Name};
use cxx_ast::text::Text;
use cxx_ast::types::{Param, Ty};
use std::alloc::{AllocError, Global};
use std::test::Fail;

// The name of a class.
fn named(alloc: Global, class: u32) -> Result<Name, AllocError>
    ensures { IfOk result (λ n. n.bound ≡ Class class) }
{
    Ok(Name {
        text: Text::copied(alloc, b"T".as_slice())?,
        place: 0,
        bound: Bound::Class(class),
    })
}

// A member of a class that nothing names.
fn member(ty: Ty) -> Param
    ensures { result.ty ≡ ty }
{
    Param { ty, name: None }
}

fn class_of(
    alloc: Global,
    class: u32,
    base: Option<Name>,
    members: Vec<Param>,
) -> Result<ClassDecl, AllocError>
    ensures { IfOk result (λ c. (c.base ≡ base) × (c.members ≡ members)) }
{
    Ok(ClassDecl {
        name: named(alloc, class)?,
        base,
        members,
        funcs: Vec::new(alloc),
    })
}

fn laid(size: u32, members: Vec<u32>) -> ClassLayout {
    ClassLayout { size, members }
}

// struct A { int a; int b; }; struct B : A { int c; A d; }; struct C : B { };
#[test]
fn bases_and_members(rt: HostRuntime) -> Result<(), Fail> {
    let alloc = rt.alloc();
    let ints = vec![in alloc; member(Ty::Int), member(Ty::Int)]?;
    let mixed = vec![in alloc; member(Ty::Int), member(Ty::Object(named(alloc, 1)?))]?;
    let classes = vec![in alloc;
        class_of(alloc, 0, None, Vec::new(alloc))?,
        class_of(alloc, 1, None, ints)?,
        class_of(alloc, 2, Some(named(alloc, 1)?), mixed)?,
        class_of(alloc, 3, Some(named(alloc, 2)?), Vec::new(alloc))?,
    ]?;
    let expected = Layout {
        classes: vec![in alloc;
            laid(4, Vec::new(alloc)),
            laid(8, vec![in alloc; 0, 4]?),
            laid(20, vec![in alloc; 8, 12]?),
            laid(20, Vec::new(alloc)),
        ]?,
    };
    let found = layout(alloc, &classes)?;
    assert!(rt; found == expected);
    Ok(())
}
