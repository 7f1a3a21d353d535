// The regions of a small program, worked out by hand.
use class_layout::{ClassLayout, Layout};
use cxx_ast::NoMemory;
use cxx_ast::declaration::{ClassDecl, Func, FuncKind};
use cxx_ast::expression::{Expr, Lvalue};
use cxx_ast::name::{Bound, Name};
use cxx_ast::program::{Checked, Program};
use cxx_ast::statement::Stmt;
use cxx_ast::text::Text;
use cxx_ast::types::{Param, Ty};
use region_ir::operation::{Cleanup, RegionOp};
use region_ir::place::{Place, Root, Slot, SlotKind};
use region_ir::program::Regions;
use region_ir::region::Region;
use region_ir::regions;
use region_ir::value::{Arg, Value};
use std::alloc::Global;
use std::test::Fail;

fn name(a: Global, bound: Bound) -> Result<Name, NoMemory> {
    Ok(Name {
        text: Text::copied(a, b"n".as_slice())?,
        place: 0,
        bound,
    })
}

fn lvalue(a: Global, bound: Bound) -> Result<Lvalue, NoMemory> {
    Ok(Lvalue {
        path: vec![in a; name(a, bound)?]?,
    })
}

fn int(a: Global, bound: Bound) -> Result<Param, NoMemory> {
    Ok(Param {
        ty: Ty::Int,
        name: Some(name(a, bound)?),
    })
}

fn function(
    a: Global,
    kind: FuncKind,
    gives: Ty,
    params: Vec<Param>,
    body: Vec<Stmt>,
) -> Result<Func, NoMemory> {
    Ok(Func {
        name: name(a, Bound::Free)?,
        kind,
        result: gives,
        params,
        spec: None,
        inits: Vec::new(a),
        body: Some(body),
        tokens: 0,
    })
}

// A class, of which an object has these members, bound to its number.
fn class(
    a: Global,
    number: u32,
    members: Vec<Param>,
    funcs: Vec<Func>,
) -> Result<ClassDecl, NoMemory> {
    Ok(ClassDecl {
        name: name(a, Bound::Class(number))?,
        base: None,
        members,
        funcs,
    })
}

// `struct A { int n; A(int k) { n = k; } ~A() { } };`
fn set_from_outside(a: Global) -> Result<ClassDecl, NoMemory> {
    let member = Bound::Field(1, 0);
    let parameter = Bound::Local(0);
    let set = Stmt::Assign(lvalue(a, member)?, Expr::Path(lvalue(a, parameter)?));
    let params = vec![in a; int(a, parameter)?]?;
    let built = function(a, FuncKind::Constructor, Ty::Void, params, vec![in a; set]?)?;
    let destroyed = function(a, FuncKind::Destructor, Ty::Void, Vec::new(a), Vec::new(a))?;
    class(
        a,
        1,
        vec![in a; int(a, member)?]?,
        vec![in a; built, destroyed]?,
    )
}

// `int main() { A x(7); return 1; }` behind that class.
fn program(a: Global) -> Result<Checked, NoMemory> {
    let object = Stmt::LocalObject(
        name(a, Bound::Class(1))?,
        name(a, Bound::Local(0))?,
        vec![in a; Expr::Number(7, 0)]?,
    );
    let given = Stmt::Return(0, Some(Expr::Number(1, 0)));
    let body = vec![in a; object, given]?;
    let main = function(a, FuncKind::Plain, Ty::Int, Vec::new(a), body)?;
    let bad_exception = class(a, 0, Vec::new(a), Vec::new(a))?;
    Ok(Checked {
        program: Program {
            decls: Vec::new(a),
            tokens: 40,
            length: 0,
        },
        functions: vec![in a; main]?,
        classes: vec![in a; bad_exception, set_from_outside(a)?]?,
        globals: Vec::new(a),
        main: 0,
    })
}

fn at(root: Root) -> Place {
    Place { root, offset: 0 }
}

fn help() -> Slot {
    Slot {
        kind: SlotKind::Help,
        size: 8,
    }
}

fn stored(target: Root, value: Value) -> Region {
    Region::Op(RegionOp::Store(at(target), value))
}

// The object is destroyed behind the return, and its construction is outside.
fn main_body(a: Global) -> Result<Region, NoMemory> {
    let given = vec![in a; Arg::Int(Value::Number(7))]?;
    let built = Region::Op(RegionOp::Construct(at(Root::Slot(0)), 4, given));
    let returned = vec![in a; stored(Root::Slot(1), Value::Number(1)), Region::Leave(4)]?;
    let inside = Box::new(a, Region::Seq(returned))?;
    let scope = Region::Protect(inside, Cleanup::Scope(at(Root::Slot(0)), 5));
    let statements = Region::Seq(vec![in a; built, scope]?);
    let last = stored(Root::Slot(1), Value::Number(0));
    Ok(Region::Seq(vec![in a; statements, last]?))
}

// The member is set through the address of the own object.
fn constructor_body(a: Global) -> Result<Region, NoMemory> {
    let set = stored(Root::Through(0), Value::Load(at(Root::Slot(1))));
    let statements = Region::Seq(vec![in a; set]?);
    Ok(Region::Seq(vec![in a; statements]?))
}

fn lowered(a: Global) -> Result<Regions, NoMemory> {
    let first = ClassLayout {
        size: 4,
        members: Vec::new(a),
    };
    let second = ClassLayout {
        size: 4,
        members: vec![in a; 0]?,
    };
    let layout = Layout {
        classes: vec![in a; first, second]?,
    };
    regions(a, &program(a)?, &layout)
}

#[test]
fn an_object_and_a_return(rt: HostRuntime) -> Result<(), Fail> {
    let a = rt.alloc();
    let found = lowered(a)?;
    let variable = Slot {
        kind: SlotKind::Object,
        size: 4,
    };
    let own = Slot {
        kind: SlotKind::Address,
        size: 8,
    };
    let parameter = Slot {
        kind: SlotKind::Int,
        size: 4,
    };
    let rows = [
        (
            0,
            0,
            Some(1),
            main_body(a)?,
            vec![in a; variable, help(), help()]?,
        ),
        (
            4,
            2,
            None,
            constructor_body(a)?,
            vec![in a; own, parameter, help(), help()]?,
        ),
    ];
    assert_eq!(rt; found.functions.len(), 9);
    assert_eq!(rt; found.tokens, 40);
    for (number, params, result_slot, body, slots) in rows {
        assert!(rt; number < found.functions.len(), "{number}");
        let function = &found.functions[number];
        assert_eq!(rt; function.params, params, "{number}");
        assert_eq!(rt; function.result, result_slot, "{number}");
        assert!(rt; function.body == body, "{number}");
        assert_eq!(rt; function.slots.as_slice(), slots.as_slice(), "{number}");
    }
    let kinds = [1, 3, 2];
    assert_eq!(rt; found.types.len(), kinds.len());
    for (row, kind) in found.types.as_slice().iter().zip(kinds) {
        assert_eq!(rt; row.kind, kind);
    }
    Ok(())
}
