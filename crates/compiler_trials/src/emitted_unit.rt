// A unit of one function, which has an operation of most kinds.
use cxx_ast::expression::BinaryOp;
use cxx_ast::text::Text;
use eh_bytes::{RowName, TypeRow};
use landing_pads::NoMemory;
use landing_pads::unit::{CodeSite, FuncCode, LinearOp, UnitCode};
use region_ir::operation::RegionOp;
use region_ir::place::{Place, Root, Slot, SlotKind};
use region_ir::value::{Arg, Callee, Value};
use std::alloc::Global;

// The int of slot 0.
fn int_slot() -> Place {
    Place {
        root: Root::Slot(0),
        offset: 0,
    }
}

// It is the first global less 100000.
fn stored(alloc: Global) -> Result<LinearOp, NoMemory> {
    let global = Value::Load(Place {
        root: Root::Global(0),
        offset: 0,
    });
    let left = Box::new(alloc, global)?;
    let right = Box::new(alloc, Value::Number(100_000))?;
    let value = Value::Binary(BinaryOp::Subtract, left, right);
    Ok(LinearOp::Op(RegionOp::Store(int_slot(), value)))
}

// The function calls itself with it.
fn called(alloc: Global) -> Result<LinearOp, NoMemory> {
    let arguments = vec![in alloc; Arg::Int(Value::Load(int_slot()))]?;
    Ok(LinearOp::Op(RegionOp::Call(Callee::Func(0), arguments)))
}

// Calls itself unless the int is 0. What comes out of the call is caught, and thrown as another.
fn operations(alloc: Global) -> Result<Vec<LinearOp>, NoMemory> {
    let mut ops = Vec::new(alloc);
    ops.push(stored(alloc)?)?;
    ops.push(LinearOp::JumpZero(Value::Load(int_slot()), 1))?;
    ops.push(called(alloc)?)?;
    ops.push(LinearOp::Label(1))?;
    ops.push(LinearOp::Return(Some(0)))?;
    ops.push(LinearOp::Pad(1, 2))?;
    ops.push(LinearOp::Op(RegionOp::Enter(1)))?;
    ops.push(LinearOp::Op(RegionOp::Leave))?;
    ops.push(LinearOp::Op(RegionOp::Throw(1, 0, None)))?;
    ops.push(LinearOp::Jump(1))?;
    Ok(ops)
}

// The call has a pad that catches everything, and what is thrown behind goes out.
fn sites(alloc: Global) -> Result<Vec<CodeSite>, NoMemory> {
    let mut sites = Vec::new(alloc);
    sites.push(CodeSite {
        start: 2,
        end: 3,
        pad: Some(5),
        filters: vec![in alloc; 1]?,
    })?;
    sites.push(CodeSite {
        start: 8,
        end: 9,
        pad: None,
        filters: Vec::new(alloc),
    })?;
    Ok(sites)
}

// The function, with three slots.
fn function(alloc: Global) -> Result<FuncCode, NoMemory> {
    let int = Slot {
        kind: SlotKind::Int,
        size: 4,
    };
    let help = Slot {
        kind: SlotKind::Help,
        size: 8,
    };
    Ok(FuncCode {
        name: Text::copied(alloc, b"main".as_slice())?,
        params: 1,
        slots: vec![in alloc; int, help, help]?,
        ops: operations(alloc)?,
        sites: sites(alloc)?,
        types: vec![in alloc; 0]?,
        lists: vec![in alloc; vec![in alloc; 1]?]?,
        frame: 48,
    })
}

/// The unit, with one type and one global.
pub fn unit(alloc: Global) -> Result<UnitCode, NoMemory> {
    let row = TypeRow {
        kind: 1,
        name: RowName::new(Vec::from_slice(alloc, b"i".as_slice())?),
        base: None,
    };
    Ok(UnitCode {
        functions: vec![in alloc; function(alloc)?]?,
        types: vec![in alloc; row]?,
        globals: vec![in alloc; 7]?,
        tokens: 40,
        main: 0,
    })
}
