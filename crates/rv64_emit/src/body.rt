// The code of a function's operations.
ghost use Rattle.std.specs.Prelude.{◌≡◌, ◌++◌, IfOk, OnOk, length, map};
ghost use Rattle.std.specs.List.{flat_map};
ghost use Rattle.landing_pads.specs.View.{code_of, linear_of};
ghost use Rattle.machine_forms.specs.Emitted.{function_front, function_routine, shape_of};
ghost use Rattle.machine_forms.specs.LinearCode.{linear_code};
ghost use Rattle.rv64_emit.specs.Body.{StandsFor};
ghost use Rattle.rv64_emit.specs.Starts.{starts_from};

use crate::NoMemory;
use crate::code::Code;
use crate::labels::places_of_labels;
use crate::linear::put_linear;
use crate::numbers::behind;
use crate::saving::put_saves;
use crate::shape::{Frame, put_prologue};
use crate::starts::Starts;
use indexmap::IndexMap;
use landing_pads::unit::{FuncCode, LinearOp};
use std::alloc::Global;

/// A function's code before its places are known: its pieces, where its operations begin, and the places of its labels.
#[derive(Drop)]
pub struct Body {
    pub code: Code,
    pub starts: Starts,
    pub labels: IndexMap<u32, u32>,
}

// Operations behind other code; gives where each begins.
fn put_operations(
    alloc: Global,
    frame: &Frame<'_>,
    ops: &[LinearOp],
    code: &mut Code,
) -> Result<Starts, NoMemory>
    ensures code { OnOk result (code.new ≡ code.old ++ flat_map (λ b. b) (map (linear_code frame.now) (map linear_of ops.now))) }
    ensures starts { IfOk result (λ s. s.words.items ≡ starts_from (length code.old) (map (linear_code frame.now) (map linear_of ops.now))) }
    ensures end { IfOk result (λ s. s.end ≡ length code.new) }
{
    let mut words = Vec::new(alloc);
    for op in ops {
        words.push(behind(0, code.len())?)?;
        put_linear(frame, op, code)?;
    }
    let end = behind(0, code.len())?;
    Ok(Starts { words, end })
}

// The beginning of a function: its prologue, then its kept variables.
fn put_front(frame: &Frame<'_>, parameters: u32, code: &mut Code) -> Result<(), NoMemory>
    ensures { OnOk result (code.new ≡ code.old ++ function_front frame.now parameters) }
{
    put_prologue(frame, code)?;
    put_saves(frame, parameters, code)
}

/// The code of a function with such a frame.
pub fn body_of(alloc: Global, frame: &Frame<'_>, function: &FuncCode) -> Result<Body, NoMemory>
    requires { frame.now ≡ shape_of (code_of function.now) }
    ensures { IfOk result (λ b. StandsFor b (function_routine (code_of function.now))) }
{
    let mut code = Code::new(alloc);
    put_front(frame, function.params, &mut code)?;
    let starts = put_operations(alloc, frame, function.ops.as_slice(), &mut code)?;
    let labels = places_of_labels(alloc, function.ops.as_slice())?;
    Ok(Body {
        code,
        starts,
        labels,
    })
}
