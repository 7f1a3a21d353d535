// The line of a row.
ghost use Rattle.std.specs.Prelude.{◌≡◌, ◌++◌, ◌+◌, ◌<◌, ◌≤◌, ◌^◌, OnOk, length, codes};
ghost use Rattle.table_dump.specs.Rows.{frame_line, rule_text, rules_text, cfa_text, row_line};
ghost use Rattle.table_dump.specs.Texts.{register, signed};

use crate::text::{put_register, put_signed, put_text};
use std::alloc::{AllocError, Global};
use table_forms::{Row, Rule};

/// The line of a function's region.
pub fn put_frame(
    alloc: Global,
    out: &mut Vec<u8>,
    start: u64,
    length: u64,
) -> Result<(), AllocError>
    requires { start + length < 2 ^ 64 }
    ensures { OnOk result (out.new.items ≡ out.old.items ++ frame_line start length) }
{
    let end = start + length;
    let line = format!(in alloc; "frame 0x{start:x} 0x{end:x}\n")?;
    put_text(out, line.as_str())
}

// A register and what is said of it.
fn put_said(out: &mut Vec<u8>, number: u8, said: &str) -> Result<(), AllocError>
    ensures { OnOk result (out.new.items ≡ out.old.items ++ codes " " ++ register number ++ said.now) }
{
    put_text(out, " ")?;
    put_register(out, number)?;
    put_text(out, said)
}

// The same with an offset behind it.
fn put_offset(out: &mut Vec<u8>, number: u8, said: &str, offset: i64) -> Result<(), AllocError>
    ensures { OnOk result (out.new.items ≡ out.old.items ++ codes " " ++ register number ++ said.now ++ signed offset) }
{
    put_said(out, number, said)?;
    put_signed(out, offset)
}

// A register, and another that holds its value.
fn put_held(out: &mut Vec<u8>, number: u8, other: u8) -> Result<(), AllocError>
    ensures { OnOk result (out.new.items ≡ out.old.items ++ codes " " ++ register number ++ codes "=" ++ register other) }
{
    put_said(out, number, "=")?;
    put_register(out, other)
}

// The rule of a register, if it has one.
fn put_rule(out: &mut Vec<u8>, number: u8, rule: Rule) -> Result<(), AllocError>
    ensures { OnOk result (out.new.items ≡ out.old.items ++ rule_text number rule) }
{
    match rule {
        Rule::Unspecified => Ok(()),
        Rule::Undefined => put_said(out, number, "=u"),
        Rule::Same => put_said(out, number, "=s"),
        Rule::Offset(offset) => put_offset(out, number, "=c", offset),
        Rule::ValOffset(offset) => put_offset(out, number, "=v", offset),
        Rule::Register(other) => put_held(out, number, other),
    }
}

/// The rules of the registers from x0 on.
pub fn put_rules(out: &mut Vec<u8>, rules: &[Rule]) -> Result<(), AllocError>
    requires { length rules.now ≤ 64 }
    ensures { OnOk result (out.new.items ≡ out.old.items ++ rules_text 0 rules.now) }
{
    let mut number = 0;
    let mut rest = rules;
    'rules: while let Some((rule, others)) = rest.split_first() {
        put_rule(out, number, *rule)?;
        number += 1;
        rest = others;
    }
    Ok(())
}

// The place and the CFA of a row.
fn put_cfa(alloc: Global, out: &mut Vec<u8>, pc: u64, row: &Row) -> Result<(), AllocError>
    ensures { OnOk result (out.new.items ≡ out.old.items ++ cfa_text pc row.now) }
{
    let text = format!(in alloc; "  row 0x{pc:x} cfa ")?;
    put_text(out, text.as_str())?;
    put_register(out, row.cfa_register)?;
    put_signed(out, row.cfa_offset)
}

/// The line of the row of a place.
pub fn put_row(alloc: Global, out: &mut Vec<u8>, pc: u64, row: Row) -> Result<(), AllocError>
    ensures { OnOk result (out.new.items ≡ out.old.items ++ row_line pc row) }
{
    put_cfa(alloc, out, pc, &row)?;
    put_rules(out, row.rules.as_slice())?;
    put_text(out, "\n")
}
