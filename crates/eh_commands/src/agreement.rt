// The lines of an agreement.
ghost use Rattle.std.specs.Prelude.{◌≡◌, ◌++◌, IfOk, OnOk, codes, map};
ghost use Rattle.std.specs.Fmt.{decimal};
ghost use Rattle.table_dump.specs.Texts.{hex};
ghost use Rattle.debug_frames.specs.Agreement.{same, differ};
ghost use Rattle.debug_frames.specs.SeenAgreement.{agreement_seen};
ghost use Rattle.eh_commands.specs.Frames.{agreement_lines, row_text};

use debug_frames::Agreement;
use std::alloc::{AllocError, Global};
use table_dump::row::put_rules;
use table_dump::text::{put_register, put_signed, put_text};
use table_forms::{Row, Rule};

// A row from its canonical frame address on.
fn put_row(
    out: &mut Vec<u8>,
    cfa_register: u8,
    cfa_offset: i64,
    rules: [Rule; 64],
) -> Result<(), AllocError>
    ensures { OnOk result (out.new.items ≡ out.old.items ++ row_text (record { cfa_register = cfa_register; cfa_offset = cfa_offset; rules = rules })) }
{
    put_text(out, "cfa ")?;
    put_register(out, cfa_register)?;
    put_signed(out, cfa_offset)?;
    put_rules(out, rules.as_slice())
}

// A line of a text.
fn text_line(alloc: Global, text: &str) -> Result<Vec<u8>, AllocError>
    ensures { IfOk result (λ line. line.items ≡ text.now) }
{
    let mut line = Vec::new(alloc);
    put_text(&mut line, text)?;
    Ok(line)
}

// The line of a row, with what stands before it.
fn row_line(alloc: Global, front: &str, row: &Row) -> Result<Vec<u8>, AllocError>
    ensures { IfOk result (λ line. line.items ≡ front.now ++ row_text row.now ++ codes "\n") }
{
    let mut line = text_line(alloc, front)?;
    put_row(&mut line, row.cfa_register, row.cfa_offset, row.rules)?;
    put_text(&mut line, "\n")?;
    Ok(line)
}

// A number and a text behind it.
fn put_count(alloc: Global, out: &mut Vec<u8>, count: u128, text: &str) -> Result<(), AllocError>
    ensures { OnOk result (out.new.items ≡ out.old.items ++ decimal count ++ text.now) }
{
    let number = format!(in alloc; "{count}")?;
    put_text(out, number.as_str())?;
    put_text(out, text)
}

// The line where all rows are the same.
fn same_line(alloc: Global, both: u128, first: u128, second: u128) -> Result<Vec<u8>, AllocError>
    ensures { IfOk result (λ line. line.items ≡ codes "agree: " ++ decimal both ++ codes " locations, " ++ decimal first ++ codes " only in eh, " ++ decimal second ++ codes " only in debug\n") }
{
    let mut line = text_line(alloc, "agree: ")?;
    put_count(alloc, &mut line, both, " locations, ")?;
    put_count(alloc, &mut line, first, " only in eh, ")?;
    put_count(alloc, &mut line, second, " only in debug\n")?;
    Ok(line)
}

// The one line where all rows are the same.
fn same_lines(
    alloc: Global,
    both: u128,
    first: u128,
    second: u128,
) -> Result<Vec<Vec<u8>>, AllocError>
    ensures { IfOk result (λ lines. map (λ line. line.items) lines.items ≡ agreement_lines (same both first second)) }
{
    let line = same_line(alloc, both, first, second)?;
    let mut lines = Vec::new(alloc);
    lines.push(line)?;
    Ok(lines)
}

// The line of a location.
fn location_line(alloc: Global, pc: u64) -> Result<Vec<u8>, AllocError>
    ensures { IfOk result (λ line. line.items ≡ codes "differ at " ++ hex pc ++ codes "\n") }
{
    let text = format!(in alloc; "differ at 0x{pc:x}\n")?;
    text_line(alloc, text.as_str())
}

// The three lines of a location where two rows differ.
fn differ_lines(alloc: Global, pc: u64, row: &Row, other: &Row) -> Result<Vec<Vec<u8>>, AllocError>
    ensures { IfOk result (λ lines. map (λ line. line.items) lines.items ≡ agreement_lines (differ pc row.now other.now)) }
{
    let location = location_line(alloc, pc)?;
    let first = row_line(alloc, "eh: ", row)?;
    let second = row_line(alloc, "debug: ", other)?;
    let mut lines = Vec::new(alloc);
    lines.push(location)?;
    lines.push(first)?;
    lines.push(second)?;
    Ok(lines)
}

/// The lines of an agreement: one where all rows are the same, else three.
pub fn agreement_lines(alloc: Global, agreement: &Agreement) -> Result<Vec<Vec<u8>>, AllocError>
    ensures { IfOk result (λ lines. map (λ line. line.items) lines.items ≡ agreement_lines (agreement_seen agreement.now)) }
{
    match agreement {
        Agreement::Same(both, first, second) => same_lines(alloc, *both, *first, *second),
        Agreement::Differ(pc, row, other) => differ_lines(alloc, *pc, row, other),
    }
}
