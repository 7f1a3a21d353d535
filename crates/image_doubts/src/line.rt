// The line of each doubt.
ghost use Rattle.std.specs.Prelude.{◌≡◌, ◌++◌, ◌+◌, ◌<◌, ◌^◌, OnOk};
ghost use Rattle.eh_bytes.specs.Memory.{memory_of};
ghost use Rattle.image_doubts.specs.Doubts.{cut_line, cut_text, empty_line, empty_text, home_words, inside_line, inside_text, no_code_line, nowhere_line, nowhere_text, outside_line, outside_text, pad_words, site_words, type_words};

use crate::doubt::{is_cut, is_empty, is_inside, is_no_code, is_nowhere, is_outside};
use eh_bytes::{Region64, Segments};
use std::alloc::{AllocError, Global};
use table_dump::text::put_text;
use table_forms::Site;

/// A function that is no code.
pub fn put_no_code(
    alloc: Global,
    out: &mut Vec<u8>,
    memory: &Segments,
    region: Region64,
) -> Result<(), AllocError>
    requires { region.start + region.length < 2 ^ 64 }
    ensures { OnOk result (out.new.items ≡ out.old.items ++ no_code_line (memory_of memory.now) region) }
{
    if !is_no_code(memory, region) {
        return Ok(());
    }
    let start = region.start;
    let line = format!(in alloc; "function outside of code: 0x{start:x}\n")?;
    put_text(out, line.as_str())
}

// The words of a site.
fn put_site(
    alloc: Global,
    out: &mut Vec<u8>,
    region: Region64,
    site: Site,
) -> Result<(), AllocError>
    ensures { OnOk result (out.new.items ≡ out.old.items ++ site_words region site) }
{
    let at = site.start;
    let end = site.end;
    let start = region.start;
    let text = format!(in alloc; "0x{at:x} 0x{end:x} of 0x{start:x}")?;
    put_text(out, text.as_str())
}

// The words of a pad.
fn put_pad(alloc: Global, out: &mut Vec<u8>, site: Site) -> Result<(), AllocError>
    ensures { OnOk result (out.new.items ≡ out.old.items ++ pad_words site) }
{
    let pad = site.pad;
    let text = format!(in alloc; ": pad 0x{pad:x}")?;
    put_text(out, text.as_str())
}

fn put_empty_text(
    alloc: Global,
    out: &mut Vec<u8>,
    region: Region64,
    site: Site,
) -> Result<(), AllocError>
    ensures { OnOk result (out.new.items ≡ out.old.items ++ empty_text region site) }
{
    put_text(out, "empty site: site ")?;
    put_site(alloc, out, region, site)?;
    put_text(out, "\n")?;
    Ok(())
}

/// A site without a byte.
pub fn put_empty(
    alloc: Global,
    out: &mut Vec<u8>,
    region: Region64,
    site: Site,
) -> Result<(), AllocError>
    ensures { OnOk result (out.new.items ≡ out.old.items ++ empty_line region site) }
{
    if is_empty(site) {
        put_empty_text(alloc, out, region, site)
    } else {
        Ok(())
    }
}

fn put_cut_text(
    alloc: Global,
    out: &mut Vec<u8>,
    region: Region64,
    site: Site,
) -> Result<(), AllocError>
    ensures { OnOk result (out.new.items ≡ out.old.items ++ cut_text region site) }
{
    put_text(out, "site inside an instruction: site ")?;
    put_site(alloc, out, region, site)?;
    put_text(out, "\n")?;
    Ok(())
}

/// A site that begins or ends inside an instruction.
pub fn put_cut(
    alloc: Global,
    out: &mut Vec<u8>,
    region: Region64,
    marks: &[bool],
    site: Site,
) -> Result<(), AllocError>
    requires { region.start + region.length < 2 ^ 64 }
    ensures { OnOk result (out.new.items ≡ out.old.items ++ cut_line region marks.now site) }
{
    if is_cut(region, marks, site) {
        put_cut_text(alloc, out, region, site)
    } else {
        Ok(())
    }
}

fn put_inside_text(
    alloc: Global,
    out: &mut Vec<u8>,
    region: Region64,
    site: Site,
) -> Result<(), AllocError>
    ensures { OnOk result (out.new.items ≡ out.old.items ++ inside_text region site) }
{
    put_text(out, "pad inside an instruction: site ")?;
    put_site(alloc, out, region, site)?;
    put_pad(alloc, out, site)?;
    put_text(out, "\n")?;
    Ok(())
}

/// A pad that begins no instruction of its function.
pub fn put_inside(
    alloc: Global,
    out: &mut Vec<u8>,
    region: Region64,
    marks: &[bool],
    site: Site,
) -> Result<(), AllocError>
    ensures { OnOk result (out.new.items ≡ out.old.items ++ inside_line region marks.now site) }
{
    if is_inside(region, marks, site) {
        put_inside_text(alloc, out, region, site)
    } else {
        Ok(())
    }
}

// The function of a pad, if there is one.
fn put_home(alloc: Global, out: &mut Vec<u8>, home: Option<Region64>) -> Result<(), AllocError>
    ensures { OnOk result (out.new.items ≡ out.old.items ++ home_words home) }
{
    match home {
        None => put_text(out, " in none\n"),
        Some(home) => {
            let start = home.start;
            let text = format!(in alloc; " in 0x{start:x}\n")?;
            put_text(out, text.as_str())
        }
    }
}

fn put_outside_text(
    alloc: Global,
    out: &mut Vec<u8>,
    region: Region64,
    site: Site,
    home: Option<Region64>,
) -> Result<(), AllocError>
    ensures { OnOk result (out.new.items ≡ out.old.items ++ outside_text region site home) }
{
    put_text(out, "pad in another function: site ")?;
    put_site(alloc, out, region, site)?;
    put_pad(alloc, out, site)?;
    put_home(alloc, out, home)?;
    Ok(())
}

/// A pad outside of its function, with the function that has it, if there is one.
pub fn put_outside(
    alloc: Global,
    out: &mut Vec<u8>,
    region: Region64,
    site: Site,
    home: Option<Region64>,
) -> Result<(), AllocError>
    ensures { OnOk result (out.new.items ≡ out.old.items ++ outside_line region site home) }
{
    if is_outside(region, site) {
        put_outside_text(alloc, out, region, site, home)
    } else {
        Ok(())
    }
}

// The words of a type.
fn put_type(
    alloc: Global,
    out: &mut Vec<u8>,
    region: Region64,
    index: u64,
    entry: u64,
) -> Result<(), AllocError>
    ensures { OnOk result (out.new.items ≡ out.old.items ++ type_words region index entry) }
{
    let start = region.start;
    let text = format!(in alloc; "{index} of 0x{start:x}: 0x{entry:x}\n")?;
    put_text(out, text.as_str())
}

fn put_nowhere_text(
    alloc: Global,
    out: &mut Vec<u8>,
    region: Region64,
    index: u64,
    entry: u64,
) -> Result<(), AllocError>
    ensures { OnOk result (out.new.items ≡ out.old.items ++ nowhere_text region index entry) }
{
    put_text(out, "type outside of memory: type ")?;
    put_type(alloc, out, region, index, entry)?;
    Ok(())
}

/// A type entry that leads outside of memory.
pub fn put_nowhere(
    alloc: Global,
    out: &mut Vec<u8>,
    memory: &Segments,
    region: Region64,
    index: u64,
    entry: u64,
) -> Result<(), AllocError>
    ensures { OnOk result (out.new.items ≡ out.old.items ++ nowhere_line (memory_of memory.now) region (index, entry)) }
{
    if is_nowhere(memory, entry) {
        put_nowhere_text(alloc, out, region, index, entry)
    } else {
        Ok(())
    }
}
