// Symbols.
ghost use Rattle.std.specs.Prelude.{◌≡◌, ◌++◌, [], ◌∷◌, ◌+◌, OnOk};
ghost use Rattle.std.specs.Int.{w16, w32, to_le_bytes};
ghost use Rattle.elf_sections.specs.Symbol.{symbol_info, info_bytes, symbol_bytes, symbols_from, symbol_names};

use crate::section::SectionKind;
use eh_bytes::{RowName, u16_bytes, u32_bytes};
use elf_image::put_words;
use std::alloc::AllocError;

/// A global symbol: its name, the section in which it lies, its address and its size in bytes. In code it is a function,
/// and elsewhere data.
#[derive(Drop)]
pub struct Symbol {
    pub name: RowName,
    pub section: SectionKind,
    pub address: u64,
    pub size: u64,
}

impl Symbol {
    // STB_GLOBAL, with STT_FUNC or STT_OBJECT.
    fn info(&self) -> u8
        ensures { result ≡ symbol_info self.now }
    {
        match self.section {
            SectionKind::Code => 18,
            _ => 17,
        }
    }
}

fn put_half(out: &mut Vec<u8>, number: u32) -> Result<(), AllocError>
    ensures { OnOk result (out.new.items ≡ out.old.items ++ to_le_bytes w32 number) }
{
    out.extend_from_slice(u32_bytes(number).as_slice())
}

fn put_quarter(out: &mut Vec<u8>, number: u16) -> Result<(), AllocError>
    ensures { OnOk result (out.new.items ≡ out.old.items ++ to_le_bytes w16 number) }
{
    out.extend_from_slice(u16_bytes(number).as_slice())
}

// Appends the type and the visibility of a symbol, which is the usual one.
fn put_info(out: &mut Vec<u8>, symbol: &Symbol) -> Result<(), AllocError>
    ensures { OnOk result (out.new.items ≡ out.old.items ++ info_bytes symbol.now) }
{
    out.extend_from_slice([symbol.info(), 0].as_slice())
}

// Appends a symbol whose name stands at a place among the names.
#[tactic(auto, unfolding(crate::specs::Symbol::symbol_bytes))]
fn put_symbol(out: &mut Vec<u8>, name_at: u32, symbol: &Symbol) -> Result<(), AllocError>
    ensures { OnOk result (out.new.items ≡ out.old.items ++ symbol_bytes name_at symbol.now) }
{
    put_half(out, name_at)?;
    put_info(out, symbol)?;
    put_quarter(out, symbol.section.number())?;
    put_words(out, [symbol.address, symbol.size].as_slice())
}

/// Appends symbols; the name of the first stands at a place among the names, and the others behind it.
pub fn put_symbols(out: &mut Vec<u8>, name_at: u32, symbols: &[Symbol]) -> Result<(), AllocError>
    ensures { OnOk result (out.new.items ≡ out.old.items ++ symbols_from name_at symbols.now) }
{
    let mut place = name_at;
    let mut rest = symbols;
    'symbols: while let Some((symbol, others)) = rest.split_first() {
        put_symbol(out, place, symbol)?;
        let size = u32::try_from(symbol.name.as_bytes().len()).map_err(|_| AllocError)?;
        let behind = place.checked_add(size).ok_or(AllocError)?;
        place = behind.checked_add(1).ok_or(AllocError)?;
        rest = others;
    }
    Ok(())
}

/// Appends the names of symbols, each with a zero behind it.
pub fn put_symbol_names(out: &mut Vec<u8>, symbols: &[Symbol]) -> Result<(), AllocError>
    ensures { OnOk result (out.new.items ≡ out.old.items ++ symbol_names symbols.now) }
{
    let mut rest = symbols;
    'symbols: while let Some((symbol, others)) = rest.split_first() {
        out.extend_from_slice(symbol.name.as_bytes())?;
        out.push(0)?;
        rest = others;
    }
    Ok(())
}
