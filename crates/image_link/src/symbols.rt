// The symbols of an image.
ghost use Rattle.std.specs.Prelude.{◌≡◌, ◌++◌, ◌+◌, ◌*◌, ◌<◌, ◌^◌, map, Some, IfOk, OnOk};
ghost use Rattle.eh_bytes.specs.Listed.{listed_function, listed_unit};
ghost use Rattle.machine_forms.specs.Emitted.{emitted_stubs};
ghost use Rattle.image_forms.specs.Placed.{placed_from};
ghost use Rattle.image_forms.specs.Symbols.{span, symbol_at, stub_names, function_symbols, record_symbols, global_symbols, symbols_for};
ghost use Rattle.image_link.specs.Laid.{IsLaid};
ghost use Rattle.image_link.specs.Names.{names_of};

use crate::NoMemory;
use crate::layout::Layout;
use eh_bytes::{Emitted, EmittedFunc, RowName, TypeRow};
use elf_sections::{SectionKind, Span, Symbol};
use std::alloc::Global;
use symbol_names::SymbolNames;

// The bytes of a type's record.
const RECORD: u64 = 24;

// The bytes of a global.
const INT: u64 = 4;

// Appends the symbol of what stands there, if it has a name.
fn put_symbol(
    alloc: Global,
    section: SectionKind,
    span: Span,
    name: &Option<RowName>,
    symbols: &mut Vec<Symbol>,
) -> Result<(), NoMemory>
    ensures { OnOk result (symbols.new.items ≡ symbols.old.items ++ symbol_at section span.address span.size name.now) }
{
    if let Some(text) = name {
        symbols.push(Symbol {
            name: RowName::new(Vec::from_slice(alloc, text.as_bytes())?),
            section,
            address: span.address,
            size: span.size,
        })?;
    }
    Ok(())
}

// Where so many words stand, from one on of code that begins at an address.
fn span_of(code: u64, first: u32, words: u32) -> Span
    requires { code < 2 ^ 40 }
    ensures { result ≡ span (code + 4 * first) (4 * words) }
{
    Span {
        address: code + 4 * u64::from(first),
        size: 4 * u64::from(words),
    }
}

// Appends the symbols of functions whose unit's code begins at an address.
fn put_functions(
    alloc: Global,
    code: u64,
    names: &[Option<RowName>],
    functions: &[EmittedFunc],
    symbols: &mut Vec<Symbol>,
) -> Result<(), NoMemory>
    requires { code < 2 ^ 40 }
    ensures { OnOk result (symbols.new.items ≡ symbols.old.items ++ function_symbols names.now (placed_from code (map listed_function functions.now))) }
{
    let mut named = names;
    let mut rest = functions;
    'functions: while let Some((name, others)) = named.split_first() {
        let Some((function, behind)) = rest.split_first() else {
            return Ok(());
        };
        put_symbol(
            alloc,
            SectionKind::Code,
            span_of(code, function.first, function.words),
            name,
            symbols,
        )?;
        named = others;
        rest = behind;
    }
    Ok(())
}

// Appends the symbols of type records, each below the one before, from an address down.
fn put_records(
    alloc: Global,
    end: u64,
    names: &[Option<RowName>],
    types: &[TypeRow],
    symbols: &mut Vec<Symbol>,
) -> Result<(), NoMemory>
    ensures { OnOk result (symbols.new.items ≡ symbols.old.items ++ record_symbols end names.now types.now) }
{
    let mut address = end;
    let mut named = names;
    let mut rest = types;
    'types: while let Some((name, others)) = named.split_first() {
        let Some((_, behind)) = rest.split_first() else {
            return Ok(());
        };
        address = address.saturating_sub(RECORD);
        let span = Span {
            address,
            size: RECORD,
        };
        put_symbol(alloc, SectionKind::TypeRecords, span, name, symbols)?;
        named = others;
        rest = behind;
    }
    Ok(())
}

// Appends the symbols of globals, each below the one before, from an address down.
fn put_globals(
    alloc: Global,
    end: u64,
    names: &[Option<RowName>],
    globals: &[i32],
    symbols: &mut Vec<Symbol>,
) -> Result<(), NoMemory>
    ensures { OnOk result (symbols.new.items ≡ symbols.old.items ++ global_symbols end names.now globals.now) }
{
    let mut address = end;
    let mut named = names;
    let mut rest = globals;
    'globals: while let Some((name, others)) = named.split_first() {
        let Some((_, behind)) = rest.split_first() else {
            return Ok(());
        };
        address = address.saturating_sub(INT);
        let span = Span { address, size: INT };
        put_symbol(alloc, SectionKind::Data, span, name, symbols)?;
        named = others;
        rest = behind;
    }
    Ok(())
}

fn name_of(alloc: Global, text: &[u8]) -> Result<Option<RowName>, NoMemory>
    ensures { IfOk result (λ name. name ≡ Some text.now) }
{
    Ok(Some(RowName::new(Vec::from_slice(alloc, text)?)))
}

// The names of the runtime's own functions.
fn stub_names(alloc: Global) -> Result<Vec<Option<RowName>>, NoMemory>
    ensures { IfOk result (λ names. names.items ≡ stub_names) }
{
    let mut names = Vec::new(alloc);
    names.push(name_of(alloc, b"_start".as_slice())?)?;
    names.push(name_of(alloc, b"_ZN10__cxxabiv111__terminateEPFvvE".as_slice())?)?;
    names.push(name_of(alloc, b"__cxa_end_catch".as_slice())?)?;
    names.push(name_of(alloc, b"__cxa_call_unexpected".as_slice())?)?;
    Ok(names)
}

/// The symbols of an image of a unit, which is laid so: the runtime's own functions, the unit's functions, the records of types
/// and the globals, as far as they have names.
pub fn symbols_of(
    alloc: Global,
    layout: &Layout,
    own: &Emitted,
    unit: &Emitted,
    names: &SymbolNames,
) -> Result<Vec<Symbol>, NoMemory>
    requires laid { IsLaid (listed_unit unit.now) layout.now }
    requires low { layout.now.names < 2 ^ 30 }
    requires own { listed_unit own.now ≡ emitted_stubs }
    ensures { IfOk result (λ symbols. symbols.items ≡ symbols_for (names_of names.now) (listed_unit unit.now)) }
{
    let own_names = stub_names(alloc)?;
    let mut symbols = Vec::new(alloc);
    put_functions(
        alloc,
        layout.code,
        own_names.as_slice(),
        own.functions.as_slice(),
        &mut symbols,
    )?;
    put_functions(
        alloc,
        layout.unit,
        names.functions.as_slice(),
        unit.functions.as_slice(),
        &mut symbols,
    )?;
    put_records(
        alloc,
        layout.code,
        names.types.as_slice(),
        unit.types.as_slice(),
        &mut symbols,
    )?;
    put_globals(
        alloc,
        layout.records,
        names.globals.as_slice(),
        unit.globals.as_slice(),
        &mut symbols,
    )?;
    Ok(symbols)
}
