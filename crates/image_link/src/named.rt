// The image of a unit with sections and symbols.
ghost use Rattle.std.specs.Prelude.{◌≡◌, ◌+◌, ◌*◌, ◌≤◌, length, IfOk};
ghost use Rattle.eh_bytes.specs.Listed.{listed_unit};
ghost use Rattle.image_forms.specs.Linkable.{IsLinkable};
ghost use Rattle.image_forms.specs.Symbols.{named};
ghost use Rattle.image_link.specs.Names.{names_of};
ghost use Rattle.image_link.specs.Runs.{RunsUnit};

use crate::NoMemory;
use crate::image::link_placed;
use crate::symbols::symbols_of;
use eh_bytes::Emitted;
use elf_sections::with_sections;
use std::alloc::Global;
use symbol_names::SymbolNames;

/// The image of a unit as `link` gives it, whose parts have sections, and whose functions, types and globals have symbols as far
/// as they have names. What is read by its program headers is the same, so it is clean and may run; and of a unit that is within the
/// bounds of its source it has no more bytes than an image may have.
pub fn link_named(
    alloc: Global,
    emitted: &Emitted,
    names: &SymbolNames,
) -> Result<Vec<u8>, NoMemory>
    ensures bytes { IfOk result (λ file. file.items ≡ named (names_of names.now) (listed_unit emitted.now)) }
    ensures runs { IsLinkable (listed_unit emitted.now) → IfOk result (λ file. RunsUnit (listed_unit emitted.now) file.items) }
{
    let linked = link_placed(alloc, emitted)?;
    let symbols = symbols_of(alloc, &linked.layout, &linked.own, emitted, names)?;
    with_sections(
        alloc,
        linked.file.as_slice(),
        &linked.places,
        symbols.as_slice(),
    )
}
