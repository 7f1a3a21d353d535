// The functions of a clean image.
ghost use Rattle.std.specs.Prelude.{◌≡◌, ◌+◌, ◌<◌, ◌^◌, Option, Ok, true, IfSome, option_map};
ghost use Rattle.eh_bytes.specs.Memory.{memory_of};
ghost use Rattle.table_forms.specs.Fde.{is_in};
ghost use Rattle.table_forms.specs.Lsda.{Table};
ghost use Rattle.elf_image.specs.Clean as images;
ghost use Rattle.elf_image.specs.Clean.{table_named};
ghost use Rattle.frame_read.specs.Listed.{fde_listed};
ghost use Rattle.lsda_read.specs.WholeTable.{IsWhole};
ghost use Rattle.place_verdicts.specs.Places.{function_at};
ghost use Rattle.place_verdicts.specs.Image.{IsRead};

use eh_bytes::Segments;
use frame_read::Fde;
use lsda_read::Lsda;
use table_check::CleanImage;

/// The FDE whose region has a place.
pub fn fde_at(image: &CleanImage, place: u64) -> Option<Fde>
    requires { (c : images.CleanImage) × IsRead image.now c }
    ensures fde { (c : images.CleanImage) → IsRead image.now c → result ≡ option_map (λ g. fde_listed g.fde) (function_at c.functions place) }
    ensures inside { IfSome result (λ f. is_in f.region place ≡ true) }
{
    image.frames.fde_for(place)
}

/// The table of an FDE of a clean image, if it names one.
pub fn table_of<'m>(memory: &'m Segments, fde: &Fde) -> Option<Lsda<'m>>
    requires ends { fde.now.region.start + fde.now.region.length < 2 ^ 64 }
    requires read { (o : Option Table) × (table_named (memory_of memory.now) fde.now.lsda fde.now.region ≡ Ok o) }
    ensures table { (o : Option Table) → table_named (memory_of memory.now) fde.now.lsda fde.now.region ≡ Ok o → result ≡ o }
    ensures whole { IfSome result (λ t. IsWhole t) }
{
    if fde.lsda == 0 {
        None
    } else {
        Some(Lsda::known_at(memory, fde.lsda, fde.region))
    }
}
