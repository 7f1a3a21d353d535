// Frames that were read.
ghost use Rattle.std.specs.Prelude.{◌≡◌, ◌↔◌, ℕ, true, false, All, Contains, Ok, IfSome, IsNone, option_map};
ghost use Rattle.eh_bytes.specs.Memory.{Memory};
ghost use Rattle.table_forms.specs.Fde.{is_in, fde_for};
ghost use Rattle.table_forms.specs.Frames as forms;
ghost use Rattle.frame_read.specs.InOrder.{IsOrder};
ghost use Rattle.frame_read.specs.Listed.{fde_listed};
ghost use Rattle.frame_read.specs.ReadsFrames.{listing};

use crate::fde_search::fde_with;
use crate::listed::{Cie, Fde};
use std::marker::Model;

/// The frames of a memory, of which nothing is refused. Contracts see the list of CIEs and that of
/// FDEs, in the order of their places. Those FDEs whose regions have places are kept in the order of
/// their locations too.
#[derive(Drop)]
pub struct Frames {
    cies: Vec<Cie>,
    fdes: Vec<Fde>,
    order: Vec<Fde>,
}

impl Model for Frames {
    ghost use Rattle.frame_read.specs.InOrder.{IsOrder};
    ghost use Rattle.frame_read.specs.ReadsFrames.{Listing};

    ghost Value = { Listing };

    ghost view = { λ f. record { cies = f.cies.items; fdes = f.fdes.items } };

    ghost invariant = { λ f. IsOrder f.fdes.items f.order.items };
}

impl Frames {
    pub(crate) fn of(cies: Vec<Cie>, fdes: Vec<Fde>, order: Vec<Fde>) -> Frames
        requires { IsOrder fdes.items order.items }
        ensures { result ≡ record { cies = cies.items; fdes = fdes.items } }
    {
        Frames { cies, fdes, order }
    }

    /// The CIEs, in the order of their places.
    pub fn cies(&self) -> &[Cie]
        ensures { result.now ≡ self.now.cies }
    {
        self.cies.as_slice()
    }

    /// The FDEs, in the order of their places.
    pub fn fdes(&self) -> &[Fde]
        ensures { result.now ≡ self.now.fdes }
    {
        self.fdes.as_slice()
    }

    /// The FDE whose region holds a place; none exactly where no region holds it. It is sought by
    /// halves, and no memory is taken.
    pub fn fde_for(&self, pc: u64) -> Option<Fde>
        ensures found { IfSome result (λ f. Contains self.now.fdes f × (is_in f.region pc ≡ true)) }
        ensures none { IsNone result ↔ All (λ f. is_in f.region pc ≡ false) self.now.fdes }
        ensures frame { (memory : Memory) (header : ℕ) (read : forms.Frames) → forms.frames memory header ≡ Ok read → self.now ≡ listing read → result ≡ option_map fde_listed (fde_for read.fdes pc) }
    {
        fde_with(self.order.as_slice(), pc)
    }
}
