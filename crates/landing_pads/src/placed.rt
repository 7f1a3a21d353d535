// Operations with what covers them, while code is put together.
ghost use Rattle.std.specs.Prelude.{◌≡◌, IfOk};
ghost use Rattle.landing_pads.specs.View.{cover_of};

use crate::NoMemory;
use crate::unit::LinearOp;
use smallvec::SmallVec;
use std::rc::Rc;

/// The filters of a landing pad, innermost first. Most chains are short.
pub type Chain = SmallVec<i64, 4>;

/// What covers an operation: no site, a site without a pad, or a pad with its chain, which all operations in its extent share.
#[derive(Drop)]
pub enum Cover {
    Bare,
    Unpadded,
    Padded(u32, Rc<Chain>),
}

impl Cover {
    /// The same cover, which shares its chain.
    pub fn shared(&self) -> Result<Self, NoMemory>
        ensures { IfOk result (λ c. cover_of c ≡ cover_of self.now) }
    {
        match self {
            Cover::Bare => Ok(Cover::Bare),
            Cover::Unpadded => Ok(Cover::Unpadded),
            Cover::Padded(pad, chain) => Ok(Cover::Padded(*pad, chain.clone()?)),
        }
    }
}

/// An operation in its cover.
#[derive(Drop)]
pub struct Placed {
    pub op: LinearOp,
    pub cover: Cover,
}
