// Where the parts of a unit's image stand.
ghost use Rattle.std.specs.Prelude.{◌≡◌, ◌+◌, ◌*◌, ◌<◌, ◌^◌, length, IfOk};
ghost use Rattle.eh_bytes.specs.Listed.{listed_unit};
ghost use Rattle.image_link.specs.Laid.{IsLaid};
ghost use Rattle.image_forms.specs.Placed.{page_from};

use crate::NoMemory;
use crate::layout::Layout;
use eh_bytes::Emitted;
use std::alloc::AllocError;

const PAGE: u64 = 0x1000;

const FIRST_PAGE: u64 = 0x1_0000;

// No code stands at or above it.
const LIMIT: u64 = 0x4000_0000;

// The words of the runtime's own functions.
const STUB_WORDS: u64 = 100;

// The first address of a page at or behind a number.
fn page_from(n: u64) -> u64
    requires { n < 2 ^ 40 }
    ensures { result ≡ page_from n }
{
    (n + PAGE - 1) / PAGE * PAGE
}

/// A number of items as one of 32 bits; for more of them memory is wanting.
pub fn count(items: usize) -> Result<u64, NoMemory>
    ensures same { IfOk result (λ n. n ≡ items) }
    ensures few { IfOk result (λ n. n < 2 ^ 32) }
{
    match u32::try_from(items) {
        Ok(count) => Ok(u64::from(count)),
        Err(_) => Err(AllocError),
    }
}

/// Where the parts of a unit's image stand; for larger ones memory is wanting.
pub fn layout_of(emitted: &Emitted) -> Result<Layout, NoMemory>
    ensures laid { IfOk result (λ l. IsLaid (listed_unit emitted.now) l) }
    ensures low { IfOk result (λ l. l.names < 2 ^ 30) }
{
    let globals_size = 4 * count(emitted.globals.len())?;
    let records = FIRST_PAGE + page_from(globals_size);
    let code = records + 24 * count(emitted.types.len())?;
    let unit = code + 4 * STUB_WORDS;
    let names = page_from(unit + 4 * count(emitted.code.len())?);
    if names >= LIMIT {
        return Err(AllocError);
    }
    Ok(Layout {
        globals: records - globals_size,
        records,
        code,
        unit,
        names,
    })
}
