// The runtime's own functions, put together.
ghost use Rattle.std.specs.Prelude.{◌≡◌, ◌+◌, ◌*◌, ◌%◌, ◌<◌, ◌^◌, length, map, IfOk};
ghost use Rattle.eh_bytes.specs.Listed.{listed_unit, listed_function, listed_table};
ghost use Rattle.linear_forms.specs.Stub.{terminating, end_catch, call_unexpected};
ghost use Rattle.machine_forms.specs.Emitted.{emitted_stubs};
ghost use Rattle.machine_forms.specs.StubCode.{stub_first};
ghost use Rattle.rt_stubs.specs.Listing.{function_of, table_of};

use crate::NoMemory;
use crate::call_unexpected::CALL_UNEXPECTED;
use crate::end_catch::END_CATCH;
use crate::listing::Listing;
use crate::placed::Stubs;
use crate::start::START;
use crate::terminate::TERMINATE;
use crate::words::put_words;
use eh_bytes::{Emitted, EmittedFunc, LsdaList, RowName};
use std::alloc::Global;

// The first word of each, from that of start on.
const TERMINATE_WORD: u32 = 4;

const END_CATCH_WORD: u32 = 12;

const CALL_UNEXPECTED_WORD: u32 = 40;

fn code(alloc: Global) -> Result<Vec<u32>, NoMemory>
    ensures { IfOk result (λ words. words.items ≡ emitted_stubs.code) }
{
    let mut words = Vec::new(alloc);
    put_words(&mut words, START.code)?;
    put_words(&mut words, TERMINATE.code)?;
    put_words(&mut words, END_CATCH.code)?;
    put_words(&mut words, CALL_UNEXPECTED.code)?;
    Ok(words)
}

fn table(alloc: Global, listing: &Listing) -> Result<LsdaList, NoMemory>
    ensures { IfOk result (λ table. listed_table table ≡ table_of listing.now) }
{
    let mut chains = Vec::new(alloc);
    for chain in listing.chains {
        chains.push(chain.to_vec(alloc)?)?;
    }
    Ok(LsdaList {
        sites: listing.sites.to_vec(alloc)?,
        chains,
        types: listing.types.to_vec(alloc)?,
        lists: Vec::new(alloc),
    })
}

fn function(alloc: Global, first: u32, listing: &Listing) -> Result<EmittedFunc, NoMemory>
    requires { length listing.now.code.now < 2 ^ 32 }
    ensures { IfOk result (λ f. listed_function f ≡ function_of first listing.now) }
{
    Ok(EmittedFunc {
        name: RowName::new(listing.name.to_vec(alloc)?),
        first,
        words: listing.code.len() as u32,
        table: table(alloc, listing)?,
        moves: listing.moves.to_vec(alloc)?,
    })
}

fn functions(alloc: Global) -> Result<Vec<EmittedFunc>, NoMemory>
    ensures { IfOk result (λ fs. map listed_function fs.items ≡ emitted_stubs.functions) }
{
    let mut functions = Vec::new(alloc);
    functions.push(function(alloc, 0, &START)?)?;
    functions.push(function(alloc, TERMINATE_WORD, &TERMINATE)?)?;
    functions.push(function(alloc, END_CATCH_WORD, &END_CATCH)?)?;
    functions.push(function(alloc, CALL_UNEXPECTED_WORD, &CALL_UNEXPECTED)?)?;
    Ok(functions)
}

/// The runtime's own functions for an address: their code with tables, and where each begins.
///
/// The words are the same at every address. They reach the unit's first word behind themselves, and
/// the type record of `std::bad_exception` 48 bytes before themselves.
pub fn stubs(alloc: Global, address: u64) -> Result<Stubs, NoMemory>
    requires aligned { address % 4 ≡ 0 }
    requires low { address < 2 ^ 30 }
    ensures emitted { IfOk result (λ s. listed_unit s.emitted ≡ emitted_stubs) }
    ensures start { IfOk result (λ s. s.start ≡ address) }
    ensures terminate { IfOk result (λ s. s.terminate ≡ address + 4 * stub_first terminating) }
    ensures end_catch { IfOk result (λ s. s.end_catch ≡ address + 4 * stub_first end_catch) }
    ensures call_unexpected { IfOk result (λ s. s.call_unexpected ≡ address + 4 * stub_first call_unexpected) }
{
    Ok(Stubs {
        emitted: Emitted {
            code: code(alloc)?,
            functions: functions(alloc)?,
            types: Vec::new(alloc),
            globals: Vec::new(alloc),
            tokens: 0,
        },
        start: address,
        terminate: address + 4 * u64::from(TERMINATE_WORD),
        end_catch: address + 4 * u64::from(END_CATCH_WORD),
        call_unexpected: address + 4 * u64::from(CALL_UNEXPECTED_WORD),
    })
}
