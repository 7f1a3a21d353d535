// Bytes that are reserved and not touched before they are needed.
ghost use Rattle.std.specs.Prelude.{◌≤◌, length};
ghost use Rattle.rv64_machine.specs.Reserved.{IsGrown, IsReserved};

// By how many bytes the touched ones grow, and what their number is a multiple of.
const STEP: usize = 0x1_0000;

/// Puts zeros behind the bytes, so that there are as many as are wanted, or somewhat more.
///
/// Takes no memory: there is room for all of them.
#[cold]
pub fn grow(bytes: &mut Vec<u8>, wanted: usize, size: usize)
    requires room { IsReserved size bytes.old }
    requires inside { wanted ≤ size }
    ensures room { IsReserved size bytes.new }
    ensures enough { wanted ≤ length bytes.new.items }
    ensures grown { IsGrown bytes.old.items bytes.new.items }
{
    if wanted <= bytes.len() {
        return;
    }
    let more = (size - wanted).min(STEP - wanted % STEP);
    match bytes.resize(wanted + more, 0) {
        Ok(()) => {}
        Err(_) => unreachable!(),
    }
}
