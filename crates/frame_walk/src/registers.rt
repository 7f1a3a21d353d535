// The registers of the frame outward.
ghost use Rattle.std.specs.Prelude.{◌≡◌, ◌+◌, ◌≤◌, ◌<◌, List, drop, take, option_map, slice_index_or};
ghost use Rattle.frame_walk.specs.Changed.{HasRulesIn};
ghost use Rattle.frame_walk.specs.Registers.{offset_by, register_of, registers_from};

use rv64_machine::Machine;
use table_forms::Rule;

/// An address and an offset, modulo 2^64.
pub fn offset_by(address: u64, offset: i64) -> u64
    ensures { result ≡ offset_by address offset }
{
    address.wrapping_add(offset.cast_unsigned())
}

/// The register of this number, 0 where there is none.
pub fn register_at(regs: &[u64; 64], number: usize) -> u64
    ensures { result ≡ slice_index_or regs.now number 0 }
{
    regs.get(number).copied().unwrap_or(0)
}

// One register, where the word that it needs is readable.
fn register_of(
    machine: &Machine,
    cfa: u64,
    regs: &[u64; 64],
    number: usize,
    rule: Rule,
) -> Option<u64>
    ensures { result ≡ register_of machine.now cfa regs.now number rule }
{
    match rule {
        Rule::Unspecified if number == 2 => Some(cfa),
        Rule::Unspecified | Rule::Undefined | Rule::Same => Some(register_at(regs, number)),
        Rule::Offset(offset) => machine.load_u64(offset_by(cfa, offset)).ok(),
        Rule::ValOffset(offset) => Some(offset_by(cfa, offset)),
        Rule::Register(other) => Some(register_at(regs, other as usize)),
    }
}

/// All registers by their rules, where every word that they need is readable. A register without a
/// rule keeps its value, except x2, which is the canonical frame address; so only those that have
/// a rule are looked at.
pub fn registers_of(
    machine: &Machine,
    cfa: u64,
    regs: &[u64; 64],
    rules: &[Rule; 64],
    changed: &[u8],
) -> Option<[u64; 64]>
    requires { HasRulesIn rules.now changed.now }
    ensures { result ≡ registers_from machine.now cfa regs.now 0 rules.now }
{
    let mut outward = *regs;
    outward[2] = cfa;
    'changed: for at in 0..changed.len() {
        let number = changed[at] as usize;
        outward[number] = register_of(machine, cfa, regs, number, rules[number])?;
    }
    Some(outward)
}
