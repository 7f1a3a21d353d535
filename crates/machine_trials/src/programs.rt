// Programs on the machine, and each of its faults.
ghost use Rattle.std.specs.Prelude.{IfOk};
ghost use Rattle.eh_bytes.specs.Extent.{AreBelow, extents_of};

use eh_bytes::{Segment, Segments};
use rv64_isa::{decode, encode};
use rv64_machine::*;
use std::alloc::Global;
use std::test::Fail;

mod sequences;

use sequences::{LENGTH, SEQUENCES};

const CODE_AT: u64 = 0x1_0000;

// A machine over these words in memory that may be executed and not written, with the pc at the first.
fn machine_of(alloc: Global, words: &[u32]) -> Result<Machine, Fail> {
    let mut bytes = Vec::new(alloc);
    for word in words {
        bytes.extend_from_slice(&word.to_le_bytes())?;
    }
    // A new machine wants its segments below a limit.
    bytes.truncate(4096);
    let mut parts = Vec::new(alloc);
    parts.push(Segment {
        address: CODE_AT,
        bytes,
        file_at: 0,
        write: false,
        exec: true,
    })?;
    let mut machine = Machine::new(alloc, Segments { parts })?;
    machine.set_pc(CODE_AT);
    Ok(machine)
}

// What the machine answers where it first does not go on, in few steps.
fn run(machine: &mut Machine) -> Step {
    for _ in 0..100 {
        let step = machine.step();
        if step != Step::Done {
            return step;
        }
    }
    Step::Done
}

// The examples of docstrings. The words were made by GNU as 2.40.
#[test]
fn examples_of_docstrings(rt: HostRuntime) -> Result<(), Fail> {
    let word = 0xfd01_0113; // addi sp, sp, -48
    let instr = decode(word).expect(&rt, "an instruction");
    assert_eq!(rt; encode(instr), word);

    let mut machine = machine_of(rt.alloc(), &[word, 0x0000_0073])?;
    machine.set_reg(2, 0x7100_0000);
    for _ in 0..2 {
        if machine.step() != Step::Done {
            break;
        }
    }
    assert_eq!(rt;
        (machine.pc(), machine.reg(2)),
        (CODE_AT + 8, 0x7100_0000 - 48)
    );
    Ok(())
}

#[test]
fn programs_leave_what_another_simulator_leaves(rt: HostRuntime) -> Result<(), Fail> {
    let mut words = Vec::new(rt.alloc());
    for (program, _) in SEQUENCES.iter() {
        words.extend_from_slice(program)?;
    }
    let mut machine = machine_of(rt.alloc(), &words)?;
    let mut place = CODE_AT;
    for (_, value) in SEQUENCES.iter() {
        for n in 1..32 {
            machine.set_reg(n, if n == 2 { 0x7100_0000 } else { 0 });
        }
        machine.set_pc(place);
        assert!(rt; run(&mut machine) == Step::Ecall, "{place:x}");
        assert!(rt; machine.reg(10) == *value, "{place:x}");
        place = place.wrapping_add(4 * LENGTH);
    }
    Ok(())
}

// The words were made by GNU as 2.40; x5 is set to the number beside them, and x2 is the stack's end.
#[test]
fn faults_leave_the_machine(rt: HostRuntime) -> Result<(), Fail> {
    let rows = [
        (0x0000_0000, 0, FaultKind::Illegal), // no instruction
        (0x0010_0073, 0, FaultKind::Break), // ebreak
        (0x0022_a503, 0x1_0000, FaultKind::Misaligned), // lw x10,2(x5)
        (0x0012_9503, 0x9000_0000, FaultKind::Misaligned), // lh x10,1(x5)
        (0x0042_b503, 0x1_0000, FaultKind::Misaligned), // ld x10,4(x5)
        (0x0052_a123, 0x1_0000, FaultKind::Misaligned), // sw x5,2(x5)
        (0x0022_8067, 0x1_0000, FaultKind::Misaligned), // jalr x0,2(x5)
        (0x0020_006f, 0, FaultKind::Misaligned), // jal x0,.+2
        (0x0000_0163, 0, FaultKind::Misaligned), // beq x0,x0,.+2
        (0x0002_8503, 0x9000_0000, FaultKind::Unmapped), // lb x10,0(x5)
        (0x0002_b503, 0x7100_0000, FaultKind::Unmapped), // ld x10,0(x5)
        (0x0002_b503, 0xffff_ffff_ffff_fff8, FaultKind::Unmapped), // ld x10,0(x5)
        (0x0052_8023, 0x6040_0000, FaultKind::Unmapped), // sb x5,0(x5)
        (0x0052_8023, 0x1_0000, FaultKind::ReadOnly), // sb x5,0(x5)
        (0x0052_b023, 0x1_0000, FaultKind::ReadOnly), // sd x5,0(x5)
    ];
    let mut machine = machine_of(rt.alloc(), &rows.map(|(word, _, _)| word))?;
    let mut place = CODE_AT;
    for (_, base, kind) in rows {
        machine.set_pc(place);
        machine.set_reg(5, base);
        machine.set_reg(10, 77);
        assert!(rt; machine.step() == Step::Fault(kind), "{place:x}");
        assert!(rt;
            machine.pc() == place && machine.reg(5) == base,
            "{place:x}"
        );
        assert!(rt; machine.reg(10) == 77, "{place:x}");
        place = place.wrapping_add(4);
    }
    Ok(())
}

#[test]
fn fetches_need_code(rt: HostRuntime) -> Result<(), Fail> {
    let mut machine = machine_of(rt.alloc(), &[0x13, 0x13])?;
    for (pc, step) in [
        (0x1_0002, Step::Fault(FaultKind::Misaligned)),
        (0x9000_0001, Step::Fault(FaultKind::Misaligned)),
        (0x1_0008, Step::Fault(FaultKind::Unmapped)),
        (0x0_fffc, Step::Fault(FaultKind::Unmapped)),
        (0x70ff_fff0, Step::Fault(FaultKind::Unmapped)),
        (0x6000_0000, Step::Fault(FaultKind::Unmapped)),
        (0xffff_ffff_ffff_fffc, Step::Fault(FaultKind::Unmapped)),
        (0x1_0004, Step::Done),
    ] {
        machine.set_pc(pc);
        assert!(rt; machine.step() == step, "{pc:x}");
    }
    Ok(())
}

#[test]
fn words_are_loaded(rt: HostRuntime) -> Result<(), Fail> {
    let machine = machine_of(rt.alloc(), &[0x13, 0x8000_0537, 0x73])?;
    for (address, word) in [
        (0x1_0000, Ok(0x8000_0537_0000_0013)),
        (0x1_0004, Err(FaultKind::Misaligned)),
        (0x9000_0001, Err(FaultKind::Misaligned)),
        (0x1_0008, Err(FaultKind::Unmapped)),
        (0x70ff_fff8, Ok(0)),
        (0x603f_fff8, Ok(0)),
        (0x6040_0000, Err(FaultKind::Unmapped)),
    ] {
        assert!(rt; machine.load_u64(address) == word, "{address:x}");
    }
    assert!(rt; machine.tables().parts.len() == 1, "one segment");
    assert!(rt;
        machine.reg(2) == 0x7100_0000 && machine.reg(31) == 0,
        "a new machine"
    );
    Ok(())
}

// Code and data that lie across two segments, of which the second alone may be written.
fn adjoining(alloc: Global) -> Result<Segments, Fail>
    ensures { IfOk result (λ segments. AreBelow 0x60000000 (extents_of segments.parts.items)) }
{
    let mut parts = Vec::new(alloc);
    parts.push(Segment {
        address: CODE_AT,
        bytes: b"\x13\0\0\0\x03\xb5".to_vec(alloc)?,
        file_at: 0,
        write: false,
        exec: true,
    })?;
    parts.push(Segment {
        address: 0x1_0006,
        bytes: b"\x02\0\x23\xb0\xa2\0\x23\xb8\xa2\0\0\0\0\0\0\0\0\0".to_vec(alloc)?,
        file_at: 0,
        write: true,
        exec: true,
    })?;
    Ok(Segments { parts })
}

// The words are ld x10,0(x5), sd x10,0(x5) and sd x10,16(x5).
#[test]
fn accesses_go_across_segments(rt: HostRuntime) -> Result<(), Fail> {
    let mut machine = Machine::new(rt.alloc(), adjoining(rt.alloc())?)?;
    machine.set_pc(0x1_0004);
    machine.set_reg(5, CODE_AT);
    assert!(rt; machine.step() == Step::Done, "a load across both");
    assert!(rt; machine.reg(10) == 0x0002_b503_0000_0013, "its value");
    assert!(rt;
        machine.step() == Step::Fault(FaultKind::ReadOnly),
        "a store across both"
    );
    machine.set_pc(0x1_000c);
    assert!(rt; machine.step() == Step::Done, "a store to the second");
    assert!(rt;
        machine.load_u64(0x1_0010) == Ok(0x0002_b503_0000_0013),
        "what it stored"
    );
    assert!(rt;
        machine.load_u64(0x1_0018) == Err(FaultKind::Unmapped),
        "behind both"
    );
    Ok(())
}
