// The machine and its step.
ghost use Rattle.std.specs.Prelude.{◌≡◌, ◌+◌, ◌*◌, ◌%◌, ◌==◌, ◌^◌, ◌<◌, ◌≤◌, drop, map, IfOk};
ghost use Rattle.eh_bytes.specs.Extent.{AreBelow, extents_of};
ghost use Rattle.rv64_isa.specs.Arithmetic.{add, is_less};
ghost use Rattle.rv64_isa.specs.State.{reg_of, with_reg};
ghost use Rattle.rv64_isa.specs.Step.{branches, calls, done, imm12, jumps, loads, next, passes, sets, step_of, stores, x};
ghost use Rattle.rv64_machine.specs.Bytes.{size_of};
ghost use Rattle.rv64_machine.specs.Initial.{initial};
ghost use Rattle.rv64_machine.specs.Load.{extension_of, word_loaded};
ghost use Rattle.rv64_machine.specs.Next.{next_instr};
ghost use Rattle.rv64_machine.specs.Parts.{part_of};

use crate::NoMemory;
use crate::bytes::Size;
use crate::decoder::Decoder;
use crate::memory::Memory;
use eh_bytes::Segments;
use rv64_isa::{
    BranchOffset, FaultKind, Immediate12, Instr, Register, Step, arithmetic as op, decode,
};
use std::alloc::Global;
use std::marker::Model;

/// One hart and its memory.
///
/// ```rust
/// let mut machine = Machine::new(alloc, Segments { parts: code })?;
/// machine.set_pc(0x1_0000);
/// while machine.step() == Step::Done {}
/// ```
#[derive(Drop)]
pub struct Machine {
    pc: u64,
    regs: [u64; 32],
    memory: Memory,
    decoder: Decoder,
}

impl Model for Machine {
    ghost use Rattle.rv64_isa.specs.State.{State, state};

    ghost Value = { State };

    ghost view = { λ m. state m.pc m.regs m.memory };
}

// A number of so many bytes as 64 bits, with its sign or without.
#[inline(always)]
fn extended(value: u64, size: Size, signed: bool) -> u64
    requires { value < 256 ^ size_of size }
    ensures { result ≡ extension_of signed size value }
{
    match size {
        Size::Byte if signed && value >= 0x80 => value + 0xffff_ffff_ffff_ff00,
        Size::Half if signed && value >= 0x8000 => value + 0xffff_ffff_ffff_0000,
        Size::Word if signed && value >= 0x8000_0000 => value + 0xffff_ffff_0000_0000,
        _ => value,
    }
}

fn is_aligned(address: u64, size: Size) -> bool
    ensures { result ≡ address % size_of size == 0 }
{
    address % size.bytes() == 0
}

// A match of an instruction that does what each does: those of two registers by their operation, the others as they stand.
macro_rules! executed {
    (
        $hart:ident, $instr:ident:
        registers { $($name:ident $operation:ident),* $(,)? }
        $($other:pat => $step:expr),* $(,)?
    ) => {
        match $instr {
            $(Instr::$name(rd, rs1, rs2) => {
                $hart.set(rd, op::$operation($hart.x(rs1), $hart.x(rs2)))
            })*
            $($other => $step,)*
        }
    };
}

impl Machine {
    #[inline(always)]
    fn x(&self, register: Register) -> u64
        ensures { result ≡ x self.now register }
    {
        self.reg(register.get())
    }

    // The pc of the instruction behind.
    #[inline(always)]
    fn next(&self) -> u64
        ensures { result ≡ next self.now }
    {
        self.pc.wrapping_add(4)
    }

    #[inline(always)]
    fn pass(&mut self) -> Step
        ensures { (result, self.new) ≡ passes self.old }
    {
        self.pc = self.pc.wrapping_add(4);
        Step::Done
    }

    fn call(&mut self) -> Step
        ensures { (result, self.new) ≡ calls self.old }
    {
        self.pc = self.pc.wrapping_add(4);
        Step::Ecall
    }

    #[inline(always)]
    fn set(&mut self, rd: Register, value: u64) -> Step
        ensures { (result, self.new) ≡ sets self.old rd value }
    {
        self.set_reg(rd.get(), value);
        self.pc = self.pc.wrapping_add(4);
        Step::Done
    }

    #[inline(always)]
    fn jump(&mut self, rd: Register, target: u64) -> Step
        ensures { (result, self.new) ≡ jumps self.old rd target }
    {
        if target % 4 != 0 {
            return Step::Fault(FaultKind::Misaligned);
        }
        let next = self.next();
        self.set_reg(rd.get(), next);
        self.pc = target;
        Step::Done
    }

    #[inline(always)]
    fn branch(&mut self, taken: bool, offset: BranchOffset) -> Step
        ensures { (result, self.new) ≡ branches self.old taken offset }
    {
        if !taken {
            return self.pass();
        }
        let target = self.pc.wrapping_add(offset.distance());
        if target % 4 != 0 {
            return Step::Fault(FaultKind::Misaligned);
        }
        self.pc = target;
        Step::Done
    }

    fn is_less(&self, rs1: Register, rs2: Register) -> bool
        ensures { result ≡ is_less (x self.now rs1) (x self.now rs2) }
    {
        op::is_less(self.x(rs1), self.x(rs2))
    }

    // The address of a load, a store or a jump by a register.
    fn address(&self, rs1: Register, imm: Immediate12) -> u64
        ensures { result ≡ add (x self.now rs1) (imm12 imm) }
    {
        op::add(self.x(rs1), imm.extended())
    }

    #[inline(always)]
    fn load(
        &mut self,
        size: Size,
        signed: bool,
        rd: Register,
        rs1: Register,
        imm: Immediate12,
    ) -> Step
        ensures { (result, self.new) ≡ loads self.old (size_of size) (extension_of signed size) rd (add (x self.old rs1) (imm12 imm)) }
    {
        let address = self.address(rs1, imm);
        if !is_aligned(address, size) {
            return Step::Fault(FaultKind::Misaligned);
        }
        match self.memory.access_next(address, size) {
            None => Step::Fault(FaultKind::Unmapped),
            Some(access) => self.set(rd, extended(access.value, size, signed)),
        }
    }

    #[inline(always)]
    fn store(&mut self, size: Size, rs1: Register, rs2: Register, imm: Immediate12) -> Step
        ensures { (result, self.new) ≡ stores self.old (size_of size) (add (x self.old rs1) (imm12 imm)) (x self.old rs2) }
    {
        let address = self.address(rs1, imm);
        let value = self.x(rs2);
        if !is_aligned(address, size) {
            return Step::Fault(FaultKind::Misaligned);
        }
        match self.memory.access_next(address, size) {
            None => Step::Fault(FaultKind::Unmapped),
            Some(access) if !access.write => Step::Fault(FaultKind::ReadOnly),
            Some(_) => {
                self.memory.put(address, size, value);
                self.pass()
            }
        }
    }

    // What each instruction does.
    #[tactic(auto, unfolding(rv64_isa::specs::Step::done))]
    fn execute(&mut self, instr: Instr) -> Step
        ensures { (result, self.new) ≡ done instr self.old }
    {
        executed! { self, instr:
            registers {
                Add add, Sub sub, Sll sll, Slt slt, Sltu sltu, Xor xor, Srl srl, Sra sra, Or or,
                And and, Addw addw, Subw subw, Sllw sllw, Srlw srlw, Sraw sraw, Mul mul, Mulh mulh,
                Mulhsu mulhsu, Mulhu mulhu, Div div, Divu divu, Rem rem, Remu remu, Mulw mulw,
                Divw divw, Divuw divuw, Remw remw, Remuw remuw,
            }
            Instr::Lui(rd, imm) => self.set(rd, imm.extended()),
            Instr::Auipc(rd, imm) => self.set(rd, op::add(self.pc(), imm.extended())),
            Instr::Jal(rd, offset) => self.jump(rd, op::add(self.pc(), offset.distance())),
            Instr::Jalr(rd, rs1, imm) => self.jump(rd, self.address(rs1, imm) / 2 * 2),
            Instr::Beq(rs1, rs2, offset) => self.branch(self.x(rs1) == self.x(rs2), offset),
            Instr::Bne(rs1, rs2, offset) => self.branch(self.x(rs1) != self.x(rs2), offset),
            Instr::Blt(rs1, rs2, offset) => self.branch(self.is_less(rs1, rs2), offset),
            Instr::Bge(rs1, rs2, offset) => self.branch(!self.is_less(rs1, rs2), offset),
            Instr::Bltu(rs1, rs2, offset) => self.branch(self.x(rs1) < self.x(rs2), offset),
            Instr::Bgeu(rs1, rs2, offset) => self.branch(self.x(rs1) >= self.x(rs2), offset),
            Instr::Lb(rd, rs1, imm) => self.load(Size::Byte, true, rd, rs1, imm),
            Instr::Lh(rd, rs1, imm) => self.load(Size::Half, true, rd, rs1, imm),
            Instr::Lw(rd, rs1, imm) => self.load(Size::Word, true, rd, rs1, imm),
            Instr::Ld(rd, rs1, imm) => self.load(Size::Double, false, rd, rs1, imm),
            Instr::Lbu(rd, rs1, imm) => self.load(Size::Byte, false, rd, rs1, imm),
            Instr::Lhu(rd, rs1, imm) => self.load(Size::Half, false, rd, rs1, imm),
            Instr::Lwu(rd, rs1, imm) => self.load(Size::Word, false, rd, rs1, imm),
            Instr::Sb(rs1, rs2, imm) => self.store(Size::Byte, rs1, rs2, imm),
            Instr::Sh(rs1, rs2, imm) => self.store(Size::Half, rs1, rs2, imm),
            Instr::Sw(rs1, rs2, imm) => self.store(Size::Word, rs1, rs2, imm),
            Instr::Sd(rs1, rs2, imm) => self.store(Size::Double, rs1, rs2, imm),
            Instr::Addi(rd, rs1, imm) => self.set(rd, op::add(self.x(rs1), imm.extended())),
            Instr::Slti(rd, rs1, imm) => self.set(rd, op::slt(self.x(rs1), imm.extended())),
            Instr::Sltiu(rd, rs1, imm) => self.set(rd, op::sltu(self.x(rs1), imm.extended())),
            Instr::Xori(rd, rs1, imm) => self.set(rd, op::xor(self.x(rs1), imm.extended())),
            Instr::Ori(rd, rs1, imm) => self.set(rd, op::or(self.x(rs1), imm.extended())),
            Instr::Andi(rd, rs1, imm) => self.set(rd, op::and(self.x(rs1), imm.extended())),
            Instr::Slli(rd, rs1, shamt) => self.set(rd, op::sll(self.x(rs1), shamt.get().into())),
            Instr::Srli(rd, rs1, shamt) => self.set(rd, op::srl(self.x(rs1), shamt.get().into())),
            Instr::Srai(rd, rs1, shamt) => self.set(rd, op::sra(self.x(rs1), shamt.get().into())),
            Instr::Addiw(rd, rs1, imm) => self.set(rd, op::addw(self.x(rs1), imm.extended())),
            Instr::Slliw(rd, rs1, shamt) => self.set(rd, op::sllw(self.x(rs1), shamt.get().into())),
            Instr::Srliw(rd, rs1, shamt) => self.set(rd, op::srlw(self.x(rs1), shamt.get().into())),
            Instr::Sraiw(rd, rs1, shamt) => self.set(rd, op::sraw(self.x(rs1), shamt.get().into())),
            Instr::Fence(_, _, _) => self.pass(),
            Instr::Ecall => self.call(),
            Instr::Ebreak => Step::Fault(FaultKind::Break),
        }
    }

    /// A machine over these segments, with 4 MiB of exception slots at 0x60000000 and 16 MiB of stack
    /// at 0x70000000, both zero.
    ///
    /// The pc and all registers are 0, but for sp, which is the stack's end.
    pub fn new(alloc: Global, segments: Segments) -> Result<Machine, NoMemory>
        requires { AreBelow 0x60000000 (extents_of segments.parts.items) }
        ensures { IfOk result (λ machine. machine ≡ initial (map part_of segments.parts.items)) }
    {
        let mut regs = [0; 32];
        regs[2] = 0x7100_0000;
        Ok(Machine {
            pc: 0,
            regs,
            memory: Memory::new(alloc, segments)?,
            decoder: Decoder::new(),
        })
    }

    /// Executes the instruction that the pc points to. A fault leaves the machine as it was.
    ///
    /// At an ECALL the pc moves on, and nothing else changes. Takes no memory.
    pub fn step(&mut self) -> Step
        ensures { (result, self.new) ≡ step_of self.old }
    {
        if self.pc % 4 != 0 {
            return Step::Fault(FaultKind::Misaligned);
        }
        match self.memory.fetch(self.pc) {
            None => Step::Fault(FaultKind::Unmapped),
            Some(word) => match self.decoder.instr_at(self.pc, word) {
                None => Step::Fault(FaultKind::Illegal),
                Some(instr) => self.execute(instr),
            },
        }
    }

    /// The instruction that is next; none where it can't be fetched or is none.
    #[tactic(auto, unfolding(crate::specs::Next::next_instr))]
    pub fn next_instr(&self) -> Option<Instr>
        ensures { result ≡ next_instr self.now }
    {
        if self.pc % 4 == 0 {
            match self.memory.code_at(self.pc) {
                None => None,
                Some(word) => match decode(word) {
                    Err(_) => None,
                    Ok(instr) => Some(instr),
                },
            }
        } else {
            None
        }
    }

    /// Register `xn`.
    pub fn reg(&self, n: u8) -> u64
        requires { n < 32 }
        ensures { result ≡ reg_of self.now.regs n }
    {
        if n == 0 { 0 } else { self.regs[n as usize] }
    }

    /// Sets register `xn`; x0 stays 0.
    pub fn set_reg(&mut self, n: u8, value: u64)
        requires { n < 32 }
        ensures { self.new ≡ record self.old { regs = with_reg self.old.regs n value } }
    {
        if n != 0 {
            self.regs[n as usize] = value;
        }
    }

    /// The address of the instruction that is next.
    pub fn pc(&self) -> u64
        ensures { result ≡ self.now.pc }
    {
        self.pc
    }

    /// Sets the address of the instruction that is next.
    pub fn set_pc(&mut self, pc: u64)
        ensures { self.new ≡ record self.old { pc = pc } }
    {
        self.pc = pc;
    }

    /// The eight bytes at an address, the lowest first.
    ///
    /// `Misaligned` where the address is no multiple of 8, else `Unmapped` where one of the bytes
    /// does not lie in memory.
    pub fn load_u64(&self, address: u64) -> Result<u64, FaultKind>
        ensures { result ≡ word_loaded self.now address }
    {
        if address % 8 != 0 {
            return Err(FaultKind::Misaligned);
        }
        match self.memory.access(address, Size::Double) {
            None => Err(FaultKind::Unmapped),
            Some(access) => Ok(access.value),
        }
    }

    /// The segments that the machine was given, with their bytes as they are now.
    pub fn tables(&self) -> &Segments
        ensures { drop 2 self.now.memory ≡ map part_of result.now.parts.items }
    {
        self.memory.tables()
    }
}
