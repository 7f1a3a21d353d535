// Words of an assembler.

// Each word with its instruction and the bits of its fields, in the order rd, rs1, rs2, immediate.
// The words were made by GNU as 2.40 (Debian binutils-riscv64-linux-gnu 2.40-2) with -march=rv64im
// and read with objcopy; the fields are those that were written in its source: of a branch or a
// jump half the distance, and of FENCE the bits fm, pred and succ.
pub(super) static LISTED: [(u32, &str, (u32, u32, u32)); 220] = [
    (0x00000037, "lui", (0, 0, 0)), // lui x0, 0x0
    (0xfffff537, "lui", (10, 1048575, 0)), // lui x10, 0xfffff
    (0x80000fb7, "lui", (31, 524288, 0)), // lui x31, 0x80000
    (0x00000017, "auipc", (0, 0, 0)), // auipc x0, 0x0
    (0xfffff517, "auipc", (10, 1048575, 0)), // auipc x10, 0xfffff
    (0x80000f97, "auipc", (31, 524288, 0)), // auipc x31, 0x80000
    (0x8000006f, "jal", (0, 524288, 0)), // jal x0, .-1048576
    (0x7ffff0ef, "jal", (1, 524287, 0)), // jal x1, .+1048574
    (0xffffffef, "jal", (31, 1048575, 0)), // jal x31, .-2
    (0x001002ef, "jal", (5, 1024, 0)), // jal x5, .+2048
    (0x80008067, "jalr", (0, 1, 2048)), // jalr x0, -2048(x1)
    (0x7ff58567, "jalr", (10, 11, 2047)), // jalr x10, 2047(x11)
    (0xfff00fe7, "jalr", (31, 0, 4095)), // jalr x31, -1(x0)
    (0x000280e7, "jalr", (1, 5, 0)), // jalr x1, 0(x5)
    (0x80100063, "beq", (0, 1, 2048)), // beq x0, x1, .-4096
    (0x7eb50fe3, "beq", (10, 11, 2047)), // beq x10, x11, .+4094
    (0xfe0f8fe3, "beq", (31, 0, 4095)), // beq x31, x0, .-2
    (0x006281e3, "beq", (5, 6, 1025)), // beq x5, x6, .+2050
    (0x80101063, "bne", (0, 1, 2048)), // bne x0, x1, .-4096
    (0x7eb51fe3, "bne", (10, 11, 2047)), // bne x10, x11, .+4094
    (0xfe0f9fe3, "bne", (31, 0, 4095)), // bne x31, x0, .-2
    (0x006291e3, "bne", (5, 6, 1025)), // bne x5, x6, .+2050
    (0x80104063, "blt", (0, 1, 2048)), // blt x0, x1, .-4096
    (0x7eb54fe3, "blt", (10, 11, 2047)), // blt x10, x11, .+4094
    (0xfe0fcfe3, "blt", (31, 0, 4095)), // blt x31, x0, .-2
    (0x0062c1e3, "blt", (5, 6, 1025)), // blt x5, x6, .+2050
    (0x80105063, "bge", (0, 1, 2048)), // bge x0, x1, .-4096
    (0x7eb55fe3, "bge", (10, 11, 2047)), // bge x10, x11, .+4094
    (0xfe0fdfe3, "bge", (31, 0, 4095)), // bge x31, x0, .-2
    (0x0062d1e3, "bge", (5, 6, 1025)), // bge x5, x6, .+2050
    (0x80106063, "bltu", (0, 1, 2048)), // bltu x0, x1, .-4096
    (0x7eb56fe3, "bltu", (10, 11, 2047)), // bltu x10, x11, .+4094
    (0xfe0fefe3, "bltu", (31, 0, 4095)), // bltu x31, x0, .-2
    (0x0062e1e3, "bltu", (5, 6, 1025)), // bltu x5, x6, .+2050
    (0x80107063, "bgeu", (0, 1, 2048)), // bgeu x0, x1, .-4096
    (0x7eb57fe3, "bgeu", (10, 11, 2047)), // bgeu x10, x11, .+4094
    (0xfe0fffe3, "bgeu", (31, 0, 4095)), // bgeu x31, x0, .-2
    (0x0062f1e3, "bgeu", (5, 6, 1025)), // bgeu x5, x6, .+2050
    (0x80008003, "lb", (0, 1, 2048)), // lb x0, -2048(x1)
    (0x7ff58503, "lb", (10, 11, 2047)), // lb x10, 2047(x11)
    (0xfff00f83, "lb", (31, 0, 4095)), // lb x31, -1(x0)
    (0x00830283, "lb", (5, 6, 8)), // lb x5, 8(x6)
    (0x80009003, "lh", (0, 1, 2048)), // lh x0, -2048(x1)
    (0x7ff59503, "lh", (10, 11, 2047)), // lh x10, 2047(x11)
    (0xfff01f83, "lh", (31, 0, 4095)), // lh x31, -1(x0)
    (0x00831283, "lh", (5, 6, 8)), // lh x5, 8(x6)
    (0x8000a003, "lw", (0, 1, 2048)), // lw x0, -2048(x1)
    (0x7ff5a503, "lw", (10, 11, 2047)), // lw x10, 2047(x11)
    (0xfff02f83, "lw", (31, 0, 4095)), // lw x31, -1(x0)
    (0x00832283, "lw", (5, 6, 8)), // lw x5, 8(x6)
    (0x8000b003, "ld", (0, 1, 2048)), // ld x0, -2048(x1)
    (0x7ff5b503, "ld", (10, 11, 2047)), // ld x10, 2047(x11)
    (0xfff03f83, "ld", (31, 0, 4095)), // ld x31, -1(x0)
    (0x00833283, "ld", (5, 6, 8)), // ld x5, 8(x6)
    (0x8000c003, "lbu", (0, 1, 2048)), // lbu x0, -2048(x1)
    (0x7ff5c503, "lbu", (10, 11, 2047)), // lbu x10, 2047(x11)
    (0xfff04f83, "lbu", (31, 0, 4095)), // lbu x31, -1(x0)
    (0x00834283, "lbu", (5, 6, 8)), // lbu x5, 8(x6)
    (0x8000d003, "lhu", (0, 1, 2048)), // lhu x0, -2048(x1)
    (0x7ff5d503, "lhu", (10, 11, 2047)), // lhu x10, 2047(x11)
    (0xfff05f83, "lhu", (31, 0, 4095)), // lhu x31, -1(x0)
    (0x00835283, "lhu", (5, 6, 8)), // lhu x5, 8(x6)
    (0x8000e003, "lwu", (0, 1, 2048)), // lwu x0, -2048(x1)
    (0x7ff5e503, "lwu", (10, 11, 2047)), // lwu x10, 2047(x11)
    (0xfff06f83, "lwu", (31, 0, 4095)), // lwu x31, -1(x0)
    (0x00836283, "lwu", (5, 6, 8)), // lwu x5, 8(x6)
    (0x80100023, "sb", (0, 1, 2048)), // sb x1, -2048(x0)
    (0x7eb50fa3, "sb", (10, 11, 2047)), // sb x11, 2047(x10)
    (0xfe0f8fa3, "sb", (31, 0, 4095)), // sb x0, -1(x31)
    (0x026280a3, "sb", (5, 6, 33)), // sb x6, 33(x5)
    (0x80101023, "sh", (0, 1, 2048)), // sh x1, -2048(x0)
    (0x7eb51fa3, "sh", (10, 11, 2047)), // sh x11, 2047(x10)
    (0xfe0f9fa3, "sh", (31, 0, 4095)), // sh x0, -1(x31)
    (0x026290a3, "sh", (5, 6, 33)), // sh x6, 33(x5)
    (0x80102023, "sw", (0, 1, 2048)), // sw x1, -2048(x0)
    (0x7eb52fa3, "sw", (10, 11, 2047)), // sw x11, 2047(x10)
    (0xfe0fafa3, "sw", (31, 0, 4095)), // sw x0, -1(x31)
    (0x0262a0a3, "sw", (5, 6, 33)), // sw x6, 33(x5)
    (0x80103023, "sd", (0, 1, 2048)), // sd x1, -2048(x0)
    (0x7eb53fa3, "sd", (10, 11, 2047)), // sd x11, 2047(x10)
    (0xfe0fbfa3, "sd", (31, 0, 4095)), // sd x0, -1(x31)
    (0x0262b0a3, "sd", (5, 6, 33)), // sd x6, 33(x5)
    (0x80008013, "addi", (0, 1, 2048)), // addi x0, x1, -2048
    (0x7ff58513, "addi", (10, 11, 2047)), // addi x10, x11, 2047
    (0xfff00f93, "addi", (31, 0, 4095)), // addi x31, x0, -1
    (0x00030293, "addi", (5, 6, 0)), // addi x5, x6, 0
    (0x8000a013, "slti", (0, 1, 2048)), // slti x0, x1, -2048
    (0x7ff5a513, "slti", (10, 11, 2047)), // slti x10, x11, 2047
    (0xfff02f93, "slti", (31, 0, 4095)), // slti x31, x0, -1
    (0x00032293, "slti", (5, 6, 0)), // slti x5, x6, 0
    (0x8000b013, "sltiu", (0, 1, 2048)), // sltiu x0, x1, -2048
    (0x7ff5b513, "sltiu", (10, 11, 2047)), // sltiu x10, x11, 2047
    (0xfff03f93, "sltiu", (31, 0, 4095)), // sltiu x31, x0, -1
    (0x00033293, "sltiu", (5, 6, 0)), // sltiu x5, x6, 0
    (0x8000c013, "xori", (0, 1, 2048)), // xori x0, x1, -2048
    (0x7ff5c513, "xori", (10, 11, 2047)), // xori x10, x11, 2047
    (0xfff04f93, "xori", (31, 0, 4095)), // xori x31, x0, -1
    (0x00034293, "xori", (5, 6, 0)), // xori x5, x6, 0
    (0x8000e013, "ori", (0, 1, 2048)), // ori x0, x1, -2048
    (0x7ff5e513, "ori", (10, 11, 2047)), // ori x10, x11, 2047
    (0xfff06f93, "ori", (31, 0, 4095)), // ori x31, x0, -1
    (0x00036293, "ori", (5, 6, 0)), // ori x5, x6, 0
    (0x8000f013, "andi", (0, 1, 2048)), // andi x0, x1, -2048
    (0x7ff5f513, "andi", (10, 11, 2047)), // andi x10, x11, 2047
    (0xfff07f93, "andi", (31, 0, 4095)), // andi x31, x0, -1
    (0x00037293, "andi", (5, 6, 0)), // andi x5, x6, 0
    (0x00009013, "slli", (0, 1, 0)), // slli x0, x1, 0
    (0x03f59513, "slli", (10, 11, 63)), // slli x10, x11, 63
    (0x02001f93, "slli", (31, 0, 32)), // slli x31, x0, 32
    (0x0000d013, "srli", (0, 1, 0)), // srli x0, x1, 0
    (0x03f5d513, "srli", (10, 11, 63)), // srli x10, x11, 63
    (0x02005f93, "srli", (31, 0, 32)), // srli x31, x0, 32
    (0x4000d013, "srai", (0, 1, 0)), // srai x0, x1, 0
    (0x43f5d513, "srai", (10, 11, 63)), // srai x10, x11, 63
    (0x42005f93, "srai", (31, 0, 32)), // srai x31, x0, 32
    (0x01f08033, "add", (0, 1, 31)), // add x0, x1, x31
    (0x00c58533, "add", (10, 11, 12)), // add x10, x11, x12
    (0x01100fb3, "add", (31, 0, 17)), // add x31, x0, x17
    (0x41f08033, "sub", (0, 1, 31)), // sub x0, x1, x31
    (0x40c58533, "sub", (10, 11, 12)), // sub x10, x11, x12
    (0x41100fb3, "sub", (31, 0, 17)), // sub x31, x0, x17
    (0x01f09033, "sll", (0, 1, 31)), // sll x0, x1, x31
    (0x00c59533, "sll", (10, 11, 12)), // sll x10, x11, x12
    (0x01101fb3, "sll", (31, 0, 17)), // sll x31, x0, x17
    (0x01f0a033, "slt", (0, 1, 31)), // slt x0, x1, x31
    (0x00c5a533, "slt", (10, 11, 12)), // slt x10, x11, x12
    (0x01102fb3, "slt", (31, 0, 17)), // slt x31, x0, x17
    (0x01f0b033, "sltu", (0, 1, 31)), // sltu x0, x1, x31
    (0x00c5b533, "sltu", (10, 11, 12)), // sltu x10, x11, x12
    (0x01103fb3, "sltu", (31, 0, 17)), // sltu x31, x0, x17
    (0x01f0c033, "xor", (0, 1, 31)), // xor x0, x1, x31
    (0x00c5c533, "xor", (10, 11, 12)), // xor x10, x11, x12
    (0x01104fb3, "xor", (31, 0, 17)), // xor x31, x0, x17
    (0x01f0d033, "srl", (0, 1, 31)), // srl x0, x1, x31
    (0x00c5d533, "srl", (10, 11, 12)), // srl x10, x11, x12
    (0x01105fb3, "srl", (31, 0, 17)), // srl x31, x0, x17
    (0x41f0d033, "sra", (0, 1, 31)), // sra x0, x1, x31
    (0x40c5d533, "sra", (10, 11, 12)), // sra x10, x11, x12
    (0x41105fb3, "sra", (31, 0, 17)), // sra x31, x0, x17
    (0x01f0e033, "or", (0, 1, 31)), // or x0, x1, x31
    (0x00c5e533, "or", (10, 11, 12)), // or x10, x11, x12
    (0x01106fb3, "or", (31, 0, 17)), // or x31, x0, x17
    (0x01f0f033, "and", (0, 1, 31)), // and x0, x1, x31
    (0x00c5f533, "and", (10, 11, 12)), // and x10, x11, x12
    (0x01107fb3, "and", (31, 0, 17)), // and x31, x0, x17
    (0x8000801b, "addiw", (0, 1, 2048)), // addiw x0, x1, -2048
    (0x7ff5851b, "addiw", (10, 11, 2047)), // addiw x10, x11, 2047
    (0xfff00f9b, "addiw", (31, 0, 4095)), // addiw x31, x0, -1
    (0x0003029b, "addiw", (5, 6, 0)), // addiw x5, x6, 0
    (0x0000901b, "slliw", (0, 1, 0)), // slliw x0, x1, 0
    (0x01f5951b, "slliw", (10, 11, 31)), // slliw x10, x11, 31
    (0x01001f9b, "slliw", (31, 0, 16)), // slliw x31, x0, 16
    (0x0000d01b, "srliw", (0, 1, 0)), // srliw x0, x1, 0
    (0x01f5d51b, "srliw", (10, 11, 31)), // srliw x10, x11, 31
    (0x01005f9b, "srliw", (31, 0, 16)), // srliw x31, x0, 16
    (0x4000d01b, "sraiw", (0, 1, 0)), // sraiw x0, x1, 0
    (0x41f5d51b, "sraiw", (10, 11, 31)), // sraiw x10, x11, 31
    (0x41005f9b, "sraiw", (31, 0, 16)), // sraiw x31, x0, 16
    (0x01f0803b, "addw", (0, 1, 31)), // addw x0, x1, x31
    (0x00c5853b, "addw", (10, 11, 12)), // addw x10, x11, x12
    (0x01100fbb, "addw", (31, 0, 17)), // addw x31, x0, x17
    (0x41f0803b, "subw", (0, 1, 31)), // subw x0, x1, x31
    (0x40c5853b, "subw", (10, 11, 12)), // subw x10, x11, x12
    (0x41100fbb, "subw", (31, 0, 17)), // subw x31, x0, x17
    (0x01f0903b, "sllw", (0, 1, 31)), // sllw x0, x1, x31
    (0x00c5953b, "sllw", (10, 11, 12)), // sllw x10, x11, x12
    (0x01101fbb, "sllw", (31, 0, 17)), // sllw x31, x0, x17
    (0x01f0d03b, "srlw", (0, 1, 31)), // srlw x0, x1, x31
    (0x00c5d53b, "srlw", (10, 11, 12)), // srlw x10, x11, x12
    (0x01105fbb, "srlw", (31, 0, 17)), // srlw x31, x0, x17
    (0x41f0d03b, "sraw", (0, 1, 31)), // sraw x0, x1, x31
    (0x40c5d53b, "sraw", (10, 11, 12)), // sraw x10, x11, x12
    (0x41105fbb, "sraw", (31, 0, 17)), // sraw x31, x0, x17
    (0x0330000f, "fence", (0, 0, 51)), // fence rw, rw
    (0x0ff0000f, "fence", (0, 0, 255)), // fence
    (0x8330000f, "fence", (0, 0, 2099)), // fence.tso
    (0x0f40000f, "fence", (0, 0, 244)), // fence iorw, o
    (0x0100000f, "fence", (0, 0, 16)), // pause
    (0xfff3028f, "fence", (5, 6, 4095)), // .insn i 0x0f, 0, x5, x6, -1
    (0x00000073, "ecall", (0, 0, 0)), // ecall
    (0x00100073, "ebreak", (0, 0, 0)), // ebreak
    (0x03f08033, "mul", (0, 1, 31)), // mul x0, x1, x31
    (0x02c58533, "mul", (10, 11, 12)), // mul x10, x11, x12
    (0x03100fb3, "mul", (31, 0, 17)), // mul x31, x0, x17
    (0x03f09033, "mulh", (0, 1, 31)), // mulh x0, x1, x31
    (0x02c59533, "mulh", (10, 11, 12)), // mulh x10, x11, x12
    (0x03101fb3, "mulh", (31, 0, 17)), // mulh x31, x0, x17
    (0x03f0a033, "mulhsu", (0, 1, 31)), // mulhsu x0, x1, x31
    (0x02c5a533, "mulhsu", (10, 11, 12)), // mulhsu x10, x11, x12
    (0x03102fb3, "mulhsu", (31, 0, 17)), // mulhsu x31, x0, x17
    (0x03f0b033, "mulhu", (0, 1, 31)), // mulhu x0, x1, x31
    (0x02c5b533, "mulhu", (10, 11, 12)), // mulhu x10, x11, x12
    (0x03103fb3, "mulhu", (31, 0, 17)), // mulhu x31, x0, x17
    (0x03f0c033, "div", (0, 1, 31)), // div x0, x1, x31
    (0x02c5c533, "div", (10, 11, 12)), // div x10, x11, x12
    (0x03104fb3, "div", (31, 0, 17)), // div x31, x0, x17
    (0x03f0d033, "divu", (0, 1, 31)), // divu x0, x1, x31
    (0x02c5d533, "divu", (10, 11, 12)), // divu x10, x11, x12
    (0x03105fb3, "divu", (31, 0, 17)), // divu x31, x0, x17
    (0x03f0e033, "rem", (0, 1, 31)), // rem x0, x1, x31
    (0x02c5e533, "rem", (10, 11, 12)), // rem x10, x11, x12
    (0x03106fb3, "rem", (31, 0, 17)), // rem x31, x0, x17
    (0x03f0f033, "remu", (0, 1, 31)), // remu x0, x1, x31
    (0x02c5f533, "remu", (10, 11, 12)), // remu x10, x11, x12
    (0x03107fb3, "remu", (31, 0, 17)), // remu x31, x0, x17
    (0x03f0803b, "mulw", (0, 1, 31)), // mulw x0, x1, x31
    (0x02c5853b, "mulw", (10, 11, 12)), // mulw x10, x11, x12
    (0x03100fbb, "mulw", (31, 0, 17)), // mulw x31, x0, x17
    (0x03f0c03b, "divw", (0, 1, 31)), // divw x0, x1, x31
    (0x02c5c53b, "divw", (10, 11, 12)), // divw x10, x11, x12
    (0x03104fbb, "divw", (31, 0, 17)), // divw x31, x0, x17
    (0x03f0d03b, "divuw", (0, 1, 31)), // divuw x0, x1, x31
    (0x02c5d53b, "divuw", (10, 11, 12)), // divuw x10, x11, x12
    (0x03105fbb, "divuw", (31, 0, 17)), // divuw x31, x0, x17
    (0x03f0e03b, "remw", (0, 1, 31)), // remw x0, x1, x31
    (0x02c5e53b, "remw", (10, 11, 12)), // remw x10, x11, x12
    (0x03106fbb, "remw", (31, 0, 17)), // remw x31, x0, x17
    (0x03f0f03b, "remuw", (0, 1, 31)), // remuw x0, x1, x31
    (0x02c5f53b, "remuw", (10, 11, 12)), // remuw x10, x11, x12
    (0x03107fbb, "remuw", (31, 0, 17)), // remuw x31, x0, x17
];

// Words that are no instructions of RV64IM: those of the same assembler with -march=rv64g, two
// compressed instructions each with -march=rv64gc, and some that no extension has.
pub(super) static UNLISTED: [u32; 42] = [
    0x003170d3, // fadd.s f1, f2, f3
    0x023170d3, // fadd.d f1, f2, f3
    0x00813087, // fld f1, 8(x2)
    0x00812087, // flw f1, 8(x2)
    0x00113427, // fsd f1, 8(x2)
    0x00112427, // fsw f1, 8(x2)
    0xc22170d3, // fcvt.l.d x1, f2
    0xe20100d3, // fmv.x.d x1, f2
    0xa23120d3, // feq.d x1, f2, f3
    0x223170c3, // fmadd.d f1, f2, f3, f4
    0x5a0170d3, // fsqrt.d f1, f2
    0x100120af, // lr.w x1, (x2)
    0x100130af, // lr.d x1, (x2)
    0x1821a0af, // sc.w x1, x2, (x3)
    0x1821b0af, // sc.d x1, x2, (x3)
    0x0821a0af, // amoswap.w x1, x2, (x3)
    0x0021b0af, // amoadd.d x1, x2, (x3)
    0xe021b0af, // amomaxu.d x1, x2, (x3)
    0x003110f3, // csrrw x1, fcsr, x2
    0xc0002073, // csrrs x0, cycle, x0
    0x003130f3, // csrrc x1, fcsr, x2
    0x0031d0f3, // csrrwi x1, fcsr, 3
    0x0031e0f3, // csrrsi x1, fcsr, 3
    0xc01022f3, // rdtime x5
    0x0000100f, // fence.i
    0x30200073, // mret
    0x10200073, // sret
    0x10500073, // wfi
    0x12208073, // sfence.vma x1, x2
    0x00010001, 0x54fd0415, 0x9636852e, 0xe83e4722, 0x90028082, 0xe0806080, 0x64fd0800, 0x00000000,
    0xffffffff, 0x04051513, // slli with bit 26
    0x0205151b, // slliw with bit 25
    0x40051513, // slli with bit 30
    0x00200073, // uret
];
