// The loops, as words of GNU as 2.40 with -march=rv64im.

static ARITHMETIC: [u32; 8] = [
    0x00128293, // 1: addi x5,x5,1
    0x00530333, // add x6,x6,x5
    0x005343b3, // xor x7,x6,x5
    0x00339e13, // slli x28,x7,3
    0x406e0eb3, // sub x29,x28,x6
    0x007eff33, // and x30,x29,x7
    0x005f6fb3, // or x31,x30,x5
    0xfe0292e3, // bne x5,x0,1b
];

static MEMORY: [u32; 10] = [
    0x00010437, // lui x8,0x10
    0x40043303, // 1: ld x6,1024(x8)
    0x00130313, // addi x6,x6,1
    0x40643023, // sd x6,1024(x8)
    0xff012383, // lw x7,-16(x2)
    0x006383b3, // add x7,x7,x6
    0xfe712823, // sw x7,-16(x2)
    0x40844483, // lbu x9,1032(x8)
    0xfe710423, // sb x7,-24(x2)
    0xfe1ff06f, // jal x0,1b
];

static CALLS: [u32; 9] = [
    0x00c000ef, // 1: jal x1,2f
    0x008000ef, // jal x1,2f
    0xfe000ce3, // beq x0,x0,1b
    0xff010113, // 2: addi x2,x2,-16
    0x00113423, // sd x1,8(x2)
    0x00150513, // addi x10,x10,1
    0x00813083, // ld x1,8(x2)
    0x01010113, // addi x2,x2,16
    0x00008067, // jalr x0,0(x1)
];

/// The words of the loop of this name; that of arithmetic where there is no such loop.
pub fn words_of(name: &str) -> &'static [u32] {
    match name {
        "memory" => &MEMORY,
        "calls" => &CALLS,
        _ => &ARITHMETIC,
    }
}
