// A word's kind: its row in the instruction tables, and NONE where it has none. Numbers and not an enum, so that the compiler goes straight from
// the decoder's answer to the handler (docs/SPEED.md).

pub const NONE: u32 = 0;

pub const LUI: u32 = 1;

pub const AUIPC: u32 = 2;

pub const JAL: u32 = 3;

pub const JALR: u32 = 4;

pub const BRANCH: u32 = 5;

pub const LOAD: u32 = 6;

pub const STORE: u32 = 7;

pub const FENCE: u32 = 8;

pub const CSR: u32 = 9;

pub const VBRANCH: u32 = 10;

pub const SETRPC: u32 = 11;

pub const VLOAD: u32 = 12;

pub const VSTORE: u32 = 13;

pub const PLOAD: u32 = 14;

pub const PSTORE: u32 = 15;

pub const ADD: u32 = 16;

pub const SUB: u32 = 17;

pub const SLL: u32 = 18;

pub const SRL: u32 = 19;

pub const SRA: u32 = 20;

pub const SLT: u32 = 21;

pub const SLTU: u32 = 22;

pub const AND: u32 = 23;

pub const OR: u32 = 24;

pub const XOR: u32 = 25;

pub const MUL: u32 = 26;

pub const MULH: u32 = 27;

pub const MULHSU: u32 = 28;

pub const MULHU: u32 = 29;

pub const DIV: u32 = 30;

pub const DIVU: u32 = 31;

pub const REM: u32 = 32;

pub const REMU: u32 = 33;

pub const ADDI: u32 = 34;

pub const SLLI: u32 = 35;

pub const SRLI: u32 = 36;

pub const SRAI: u32 = 37;

pub const SLTI: u32 = 38;

pub const SLTIU: u32 = 39;

pub const ANDI: u32 = 40;

pub const ORI: u32 = 41;

pub const XORI: u32 = 42;

pub const JOIN: u32 = 43;

pub const ENDPRG: u32 = 44;

pub const BARRIER: u32 = 45;

pub const VMOVE_XS: u32 = 46;

pub const VMOVE_SX: u32 = 47;

pub const VID: u32 = 48;

pub const VMOVE: u32 = 49;

pub const REGEXT: u32 = 50;

pub const REGEXTI: u32 = 51;

pub const VMERGE: u32 = 52;

// From VECTOR on: VECTOR + the op's number, which is under OPS, whatever the last operand is.
pub const VECTOR: u32 = 128;

pub const OPS: u32 = 32;

pub const VADD: u32 = 128;

pub const VSUB: u32 = 129;

pub const VRSUB: u32 = 130;

pub const VSLL: u32 = 131;

pub const VSRL: u32 = 132;

pub const VSRA: u32 = 133;

pub const VSLT: u32 = 134;

pub const VSLTU: u32 = 135;

pub const VAND: u32 = 136;

pub const VOR: u32 = 137;

pub const VXOR: u32 = 138;

pub const VMUL: u32 = 139;

pub const VMULH: u32 = 140;

pub const VMULHSU: u32 = 141;

pub const VMULHU: u32 = 142;

pub const VDIV: u32 = 143;

pub const VDIVU: u32 = 144;

pub const VREM: u32 = 145;

pub const VREMU: u32 = 146;

pub const VMIN: u32 = 147;

pub const VMINU: u32 = 148;

pub const VMAX: u32 = 149;

pub const VMAXU: u32 = 150;

pub const VSEQ: u32 = 151;

pub const VSNE: u32 = 152;

pub const VSLE: u32 = 153;

pub const VSLEU: u32 = 154;

pub const VSGT: u32 = 155;

pub const VSGTU: u32 = 156;
