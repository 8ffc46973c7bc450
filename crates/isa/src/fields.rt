// A word's fields, read from the word: what each is, and what it stays under. Above the word stand the numbers of its registers, with the
// digits of the prefix before it (specs/Wide.antt).
ghost use Rattle.std.specs.Prelude.{◌≡◌, ◌<◌, ◌^◌};
ghost use Rattle.isa.specs.Bounds.{scalar_registers, vector_registers, field_limit};
ghost use Rattle.isa.specs.Fields.{fields_of, is_masked, imm_i, imm_s, imm_b, imm_u, imm_j};
ghost use Rattle.isa.specs.Fields.{private_load_offset, private_store_offset};
ghost use Rattle.isa.specs.Number.{op_at};
ghost use Rattle.isa.specs.Kinds.{cond_of, load_op_of, store_op_of, lane_store_op_of, csr_op_of, source_in};
ghost use Rattle.isa.specs.Prefix.{on_source};
ghost use Rattle.isa.specs.Wide.{wide_word, plain_wide, is_long, long_in, numbers_in, xd_in, xs1_in, xs2_in, vd_in, vs1_in, vs2_in};

use crate::{CsrOp, LoadOp, Source, StoreOp, VReg, XReg};
use word::{Cond, Op};

// The word with the digits d, a and b on its fields of rd, rs1 and rs2, and `top` above them all.
pub fn wide(word: u32, d: u64, a: u64, b: u64, top: u64) -> u64
    requires { (d < 2 ^ 3) × (a < 2 ^ 3) × (b < 2 ^ 3) × (top < 2 ^ 7) }
    ensures { result ≡ wide_word word d a b top }
{
    let w = word as u64;
    let numbers = d * 32
        + w / 128 % 32
        + (a * 32 + w / 32768 % 32) * 256
        + (b * 32 + w / 1048576 % 32) * 65536
        + top * 16777216;
    w + numbers * 4294967296
}

// No prefix stands before it.
pub fn plain(word: u32) -> u64
    ensures { result ≡ plain_wide word }
{
    wide(word, 0, 0, 0, 0)
}

pub fn funct3(w: u64) -> u32
    ensures { (result ≡ (fields_of w).funct3) × (result < 2 ^ 3) }
{
    (w / 4096 % 8) as u32
}

// A vector word that is masked: vm is 0.
pub fn masked(w: u64) -> bool
    ensures { result ≡ is_masked (fields_of w) }
{
    w / 33554432 % 128 % 2 == 0
}

// ---- a field of five bits as it is

pub fn rd(w: u64) -> u8
    ensures { (result ≡ (fields_of w).rd) × (result < field_limit) }
{
    (w / 128 % 32) as u8
}

pub fn rs1(w: u64) -> u8
    ensures { (result ≡ (fields_of w).rs1) × (result < field_limit) }
{
    (w / 32768 % 32) as u8
}

// In the place of rs2.
pub fn shift_amount(w: u64) -> u16
    ensures { (result ≡ (fields_of w).rs2) × (result < field_limit) }
{
    (w / 1048576 % 32) as u16
}

// ---- a VI form behind REGEXTI

pub fn long(w: u64) -> bool
    ensures { result ≡ is_long w }
{
    w / 4611686018427387904 % 2 == 1
}

pub fn long_immediate(w: u64) -> u16
    ensures { (result ≡ long_in w (fields_of w).rs1) × (result < 2 ^ 11) }
{
    (w / 72057594037927936 % 64 * 32 + w / 32768 % 32) as u16
}

// ---- registers; a function each, and none generic in place and type: each is one line with the definition's own division

pub fn xd(w: u64) -> XReg
    ensures { (result ≡ xd_in w) × (result.0 < scalar_registers) }
{
    XReg((w / 4294967296 % 64) as u8)
}

pub fn xs1(w: u64) -> XReg
    ensures { (result ≡ xs1_in w) × (result.0 < scalar_registers) }
{
    XReg((w / 1099511627776 % 64) as u8)
}

pub fn xs2(w: u64) -> XReg
    ensures { (result ≡ xs2_in w) × (result.0 < scalar_registers) }
{
    XReg((w / 281474976710656 % 64) as u8)
}

pub fn vd(w: u64) -> VReg
    ensures { (result ≡ vd_in w) × (result.0 < vector_registers) }
{
    VReg((w / 4294967296 % 256) as u8)
}

pub fn vs1(w: u64) -> VReg
    ensures { (result ≡ vs1_in w) × (result.0 < vector_registers) }
{
    VReg((w / 1099511627776 % 256) as u8)
}

pub fn vs2(w: u64) -> VReg
    ensures { (result ≡ vs2_in w) × (result.0 < vector_registers) }
{
    VReg((w / 281474976710656 % 256) as u8)
}

// ---- immediates, with the definition's own divisions

pub fn imm_i(w: u64) -> u16
    ensures { (result ≡ imm_i (fields_of w)) × (result < 2 ^ 12) }
{
    (w / 1048576 % 4096) as u16
}

pub fn imm_s(w: u64) -> u16
    ensures { (result ≡ imm_s (fields_of w)) × (result < 2 ^ 12) }
{
    (w / 33554432 % 128 * 32 + w / 128 % 32) as u16
}

pub fn private_load_offset(w: u64) -> u16
    ensures { (result ≡ private_load_offset (fields_of w)) × (result < 2 ^ 11) }
{
    (w / 33554432 % 128 % 64 * 32 + w / 1048576 % 32) as u16
}

pub fn private_store_offset(w: u64) -> u16
    ensures { (result ≡ private_store_offset (fields_of w)) × (result < 2 ^ 11) }
{
    (w / 33554432 % 128 % 64 * 32 + w / 128 % 32) as u16
}

pub fn imm_b(w: u64) -> u16
    ensures { (result ≡ imm_b (fields_of w)) × (result < 2 ^ 13) }
{
    (w / 33554432 % 128 / 64 * 4096
        + w / 128 % 32 % 2 * 2048
        + w / 33554432 % 128 % 64 * 32
        + w / 128 % 32 / 2 * 2) as u16
}

pub fn imm_u(w: u64) -> u32
    ensures { (result ≡ imm_u (fields_of w)) × (result < 2 ^ 20) }
{
    (w / 4096 % 1048576) as u32
}

pub fn imm_j(w: u64) -> u32
    ensures { (result ≡ imm_j (fields_of w)) × (result < 2 ^ 21) }
{
    (w / 33554432 % 128 / 64 * 1048576
        + w / 32768 % 32 * 32768
        + w / 4096 % 8 * 4096
        + w / 1048576 % 32 % 2 * 2048
        + w / 33554432 % 128 % 64 * 32
        + w / 1048576 % 32 / 2 * 2) as u32
}

// ---- what funct3 says within a kind

pub fn cond(w: u64) -> Cond
    ensures { result ≡ cond_of (fields_of w) }
{
    let funct3 = w / 4096 % 8;
    match funct3 {
        0b000 => Cond::Eq,
        0b001 => Cond::Ne,
        0b100 => Cond::Lt,
        0b101 => Cond::Ge,
        0b110 => Cond::Ltu,
        _ => Cond::Geu,
    }
}

pub fn load_op(w: u64) -> LoadOp
    ensures { result ≡ load_op_of (fields_of w) }
{
    let funct3 = w / 4096 % 8;
    match funct3 {
        0b000 => LoadOp::B,
        0b001 => LoadOp::H,
        0b010 => LoadOp::W,
        0b100 => LoadOp::Bu,
        _ => LoadOp::Hu,
    }
}

pub fn store_op(w: u64) -> StoreOp
    ensures { result ≡ store_op_of (fields_of w) }
{
    let funct3 = w / 4096 % 8;
    match funct3 {
        0b000 => StoreOp::B,
        0b001 => StoreOp::H,
        _ => StoreOp::W,
    }
}

pub fn lane_store_op(w: u64) -> StoreOp
    ensures { result ≡ lane_store_op_of (fields_of w) }
{
    let funct3 = w / 4096 % 8;
    match funct3 {
        0b111 => StoreOp::B,
        0b011 => StoreOp::H,
        _ => StoreOp::W,
    }
}

pub fn csr_op(w: u64) -> CsrOp
    ensures { result ≡ csr_op_of (fields_of w) }
{
    let funct3 = w / 4096 % 8;
    match funct3 {
        0b001 => CsrOp::Rw,
        0b010 => CsrOp::Rs,
        0b101 => CsrOp::Rw,
        0b110 => CsrOp::Rs,
        _ => CsrOp::Rc,
    }
}

fn immediate(w: u64) -> Source
    ensures { result ≡ (numbers_in w).imm (fields_of w).rs1 }
{
    if long(w) {
        return Source::Long(long_immediate(w));
    }
    Source::I(rs1(w))
}

// A vector word's last operand.
pub fn source(w: u64) -> Source
    ensures { result ≡ on_source (numbers_in w) (source_in (fields_of w)) }
{
    let funct3 = w / 4096 % 8;
    match funct3 {
        0b000 => Source::V(vs1(w)),
        0b010 => Source::V(vs1(w)),
        0b011 => immediate(w),
        _ => Source::X(xs1(w)),
    }
}

// The op that has the number.
pub fn op_at(n: u32) -> Op
    ensures { result ≡ op_at n }
{
    match n {
        0 => Op::Add,
        1 => Op::Sub,
        2 => Op::Rsub,
        3 => Op::Sll,
        4 => Op::Srl,
        5 => Op::Sra,
        6 => Op::Slt,
        7 => Op::Sltu,
        8 => Op::And,
        9 => Op::Or,
        10 => Op::Xor,
        11 => Op::Mul,
        12 => Op::Mulh,
        13 => Op::Mulhsu,
        14 => Op::Mulhu,
        15 => Op::Div,
        16 => Op::Divu,
        17 => Op::Rem,
        18 => Op::Remu,
        19 => Op::Min,
        20 => Op::Minu,
        21 => Op::Max,
        22 => Op::Maxu,
        23 => Op::Seq,
        24 => Op::Sne,
        25 => Op::Sle,
        26 => Op::Sleu,
        27 => Op::Sgt,
        _ => Op::Sgtu,
    }
}
