// The instruction of a word, by its kind: for the test program and for whoever lists words. The step reads the fields itself. A number of 64
// bits is a word with the numbers of its registers above it.
#![tactic(auto)]

ghost use Rattle.std.specs.Prelude.{◌≡◌, ◌++◌, ◌%◌};
ghost use Rattle.isa.specs.Fields.{fields_of};
ghost use Rattle.isa.specs.Table.{word_at};
ghost use Rattle.isa.specs.Scalar.{immediate_as, shift_as, op_as};
ghost use Rattle.isa.specs.Number.{op_at};
ghost use Rattle.isa.specs.Decode.{decode_of};
ghost use Rattle.isa.specs.Kinds.{lane_op_word, lane_groups, of_registers, of_immediates, op_limit};
ghost use Rattle.isa.specs.Masked.{over_mask};
ghost use Rattle.isa.specs.Prefix.{on_fields};
ghost use Rattle.isa.specs.Wide.{numbers_in, csr_wide, wide_of};

use isa::fields::{
    cond, csr_op, funct3, imm_b, imm_i, imm_j, imm_s, imm_u, lane_store_op, load_op, masked, op_at,
    plain, private_load_offset, private_store_offset, rd, rs1, shift_amount, source, store_op, vd,
    vs1, vs2, xd, xs1, xs2,
};
use isa::masked::{is_compare, is_v0};
use isa::{Instr, Space, VecArgs, kinds};
use word::Op;

fn of_registers(op: Op, w: u64) -> Instr
    ensures { result ≡ on_fields (numbers_in w) (op_as op (fields_of w)) }
{
    Instr::OpReg(op, xd(w), xs1(w), xs2(w))
}

fn of_immediate(op: Op, w: u64) -> Instr
    ensures { result ≡ on_fields (numbers_in w) (immediate_as op (fields_of w)) }
{
    Instr::OpImm(op, xd(w), xs1(w), imm_i(w))
}

fn shift(op: Op, w: u64) -> Instr
    ensures { result ≡ on_fields (numbers_in w) (shift_as op (fields_of w)) }
{
    Instr::OpImm(op, xd(w), xs1(w), shift_amount(w))
}

fn csr(w: u64) -> Instr
    ensures { result ≡ csr_wide w }
{
    if funct3(w) < 0b100 {
        return Instr::Csr(csr_op(w), xd(w), xs1(w), imm_i(w));
    }
    Instr::CsrImm(csr_op(w), xd(w), rs1(w), imm_i(w))
}

fn vector(kind: u32, w: u64) -> Instr
    ensures { result ≡ on_fields (numbers_in w) (lane_op_word (op_at (kind % op_limit)) (fields_of w)) }
{
    let args = VecArgs {
        vd: vd(w),
        vs2: vs2(w),
        src: source(w),
        masked: masked(w),
    };
    Instr::Vector(op_at(kind % kinds::OPS), args)
}

fn immediate_word(kind: u32, w: u64) -> Instr
    ensures { result ≡ on_fields (numbers_in w) (word_at (fields_of w) kind of_immediates) }
{
    match kind {
        kinds::ADDI => of_immediate(Op::Add, w),
        kinds::SLLI => shift(Op::Sll, w),
        kinds::SRLI => shift(Op::Srl, w),
        kinds::SRAI => shift(Op::Sra, w),
        kinds::SLTI => of_immediate(Op::Slt, w),
        kinds::SLTIU => of_immediate(Op::Sltu, w),
        kinds::ANDI => of_immediate(Op::And, w),
        kinds::ORI => of_immediate(Op::Or, w),
        kinds::XORI => of_immediate(Op::Xor, w),
        _ => Instr::Refused,
    }
}

fn register_word(kind: u32, w: u64) -> Instr
    ensures { result ≡ on_fields (numbers_in w) (word_at (fields_of w) kind (of_registers ++ of_immediates)) }
{
    match kind {
        kinds::ADD => of_registers(Op::Add, w),
        kinds::SUB => of_registers(Op::Sub, w),
        kinds::SLL => of_registers(Op::Sll, w),
        kinds::SRL => of_registers(Op::Srl, w),
        kinds::SRA => of_registers(Op::Sra, w),
        kinds::SLT => of_registers(Op::Slt, w),
        kinds::SLTU => of_registers(Op::Sltu, w),
        kinds::AND => of_registers(Op::And, w),
        kinds::OR => of_registers(Op::Or, w),
        kinds::XOR => of_registers(Op::Xor, w),
        kinds::MUL => of_registers(Op::Mul, w),
        kinds::MULH => of_registers(Op::Mulh, w),
        kinds::MULHSU => of_registers(Op::Mulhsu, w),
        kinds::MULHU => of_registers(Op::Mulhu, w),
        kinds::DIV => of_registers(Op::Div, w),
        kinds::DIVU => of_registers(Op::Divu, w),
        kinds::REM => of_registers(Op::Rem, w),
        kinds::REMU => of_registers(Op::Remu, w),
        _ => immediate_word(kind, w),
    }
}

fn lane_word(kind: u32, w: u64) -> Instr
    ensures { result ≡ on_fields (numbers_in w) (word_at (fields_of w) kind (lane_groups ++ of_registers ++ of_immediates)) }
{
    match kind {
        kinds::VBRANCH => Instr::VBranch(cond(w), vs1(w), vs2(w), imm_b(w)),
        kinds::SETRPC => Instr::SetRpc(xd(w), xs1(w), imm_i(w)),
        kinds::VLOAD => Instr::VLoad(Space::Plain, load_op(w), vd(w), vs1(w), imm_i(w)),
        kinds::VSTORE => Instr::VStore(Space::Plain, lane_store_op(w), vs1(w), vs2(w), imm_s(w)),
        kinds::PLOAD => Instr::VLoad(
            Space::Private,
            load_op(w),
            vd(w),
            vs1(w),
            private_load_offset(w),
        ),
        kinds::PSTORE => Instr::VStore(
            Space::Private,
            lane_store_op(w),
            vs1(w),
            vs2(w),
            private_store_offset(w),
        ),
        kinds::JOIN => Instr::Join,
        kinds::ENDPRG => Instr::EndPrg,
        kinds::BARRIER => Instr::Barrier(rs1(w)),
        kinds::VMOVE_XS => Instr::VMoveXS(xd(w), vs2(w)),
        kinds::VMOVE_SX => Instr::VMoveSX(vd(w), xs1(w)),
        kinds::VID => Instr::Vid(masked(w), vd(w)),
        kinds::VMOVE => Instr::VMove(vd(w), source(w)),
        kinds::REGEXT => Instr::RegExt(imm_i(w)),
        kinds::REGEXTI => Instr::RegExtI(imm_i(w)),
        kinds::VMERGE => Instr::VMerge(vd(w), vs2(w), source(w)),
        _ => register_word(kind, w),
    }
}

// One match in four functions, each the last arm of the one before, in the order of the rows in isa/specs/Kinds.antt.
fn instruction(kind: u32, w: u64) -> Instr
    ensures { result ≡ wide_of kind w }
{
    if kinds::VECTOR <= kind {
        return vector(kind, w);
    }
    match kind {
        kinds::LUI => Instr::Lui(xd(w), imm_u(w)),
        kinds::AUIPC => Instr::Auipc(xd(w), imm_u(w)),
        kinds::JAL => Instr::Jal(xd(w), imm_j(w)),
        kinds::JALR => Instr::Jalr(xd(w), xs1(w), imm_i(w)),
        kinds::BRANCH => Instr::Branch(cond(w), xs1(w), xs2(w), imm_b(w)),
        kinds::LOAD => Instr::Load(load_op(w), xd(w), xs1(w), imm_i(w)),
        kinds::STORE => Instr::Store(store_op(w), xs1(w), xs2(w), imm_s(w)),
        kinds::FENCE => Instr::Fence(rd(w), rs1(w), imm_i(w)),
        kinds::CSR => csr(w),
        _ => lane_word(kind, w),
    }
}

pub fn decode(w: u32) -> Instr
    ensures { result ≡ decode_of w }
{
    instruction(decoder::kind(w), plain(w))
}

// A masked word, no compare, whose destination is v0.
pub fn over_mask(i: Instr) -> bool
    ensures { result ≡ over_mask i }
{
    match i {
        Instr::Vector(o, a) => a.masked & (is_v0(a.vd) & !is_compare(o)),
        Instr::VMerge(d, _, _) => is_v0(d),
        Instr::Vid(t, d) => t & is_v0(d),
        _ => false,
    }
}
