// A word's kind. Where two codes tell rows apart they are matched as one number, an arm a number: the compiler makes one table of that, and
// tests after it of an arm with a range (docs/SPEED.md).
#![tactic(auto)]

ghost use Rattle.std.specs.Prelude.{◌≡◌, false, [], ◌∷◌, ℕ, ◌+◌, ◌*◌, ◌%◌, ◌^◌, ◌<◌};
ghost use Rattle.answer.specs.Rows.{one_of};
ghost use Rattle.isa.specs.declared.Instr.{Instr};
ghost use Rattle.isa.specs.Fields.{fields_of, imm_i};
ghost use Rattle.isa.specs.Table.{word_at};
ghost use Rattle.isa.specs.Scalar.{jalr_word, load_word, store_word, shifts, op_word, fence_word};
ghost use Rattle.isa.specs.Ventus.{join_word, end_prg_word, barrier_word, stop_word, prefix_word, warp_word, private_word};
ghost use Rattle.isa.specs.Decode.{decode_of};
ghost use Rattle.isa.specs.Kinds.{instr_of};

use isa::kinds;

// Where a code's row with the word's funct3 stands: eight rows a code.
fn index(code: u32, w: u32) -> u32
    requires { code < 2 ^ 7 }
    ensures { result ≡ (fields_of w).funct3 + code * 8 }
{
    w / 4096 % 8 + code * 8
}

fn jalr(w: u32) -> u32
    ensures { instr_of result w ≡ jalr_word (fields_of w) }
{
    let funct3 = w / 4096 % 8;
    vector_decoder::fixed(funct3, 0b000, kinds::JALR)
}

fn load(w: u32) -> u32
    ensures { instr_of result w ≡ load_word (fields_of w) }
{
    let funct3 = w / 4096 % 8;
    match funct3 {
        0b000..=0b010 | 0b100..=0b101 => kinds::LOAD,
        _ => kinds::NONE,
    }
}

fn store(w: u32) -> u32
    ensures { instr_of result w ≡ store_word (fields_of w) }
{
    let funct3 = w / 4096 % 8;
    match funct3 {
        0b000..=0b010 => kinds::STORE,
        _ => kinds::NONE,
    }
}

// OP-IMM's shifts, by funct3 and funct7 together.
fn shift(w: u32) -> u32
    ensures { instr_of result w ≡ word_at (fields_of w) (fields_of w).funct3 shifts }
{
    let funct7 = w / 33554432 % 128;
    match index(funct7, w) {
        0b0000000_001 => kinds::SLLI,
        0b0000000_101 => kinds::SRLI,
        0b0100000_101 => kinds::SRAI,
        _ => kinds::NONE,
    }
}

// OP, by funct7 and funct3 together.
fn op(w: u32) -> u32
    ensures { instr_of result w ≡ op_word (fields_of w) }
{
    let funct7 = w / 33554432 % 128;
    match index(funct7, w) {
        0b0000000_000 => kinds::ADD,
        0b0000000_001 => kinds::SLL,
        0b0000000_010 => kinds::SLT,
        0b0000000_011 => kinds::SLTU,
        0b0000000_100 => kinds::XOR,
        0b0000000_101 => kinds::SRL,
        0b0000000_110 => kinds::OR,
        0b0000000_111 => kinds::AND,
        0b0000001_000 => kinds::MUL,
        0b0000001_001 => kinds::MULH,
        0b0000001_010 => kinds::MULHSU,
        0b0000001_011 => kinds::MULHU,
        0b0000001_100 => kinds::DIV,
        0b0000001_101 => kinds::DIVU,
        0b0000001_110 => kinds::REM,
        0b0000001_111 => kinds::REMU,
        0b0100000_000 => kinds::SUB,
        0b0100000_101 => kinds::SRA,
        _ => kinds::NONE,
    }
}

fn fence(w: u32) -> u32
    ensures { instr_of result w ≡ fence_word (fields_of w) }
{
    let funct3 = w / 4096 % 8;
    vector_decoder::fixed(funct3, 0b000, kinds::FENCE)
}

fn join(w: u32) -> u32
    ensures { instr_of result w ≡ join_word (fields_of w) }
{
    let rest = w / 33554432 % 128 + w / 1048576 % 32 + w / 32768 % 32 + w / 128 % 32;
    vector_decoder::fixed(rest, 0, kinds::JOIN)
}

fn end_prg(w: u32) -> u32
    ensures { instr_of result w ≡ end_prg_word (fields_of w) }
{
    let rest = w / 1048576 % 32 + w / 32768 % 32 + w / 128 % 32;
    vector_decoder::fixed(rest, 0, kinds::ENDPRG)
}

fn barrier(w: u32) -> u32
    ensures { instr_of result w ≡ barrier_word (fields_of w) }
{
    let rest = w / 1048576 % 32 + w / 128 % 32;
    vector_decoder::fixed(rest, 0, kinds::BARRIER)
}

fn stop(w: u32) -> u32
    ensures { instr_of result w ≡ stop_word (fields_of w) }
{
    let funct7 = w / 33554432 % 128;
    match funct7 {
        0b0000000 => end_prg(w),
        0b0000010 => barrier(w),
        _ => kinds::NONE,
    }
}

// REGEXT or REGEXTI.
fn prefix(w: u32, kind: u32) -> u32
    ensures { (make : ℕ → Instr) → instr_of kind w ≡ make (imm_i (fields_of w)) → instr_of result w ≡ prefix_word make (fields_of w) }
{
    let rest = w / 32768 % 32 + w / 128 % 32;
    vector_decoder::fixed(rest, 0, kind)
}

fn warp_word(w: u32) -> u32
    ensures { instr_of result w ≡ warp_word (fields_of w) }
{
    let funct3 = w / 4096 % 8;
    match funct3 {
        0b100 => stop(w),
        0b010 => prefix(w, kinds::REGEXT),
        0b011 => prefix(w, kinds::REGEXTI),
        _ => kinds::NONE,
    }
}

// Bit 31 is zero.
fn private(w: u32) -> u32
    ensures { instr_of result w ≡ private_word (fields_of w) }
{
    let funct3 = w / 4096 % 8;
    if w / 33554432 % 128 / 64 != 0 {
        return kinds::NONE;
    }
    match funct3 {
        0b000..=0b010 | 0b100..=0b101 => kinds::PLOAD,
        0b011 | 0b110..=0b111 => kinds::PSTORE,
        _ => kinds::NONE,
    }
}

// The opcodes whose words are one kind or few.
fn by_opcode(w: u32) -> u32
    requires { one_of (0b0110011 ∷ 0b0010011 ∷ 0b1100011 ∷ 0b1110011 ∷ 0b1010111 ∷ 0b1011011 ∷ 0b1111011 ∷ []) (w % 2 ^ 7) ≡ false }
    ensures { instr_of result w ≡ decode_of w }
{
    let opcode = w % 128;
    match opcode {
        0b0110111 => kinds::LUI,
        0b0010111 => kinds::AUIPC,
        0b1101111 => kinds::JAL,
        0b1100111 => jalr(w),
        0b0000011 => load(w),
        0b0100011 => store(w),
        0b0001111 => fence(w),
        0b0001011 => warp_word(w),
        0b0101011 => private(w),
        _ => kinds::NONE,
    }
}

// Vector words, words of splits, lane loads and stores: by opcode and funct3 together, eight rows an opcode.
fn lane_row(w: u32) -> u32
    requires { one_of (0b0110011 ∷ 0b0010011 ∷ 0b1100011 ∷ 0b1110011 ∷ []) (w % 2 ^ 7) ≡ false }
    ensures { instr_of result w ≡ decode_of w }
{
    let opcode = w % 128;
    match index(opcode, w) {
        0b1010111_000 => vector_decoder::vector(0b000, w),
        0b1010111_001 => vector_decoder::vector(0b001, w),
        0b1010111_010 => vector_decoder::vector(0b010, w),
        0b1010111_011 => vector_decoder::vector(0b011, w),
        0b1010111_100 => vector_decoder::vector(0b100, w),
        0b1010111_101 => vector_decoder::vector(0b101, w),
        0b1010111_110 => vector_decoder::vector(0b110, w),
        0b1010111_111 => vector_decoder::vector(0b111, w),
        0b1011011_000 => kinds::VBRANCH,
        0b1011011_001 => kinds::VBRANCH,
        0b1011011_010 => join(w),
        0b1011011_011 => kinds::SETRPC,
        0b1011011_100 => kinds::VBRANCH,
        0b1011011_101 => kinds::VBRANCH,
        0b1011011_110 => kinds::VBRANCH,
        0b1011011_111 => kinds::VBRANCH,
        0b1111011_000 => kinds::VLOAD,
        0b1111011_001 => kinds::VLOAD,
        0b1111011_010 => kinds::VLOAD,
        0b1111011_011 => kinds::VSTORE,
        0b1111011_100 => kinds::VLOAD,
        0b1111011_101 => kinds::VLOAD,
        0b1111011_110 => kinds::VSTORE,
        0b1111011_111 => kinds::VSTORE,
        _ => by_opcode(w),
    }
}

// OP-IMM, branches and CSR words: by opcode and funct3 together, eight rows an opcode.
fn scalar_row(w: u32) -> u32
    requires { w % 2 ^ 7 ≡ 0b0110011 → ⊥ }
    ensures { instr_of result w ≡ decode_of w }
{
    let opcode = w % 128;
    match index(opcode, w) {
        0b0010011_000 => kinds::ADDI,
        0b0010011_001 => shift(w),
        0b0010011_010 => kinds::SLTI,
        0b0010011_011 => kinds::SLTIU,
        0b0010011_100 => kinds::XORI,
        0b0010011_101 => shift(w),
        0b0010011_110 => kinds::ORI,
        0b0010011_111 => kinds::ANDI,
        0b1100011_000 => kinds::BRANCH,
        0b1100011_001 => kinds::BRANCH,
        0b1100011_010 => kinds::NONE,
        0b1100011_011 => kinds::NONE,
        0b1100011_100 => kinds::BRANCH,
        0b1100011_101 => kinds::BRANCH,
        0b1100011_110 => kinds::BRANCH,
        0b1100011_111 => kinds::BRANCH,
        0b1110011_000 => kinds::NONE,
        0b1110011_001 => kinds::CSR,
        0b1110011_010 => kinds::CSR,
        0b1110011_011 => kinds::CSR,
        0b1110011_100 => kinds::NONE,
        0b1110011_101 => kinds::CSR,
        0b1110011_110 => kinds::CSR,
        0b1110011_111 => kinds::CSR,
        _ => lane_row(w),
    }
}

// The commonest opcode is told by a test of its own, which the processor predicts, and has a table of its own.
// In an archive this should have one caller, the step: the compiler then threads its constants straight to the handlers (docs/SPEED.md).
pub fn kind(w: u32) -> u32
    ensures { instr_of result w ≡ decode_of w }
{
    let opcode = w % 128;
    if opcode == 0b0110011 {
        return op(w);
    }
    scalar_row(w)
}
