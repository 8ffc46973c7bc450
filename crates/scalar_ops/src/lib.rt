// The rows of scalar operations: on two registers, or on a register and an immediate.
#![tactic(auto)]

ghost use Rattle.std.specs.Prelude.{◌≡◌, List, ◌++◌, ℕ, length};
ghost use Rattle.answer.specs.Answer.{number_of};
ghost use Rattle.isa.specs.Fields.{fields_of};
ghost use Rattle.isa.specs.Table.{word_at};
ghost use Rattle.isa.specs.Kinds.{of_sums, of_products, of_immediates, instr_of};
ghost use Rattle.isa.specs.Wide.{wide_of};
ghost use Rattle.layout.specs.Words.{moving_count, flat_count};
ghost use Rattle.memory.specs.Memories.{Contents};
ghost use Rattle.definition.specs.Step.{exec_of};
ghost use Rattle.handlers.specs.Handles.{lists, Handles};

use answer::Refusal;
use handlers::{amount, first, gives, immediate, second};
use isa::kinds;
use layout::{MOVING, SCALARS};

// An operation on a scalar register and an immediate, or no row at all.
fn op_imm(h: &mut [u32; MOVING], x: &mut [u32; SCALARS], kind: u32, w: u64) -> Result<(), Refusal>
    requires { (length h.old ≡ moving_count) × (instr_of kind w ≡ word_at (fields_of w) kind of_immediates) }
    ensures { (g s v : List ℕ) (d : Contents) → length s ≡ flat_count → Handles (exec_of (wide_of kind w)) (number_of result) (lists g h.old x.old s v d) (lists g h.new x.new s v d) }
{
    match kind {
        kinds::ADDI => Ok(gives(word::add(first(x, w), immediate(w)), h, x, w)),
        kinds::SLLI => Ok(gives(word::sll(first(x, w), amount(w)), h, x, w)),
        kinds::SRLI => Ok(gives(word::srl(first(x, w), amount(w)), h, x, w)),
        kinds::SRAI => Ok(gives(word::sra(first(x, w), amount(w)), h, x, w)),
        kinds::SLTI => Ok(gives(word::slt(first(x, w), immediate(w)), h, x, w)),
        kinds::SLTIU => Ok(gives(word::sltu(first(x, w), immediate(w)), h, x, w)),
        kinds::ANDI => Ok(gives(first(x, w) & immediate(w), h, x, w)),
        kinds::ORI => Ok(gives(first(x, w) | immediate(w), h, x, w)),
        kinds::XORI => Ok(gives(first(x, w) ^ immediate(w), h, x, w)),
        _ => Err(Refusal::Unknown),
    }
}

// A product, a quotient or a remainder of two scalar registers.
fn op_mul(h: &mut [u32; MOVING], x: &mut [u32; SCALARS], kind: u32, w: u64) -> Result<(), Refusal>
    requires { (length h.old ≡ moving_count) × (instr_of kind w ≡ word_at (fields_of w) kind (of_products ++ of_immediates)) }
    ensures { (g s v : List ℕ) (d : Contents) → length s ≡ flat_count → Handles (exec_of (wide_of kind w)) (number_of result) (lists g h.old x.old s v d) (lists g h.new x.new s v d) }
{
    match kind {
        kinds::MUL => Ok(gives(word::mul(first(x, w), second(x, w)), h, x, w)),
        kinds::MULH => Ok(gives(word::mulh(first(x, w), second(x, w)), h, x, w)),
        kinds::MULHSU => Ok(gives(word::mulhsu(first(x, w), second(x, w)), h, x, w)),
        kinds::MULHU => Ok(gives(word::mulhu(first(x, w), second(x, w)), h, x, w)),
        kinds::DIV => Ok(gives(word::div(first(x, w), second(x, w)), h, x, w)),
        kinds::DIVU => Ok(gives(word::divu(first(x, w), second(x, w)), h, x, w)),
        kinds::REM => Ok(gives(word::rem(first(x, w), second(x, w)), h, x, w)),
        kinds::REMU => Ok(gives(word::remu(first(x, w), second(x, w)), h, x, w)),
        _ => op_imm(h, x, kind, w),
    }
}

// Another operation on two scalar registers.
pub fn op_reg(
    h: &mut [u32; MOVING],
    x: &mut [u32; SCALARS],
    kind: u32,
    w: u64,
) -> Result<(), Refusal>
    requires { (length h.old ≡ moving_count) × (instr_of kind w ≡ word_at (fields_of w) kind (of_sums ++ of_products ++ of_immediates)) }
    ensures { (g s v : List ℕ) (d : Contents) → length s ≡ flat_count → Handles (exec_of (wide_of kind w)) (number_of result) (lists g h.old x.old s v d) (lists g h.new x.new s v d) }
{
    match kind {
        kinds::ADD => Ok(gives(word::add(first(x, w), second(x, w)), h, x, w)),
        kinds::SUB => Ok(gives(word::sub(first(x, w), second(x, w)), h, x, w)),
        kinds::SLL => Ok(gives(word::sll(first(x, w), second(x, w)), h, x, w)),
        kinds::SRL => Ok(gives(word::srl(first(x, w), second(x, w)), h, x, w)),
        kinds::SRA => Ok(gives(word::sra(first(x, w), second(x, w)), h, x, w)),
        kinds::SLT => Ok(gives(word::slt(first(x, w), second(x, w)), h, x, w)),
        kinds::SLTU => Ok(gives(word::sltu(first(x, w), second(x, w)), h, x, w)),
        kinds::AND => Ok(gives(first(x, w) & second(x, w), h, x, w)),
        kinds::OR => Ok(gives(first(x, w) | second(x, w), h, x, w)),
        kinds::XOR => Ok(gives(first(x, w) ^ second(x, w), h, x, w)),
        _ => op_mul(h, x, kind, w),
    }
}
