// An operation in every lane: a match on the operation, each arm the loop of crate lanes.
#![tactic(auto)]

ghost use Rattle.std.specs.Prelude.{◌≡◌, ◌^◌, ◌<◌, ◌≤◌, length};
ghost use Rattle.lanes.specs.Mask.{bit};
ghost use Rattle.isa.specs.Bounds.{vector_registers};
ghost use Rattle.lanes.specs.Lanes.{lanes_max, file_words, op_lane, write_lanes};
ghost use Rattle.lanes.specs.Rows.{OperandOk, map_lane};

use isa::VReg;
use lanes::{LANES, Operand, map, map_on, operand_row, row};
use word::Op;

// Each arm calls the loop with its operation as a constant, so that the compiler makes a vector loop of each.
// Closures would be no plainer: one an arm, they are the match of word::apply again.
fn map_op(op: Op, v: &mut [u32], mask: u32, d: VReg, n: usize, x: &[u32; LANES], y: &[u32; LANES])
    requires { (length v.old ≡ file_words) × (n ≤ lanes_max) }
    ensures { v.new ≡ write_lanes n (bit mask) d (map_lane op x.now y.now) v.old }
{
    match op {
        Op::Add => map(Op::Add, v, mask, d, n, x, y),
        Op::Sub => map(Op::Sub, v, mask, d, n, x, y),
        Op::Rsub => map(Op::Rsub, v, mask, d, n, x, y),
        Op::Sll => map(Op::Sll, v, mask, d, n, x, y),
        Op::Srl => map(Op::Srl, v, mask, d, n, x, y),
        Op::Sra => map(Op::Sra, v, mask, d, n, x, y),
        Op::Slt => map(Op::Slt, v, mask, d, n, x, y),
        Op::Sltu => map(Op::Sltu, v, mask, d, n, x, y),
        Op::And => map(Op::And, v, mask, d, n, x, y),
        Op::Or => map(Op::Or, v, mask, d, n, x, y),
        Op::Xor => map(Op::Xor, v, mask, d, n, x, y),
        Op::Mul => map(Op::Mul, v, mask, d, n, x, y),
        Op::Mulh => map(Op::Mulh, v, mask, d, n, x, y),
        Op::Mulhsu => map(Op::Mulhsu, v, mask, d, n, x, y),
        Op::Mulhu => map(Op::Mulhu, v, mask, d, n, x, y),
        Op::Div => map_on(Op::Div, v, mask, d, n, x, y),
        Op::Divu => map_on(Op::Divu, v, mask, d, n, x, y),
        Op::Rem => map_on(Op::Rem, v, mask, d, n, x, y),
        Op::Remu => map_on(Op::Remu, v, mask, d, n, x, y),
        Op::Min => map(Op::Min, v, mask, d, n, x, y),
        Op::Minu => map(Op::Minu, v, mask, d, n, x, y),
        Op::Max => map(Op::Max, v, mask, d, n, x, y),
        Op::Maxu => map(Op::Maxu, v, mask, d, n, x, y),
        Op::Seq => map(Op::Seq, v, mask, d, n, x, y),
        Op::Sne => map(Op::Sne, v, mask, d, n, x, y),
        Op::Sle => map(Op::Sle, v, mask, d, n, x, y),
        Op::Sleu => map(Op::Sleu, v, mask, d, n, x, y),
        Op::Sgt => map(Op::Sgt, v, mask, d, n, x, y),
        Op::Sgtu => map(Op::Sgtu, v, mask, d, n, x, y),
    }
}

// The operation into register d, in each lane of the mask. A constant count is faster, and no lane from n on is in the mask.
pub fn op_lanes(v: &mut [u32], mask: u32, n: usize, op: Op, d: VReg, a: VReg, b: Operand)
    requires { (length v.old ≡ file_words) × (d.0 < vector_registers) × (a.0 < vector_registers) × OperandOk b × (n ≤ lanes_max) × (mask < 2 ^ n) }
    ensures { v.new ≡ write_lanes n (bit mask) d (op_lane op v.old a b) v.old }
{
    let x = row(v, a);
    let y = operand_row(v, b);
    map_op(op, v, mask, d, LANES, &x, &y);
}
