// The vector words' kinds, by funct3, then funct6; whether a word is masked, its handler reads from it. A form that a row lacks is an arm of
// its own: the compiler then makes one table of a form's arms and the rows' (docs/SPEED.md).
#![tactic(auto)]

ghost use Rattle.std.specs.Prelude.{◌≡◌, ℕ};
ghost use Rattle.isa.specs.declared.Instr.TheVariants.{Refused};
ghost use Rattle.isa.specs.Fields.{fields_of};
ghost use Rattle.isa.specs.Table.{seek, fixed as fixedTo};
ghost use Rattle.isa.specs.Vector.{vector_table, multiply_table, move_word, plain_word, multiply_word, from_v, from_x, from_i, vector_word};
ghost use Rattle.isa.specs.Kinds.{source_in, lane_op_word, instr_of};

use isa::kinds;

// The kind, where a fixed field has the value that it must have.
pub fn fixed(field: u32, value: u32, kind: u32) -> u32
    ensures { (w : ℕ) → instr_of result w ≡ fixedTo field value (instr_of kind w) }
{
    if field == value { kind } else { kinds::NONE }
}

// The table's row, whatever forms it has.
fn row(funct6: u32) -> u32
    ensures { (w : ℕ) → instr_of result w ≡ seek (λ f. lane_op_word f.op (fields_of w)) Refused funct6 vector_table }
{
    match funct6 {
        0b000000 => kinds::VADD,
        0b000010 => kinds::VSUB,
        0b000011 => kinds::VRSUB,
        0b000100 => kinds::VMINU,
        0b000101 => kinds::VMIN,
        0b000110 => kinds::VMAXU,
        0b000111 => kinds::VMAX,
        0b001001 => kinds::VAND,
        0b001010 => kinds::VOR,
        0b001011 => kinds::VXOR,
        0b100101 => kinds::VSLL,
        0b101000 => kinds::VSRL,
        0b101001 => kinds::VSRA,
        0b011000 => kinds::VSEQ,
        0b011001 => kinds::VSNE,
        0b011010 => kinds::VSLTU,
        0b011011 => kinds::VSLT,
        0b011100 => kinds::VSLEU,
        0b011101 => kinds::VSLE,
        0b011110 => kinds::VSGTU,
        0b011111 => kinds::VSGT,
        _ => kinds::NONE,
    }
}

// The M group's row.
fn multiply_row(funct6: u32) -> u32
    ensures { (w : ℕ) → instr_of result w ≡ seek (λ f. lane_op_word f.op (fields_of w)) Refused funct6 multiply_table }
{
    match funct6 {
        0b100100 => kinds::VMULHU,
        0b100101 => kinds::VMUL,
        0b100110 => kinds::VMULHSU,
        0b100111 => kinds::VMULH,
        0b100000 => kinds::VDIVU,
        0b100001 => kinds::VDIV,
        0b100010 => kinds::VREMU,
        0b100011 => kinds::VREM,
        _ => kinds::NONE,
    }
}

// vmv.v, whose vs2 is 0, or, masked, vmerge.
fn move_or_merge(w: u32) -> u32
    ensures { instr_of result w ≡ move_word (source_in (fields_of w)) (fields_of w) }
{
    let vm = w / 33554432 % 128 % 2;
    if vm == 0 {
        return kinds::VMERGE;
    }
    fixed(w / 1048576 % 32, 0, kinds::VMOVE)
}

// No VV form: 000011, 011110 and 011111.
fn plain_vv(w: u32) -> u32
    requires { (fields_of w).funct3 ≡ 0b000 }
    ensures { instr_of result w ≡ plain_word (from_v (fields_of w)) (fields_of w) }
{
    let funct6 = w / 33554432 % 128 / 2;
    match funct6 {
        0b010111 => move_or_merge(w),
        0b000011 => kinds::NONE,
        0b011110 => kinds::NONE,
        0b011111 => kinds::NONE,
        _ => row(funct6),
    }
}

// Every row of the table has the form VX.
fn plain_vx(w: u32) -> u32
    requires { (fields_of w).funct3 ≡ 0b100 }
    ensures { instr_of result w ≡ plain_word (from_x (fields_of w)) (fields_of w) }
{
    let funct6 = w / 33554432 % 128 / 2;
    match funct6 {
        0b010111 => move_or_merge(w),
        _ => row(funct6),
    }
}

// No VI form: 000010, 000100 to 000111, 011010 and 011011.
fn plain_vi(w: u32) -> u32
    requires { (fields_of w).funct3 ≡ 0b011 }
    ensures { instr_of result w ≡ plain_word (from_i (fields_of w)) (fields_of w) }
{
    let funct6 = w / 33554432 % 128 / 2;
    match funct6 {
        0b010111 => move_or_merge(w),
        0b000010 => kinds::NONE,
        0b000100 => kinds::NONE,
        0b000101 => kinds::NONE,
        0b000110 => kinds::NONE,
        0b000111 => kinds::NONE,
        0b011010 => kinds::NONE,
        0b011011 => kinds::NONE,
        _ => row(funct6),
    }
}

fn multiply_vv(w: u32) -> u32
    requires { (fields_of w).funct3 ≡ 0b010 }
    ensures { instr_of result w ≡ multiply_word (from_v (fields_of w)) (fields_of w) }
{
    let funct6 = w / 33554432 % 128 / 2;
    let vm = w / 33554432 % 128 % 2;
    match funct6 {
        0b010000 => fixed(vm, 1, fixed(w / 32768 % 32, 0, kinds::VMOVE_XS)),
        0b010100 => fixed(
            w / 1048576 % 32,
            0,
            fixed(w / 32768 % 32, 0b10001, kinds::VID),
        ),
        _ => multiply_row(funct6),
    }
}

fn multiply_vx(w: u32) -> u32
    requires { (fields_of w).funct3 ≡ 0b110 }
    ensures { instr_of result w ≡ multiply_word (from_x (fields_of w)) (fields_of w) }
{
    let funct6 = w / 33554432 % 128 / 2;
    let vm = w / 33554432 % 128 % 2;
    match funct6 {
        0b010000 => fixed(vm, 1, fixed(w / 1048576 % 32, 0, kinds::VMOVE_SX)),
        _ => multiply_row(funct6),
    }
}

// A caller that knows funct3 says so: no jump goes by it then.
pub fn vector(funct3: u32, w: u32) -> u32
    requires { (fields_of w).funct3 ≡ funct3 }
    ensures { instr_of result w ≡ vector_word (fields_of w) }
{
    match funct3 {
        0b000 => plain_vv(w),
        0b011 => plain_vi(w),
        0b100 => plain_vx(w),
        0b010 => multiply_vv(w),
        0b110 => multiply_vx(w),
        _ => kinds::NONE,
    }
}
