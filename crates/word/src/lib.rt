// The 32-bit word operations that scalar and lane instructions share.
#![tactic(auto)]

ghost use Rattle.std.specs.Prelude.{◌≡◌, ◌^◌, ◌<◌, ◌≤◌, nat_lt};
ghost use Rattle.std.specs.Int.Signed.{shr_z};
ghost use Rattle.word.specs.Word.{as_word, less_of, flag_of, add_of, sub_of, sll_of, srl_of, sra_of, mul_of, mulh_of, mulhsu_of, mulhu_of, div_of, divu_of, rem_of, remu_of, apply_of, holds_of, extend_of};

// What an instruction does with two words. Slt and Sltu are a lane compare too; the names from Seq on are lane compares.
#[derive(Clone, Copy)]
pub enum Op {
    Add,
    Sub,
    Rsub,
    Sll,
    Srl,
    Sra,
    Slt,
    Sltu,
    And,
    Or,
    Xor,
    Mul,
    Mulh,
    Mulhsu,
    Mulhu,
    Div,
    Divu,
    Rem,
    Remu,
    Min,
    Minu,
    Max,
    Maxu,
    Seq,
    Sne,
    Sle,
    Sleu,
    Sgt,
    Sgtu,
}

// The six conditions of a branch, scalar or by lanes.
#[derive(Clone, Copy)]
pub enum Cond {
    Eq,
    Ne,
    Lt,
    Ge,
    Ltu,
    Geu,
}

pub fn add(a: u32, b: u32) -> u32
    ensures { result ≡ add_of a b }
{
    a.wrapping_add(b)
}

pub fn sub(a: u32, b: u32) -> u32
    ensures { result ≡ sub_of a b }
{
    a.wrapping_sub(b)
}

pub fn sll(a: u32, b: u32) -> u32
    ensures { result ≡ sll_of a b }
{
    a.wrapping_shl(b)
}

pub fn srl(a: u32, b: u32) -> u32
    ensures { result ≡ srl_of a b }
{
    a.wrapping_shr(b)
}

pub fn sra(a: u32, b: u32) -> u32
    ensures { result ≡ sra_of a b }
{
    a.cast_signed().wrapping_shr(b).cast_unsigned()
}

// Whether a is below b as signed values.
fn less(a: u32, b: u32) -> bool
    ensures { result ≡ less_of a b }
{
    a.cast_signed() < b.cast_signed()
}

pub fn slt(a: u32, b: u32) -> u32
    ensures { result ≡ flag_of (less_of a b) }
{
    u32::from(less(a, b))
}

pub fn sltu(a: u32, b: u32) -> u32
    ensures { result ≡ flag_of (nat_lt a b) }
{
    u32::from(a < b)
}

pub fn mul(a: u32, b: u32) -> u32
    ensures { result ≡ mul_of a b }
{
    a.wrapping_mul(b)
}

pub fn mulhu(a: u32, b: u32) -> u32
    ensures { result ≡ mulhu_of a b }
{
    ((a as u64) * (b as u64) / 0x1_0000_0000) as u32
}

// The upper word of a signed product.
fn upper(p: i64) -> u32
    ensures { result ≡ as_word (shr_z p (2 ^ 32)) }
{
    ((p >> 32) as i32).cast_unsigned()
}

pub fn mulh(a: u32, b: u32) -> u32
    ensures { result ≡ mulh_of a b }
{
    upper(a.cast_signed() as i64 * b.cast_signed() as i64)
}

pub fn mulhsu(a: u32, b: u32) -> u32
    ensures { result ≡ mulhsu_of a b }
{
    upper(a.cast_signed() as i64 * b as i64)
}

pub fn divu(a: u32, b: u32) -> u32
    ensures { result ≡ divu_of a b }
{
    a.checked_div(b).unwrap_or(u32::MAX)
}

pub fn remu(a: u32, b: u32) -> u32
    ensures { result ≡ remu_of a b }
{
    a.checked_rem(b).unwrap_or(a)
}

pub fn div(a: u32, b: u32) -> u32
    ensures { result ≡ div_of a b }
{
    if b == 0 {
        return u32::MAX;
    }
    a.cast_signed()
        .wrapping_div(b.cast_signed())
        .cast_unsigned()
}

pub fn rem(a: u32, b: u32) -> u32
    ensures { result ≡ rem_of a b }
{
    if b == 0 {
        return a;
    }
    a.cast_signed()
        .wrapping_rem(b.cast_signed())
        .cast_unsigned()
}

// An operation by its variant, for the loops over lanes; a scalar word calls the operation's own function.
pub fn apply(op: Op, a: u32, b: u32) -> u32
    ensures { result ≡ apply_of op a b }
{
    match op {
        Op::Add => add(a, b),
        Op::Sub => sub(a, b),
        Op::Rsub => sub(b, a),
        Op::Sll => sll(a, b),
        Op::Srl => srl(a, b),
        Op::Sra => sra(a, b),
        Op::Slt => slt(a, b),
        Op::Sltu => sltu(a, b),
        Op::And => a & b,
        Op::Or => a | b,
        Op::Xor => a ^ b,
        Op::Mul => mul(a, b),
        Op::Mulh => mulh(a, b),
        Op::Mulhsu => mulhsu(a, b),
        Op::Mulhu => mulhu(a, b),
        Op::Div => div(a, b),
        Op::Divu => divu(a, b),
        Op::Rem => rem(a, b),
        Op::Remu => remu(a, b),
        Op::Min => if less(a, b) { a } else { b },
        Op::Minu => a.min(b),
        Op::Max => if less(a, b) { b } else { a },
        Op::Maxu => a.max(b),
        Op::Seq => u32::from(a == b),
        Op::Sne => u32::from(a != b),
        Op::Sle => u32::from(!less(b, a)),
        Op::Sleu => u32::from(a <= b),
        Op::Sgt => slt(b, a),
        Op::Sgtu => sltu(b, a),
    }
}

pub fn holds(c: Cond, a: u32, b: u32) -> bool
    ensures { result ≡ holds_of c a b }
{
    match c {
        Cond::Eq => a == b,
        Cond::Ne => a != b,
        Cond::Lt => less(a, b),
        Cond::Ge => !less(a, b),
        Cond::Ltu => a < b,
        Cond::Geu => b <= a,
    }
}

// The word of an n-bit field whose highest bit is its sign.
pub fn extend(n: u32, x: u32) -> u32
    requires { (1 ≤ n) × (n ≤ 31) × (x < 2 ^ n) }
    ensures { result ≡ extend_of n x }
{
    let half = 1u32 << (n - 1);
    if x < half {
        x
    } else {
        x.wrapping_sub(2 * half)
    }
}
