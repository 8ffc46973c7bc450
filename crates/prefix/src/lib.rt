// A word with the digits of the pending prefix on its registers, and whether the word takes the prefix.
#![tactic(auto)]

ghost use Rattle.std.specs.Prelude.{◌≡◌, Bool, ◌&&◌, ◌<◌, ltb};
ghost use Rattle.isa.specs.declared.Prefix.{Prefix};
ghost use Rattle.isa.specs.Fields.{fields_of};
ghost use Rattle.isa.specs.Scalar.{csr_word};
ghost use Rattle.isa.specs.Vector.{multiply_word, from_v, vector_word};
ghost use Rattle.isa.specs.Ventus.{splits_word};
ghost use Rattle.isa.specs.Decode.{decode_of};
ghost use Rattle.isa.specs.Prefix.{prefix};
ghost use Rattle.isa.specs.Wide.{widened, Judged};
ghost use Rattle.prefix.specs.Tells.{Tells, Known};

use isa::fields::wide;

pub const REGEXT: u32 = 1;

pub const REGEXTI: u32 = 2;

// The word with the numbers of its registers above it, the prefix's digits in them.
pub fn widen(kind: u32, bits: u32, w: u32) -> u64
    ensures { result ≡ widened (prefix kind bits) w }
{
    let n = bits as u64;
    if kind == REGEXT {
        return wide(w, n % 8, n / 8 % 8, n / 64 % 8, 0);
    }
    wide(w, n % 8, 0, n / 8 % 8, 64 + n / 64 % 64)
}

// A scalar register's digit is 0 or 1.
fn scalar(ext: bool, digit: u32) -> bool
    ensures { result ≡ (ext && ltb digit 2) }
{
    ext & (digit < 2)
}

// Where funct3 is below 100, the field of rs1 is a register.
fn csr(xd: bool, x1: bool, w: u32) -> bool
    ensures { (p : Prefix) (e b : Bool) → Known p e xd x1 b → Tells p result (csr_word (fields_of w)) }
{
    let funct3 = w / 4096 % 8;
    if funct3 < 0b100 { xd & x1 } else { xd }
}

// Of the VV forms vmv.x.s alone has a scalar register.
fn multiply_vv(ext: bool, xd: bool, w: u32) -> bool
    ensures { (p : Prefix) (a b : Bool) → Known p ext xd a b → Tells p result (multiply_word (from_v (fields_of w)) (fields_of w)) }
{
    let funct6 = w / 33554432 % 128 / 2;
    if funct6 == 0b010000 { xd } else { ext }
}

fn vector(ext: bool, xd: bool, x1: bool, w: u32) -> bool
    ensures { (p : Prefix) (b : Bool) → Known p ext xd x1 b → Tells p result (vector_word (fields_of w)) }
{
    let funct3 = w / 4096 % 8;
    match funct3 {
        0b000 => ext,
        0b011 => true,
        0b100 => x1,
        0b010 => multiply_vv(ext, xd, w),
        0b110 => x1,
        _ => false,
    }
}

// SETRPC, and no VBRANCH or JOIN.
fn splits(xd: bool, x1: bool, w: u32) -> bool
    ensures { (p : Prefix) (e b : Bool) → Known p e xd x1 b → Tells p result (splits_word (fields_of w)) }
{
    let funct3 = w / 4096 % 8;
    match funct3 {
        0b011 => xd & x1,
        _ => false,
    }
}

// By opcode alone where it can be, so that it comes before the decoder (docs/SPEED.md). Of a word that isn't in the tables it may say anything.
fn judge(ext: bool, xd: bool, x1: bool, x2: bool, w: u32) -> bool
    ensures { (p : Prefix) → Known p ext xd x1 x2 → Tells p result (decode_of w) }
{
    let opcode = w % 128;
    match opcode {
        0b0110111 => xd,
        0b0010111 => xd,
        0b1101111 => xd,
        0b1100111 => xd & x1,
        0b1100011 => x1 & x2,
        0b0000011 => xd & x1,
        0b0100011 => x1 & x2,
        0b0010011 => xd & x1,
        0b0110011 => xd & (x1 & x2),
        0b0001111 => ext,
        0b1110011 => csr(xd, x1, w),
        0b1010111 => vector(ext, xd, x1, w),
        0b1011011 => splits(xd, x1, w),
        0b0001011 => false,
        0b1111011 => ext,
        0b0101011 => ext,
        _ => false,
    }
}

pub fn takes(kind: u32, bits: u32, word: u32) -> bool
    requires { 0 < kind }
    ensures { Judged result (prefix kind bits) word }
{
    let ext = kind == REGEXT;
    judge(
        ext,
        scalar(ext, bits % 8),
        scalar(ext, bits / 8 % 8),
        scalar(ext, bits / 64 % 8),
        word,
    )
}
