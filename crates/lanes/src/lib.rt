// The vector file, lane by lane.
#![tactic(auto)]

ghost use Rattle.std.specs.Prelude.{◌≡◌, Bool, ℕ, cond, ◌^◌, ◌<◌, ◌≤◌, length};
ghost use Rattle.lanes.specs.Mask.{bit};
ghost use Rattle.lanes.specs.Lanes.{lanes_max, file_words, slot_of, lane_of, operand_of, write_lanes, mask_of, all_lanes, ok_if, wants_of, value_of, uniform_of};
ghost use Rattle.lanes.specs.declared.Lane.{Lane};
ghost use Rattle.lanes.specs.Rows.{at, RowOf, Gives, Picks, map_lane, holds_lane, mask_step};

use isa::VReg;
use std::array;
use word::{Cond, Op};

pub const LANES: usize = 32;

// A lane's number. With VReg a type of its own, the two can't change places.
#[derive(Clone, Copy)]
pub struct Lane(pub usize);

// A vector word's last operand: a register's lane, or one word for all lanes.
#[derive(Clone, Copy)]
pub enum Operand {
    Reg(VReg),
    Word(u32),
}

// The one place where register and lane become an index of the file.
pub fn slot(r: VReg, l: Lane) -> usize
    requires { l.0 < lanes_max }
    ensures { result ≡ slot_of r l }
{
    usize::from(r.0) * LANES + l.0
}

pub fn active(mask: u32, l: Lane) -> bool
    requires { l.0 < lanes_max }
    ensures { result ≡ bit mask l }
{
    (mask >> l.0) % 2 == 1
}

pub fn choose(t: bool, x: u32, y: u32) -> u32
    ensures { result ≡ cond t x y }
{
    if t { x } else { y }
}

// Register r's lanes as a row: by value and over all lanes, it is compiled to plain copies.
pub fn row(v: &[u32], r: VReg) -> [u32; LANES]
    requires { length v.now ≡ file_words }
    ensures { RowOf lanes_max (lane_of v.now r) result }
{
    array::from_fn(|l| v[slot(r, Lane(l))])
}

// The operand's lanes as a row.
pub fn operand_row(v: &[u32], b: Operand) -> [u32; LANES]
    requires { length v.now ≡ file_words }
    ensures { RowOf lanes_max (operand_of v.now b) result }
{
    match b {
        Operand::Reg(r) => row(v, r),
        Operand::Word(x) => [x; LANES],
    }
}

// What f gives into register d, in each lane of the mask below n: both words are at hand and one is chosen without a branch, so it is compiled to vector code.
pub fn write<F: Fn(usize) -> u32>(v: &mut [u32], mask: u32, d: VReg, n: usize, f: F)
    requires { (length v.old ≡ file_words) × (n ≤ lanes_max) × ((l : ℕ) → l < n → F.pre f l) }
    ensures { (g : Lane → ℕ) → Gives (F.post f) n g → v.new ≡ write_lanes n (bit mask) d g v.old }
{
    for l in 0..n {
        let i = slot(d, Lane(l));
        v[i] = choose(active(mask, Lane(l)), f(l), v[i]);
    }
}

// The same with a branch, for a division, which has no vector code: f is called in the lanes of the mask only.
pub fn write_on<F: Fn(usize) -> u32>(v: &mut [u32], mask: u32, d: VReg, n: usize, f: F)
    requires { (length v.old ≡ file_words) × (n ≤ lanes_max) × ((l : ℕ) → l < n → F.pre f l) }
    ensures { (g : Lane → ℕ) → Gives (F.post f) n g → v.new ≡ write_lanes n (bit mask) d g v.old }
{
    for l in 0..n {
        if active(mask, Lane(l)) {
            v[slot(d, Lane(l))] = f(l);
        }
    }
}

// An operation on two rows into register d, in each lane of the mask below n.
pub fn map(op: Op, v: &mut [u32], mask: u32, d: VReg, n: usize, x: &[u32; LANES], y: &[u32; LANES])
    requires { (length v.old ≡ file_words) × (n ≤ lanes_max) }
    ensures { v.new ≡ write_lanes n (bit mask) d (map_lane op x.now y.now) v.old }
{
    write(v, mask, d, n, |l| word::apply(op, x[l], y[l]));
}

// The same for a division.
pub fn map_on(
    op: Op,
    v: &mut [u32],
    mask: u32,
    d: VReg,
    n: usize,
    x: &[u32; LANES],
    y: &[u32; LANES],
)
    requires { (length v.old ≡ file_words) × (n ≤ lanes_max) }
    ensures { v.new ≡ write_lanes n (bit mask) d (map_lane op x.now y.now) v.old }
{
    write_on(v, mask, d, n, |l| word::apply(op, x[l], y[l]));
}

// The row into register d, in each lane of the mask below n.
pub fn put(v: &mut [u32], mask: u32, d: VReg, n: usize, a: &[u32; LANES])
    requires { (length v.old ≡ file_words) × (n ≤ lanes_max) }
    ensures { v.new ≡ write_lanes n (bit mask) d (at a.now) v.old }
{
    write(v, mask, d, n, |l| a[l]);
}

// vmv.v and vmv.s.x: the operand into register d, in each lane of the mask.
pub fn move_lanes(v: &mut [u32], mask: u32, n: usize, d: VReg, b: Operand)
    requires { (length v.old ≡ file_words) × (n ≤ lanes_max) × (mask < 2 ^ n) }
    ensures { v.new ≡ write_lanes n (bit mask) d (operand_of v.old b) v.old }
{
    let y = operand_row(v, b);
    put(v, mask, d, LANES, &y);
}

// vid.v: the lane's number into register d, in each lane of the mask.
pub fn id_lanes(v: &mut [u32], mask: u32, n: usize, d: VReg)
    requires { (length v.old ≡ file_words) × (n ≤ lanes_max) }
    ensures { v.new ≡ write_lanes n (bit mask) d (λ l. l.0) v.old }
{
    write(v, mask, d, n, |l| l as u32);
}

// A mask of lanes below l, with lane l where t holds.
fn with(m: u32, l: Lane, t: bool) -> u32
    requires { (l.0 < lanes_max) × (m < 2 ^ l.0) }
    ensures { result ≡ mask_step t l m }
{
    m | choose(t, 1 << l.0, 0)
}

// The lanes below n of which f holds, as a mask: made without a branch.
pub fn lanes_where<F: Fn(usize) -> bool>(n: usize, f: F) -> u32
    requires { (n ≤ lanes_max) × ((l : ℕ) → l < n → F.pre f l) }
    ensures { (p : Lane → Bool) → Picks (F.post f) n p → result ≡ mask_of n p }
{
    let mut out = 0;
    for l in 0..n {
        out = with(out, Lane(l), f(l));
    }
    out
}

// f holds in every lane of the mask: it is asked of each lane below n, so that there is no branch.
pub fn all_active<F: Fn(usize) -> bool>(mask: u32, n: usize, f: F) -> bool
    requires { (n ≤ lanes_max) × (mask < 2 ^ n) × ((l : ℕ) → l < n → F.pre f l) }
    ensures { (p : Lane → Bool) → Picks (F.post f) n p → result ≡ all_lanes n (λ l. ok_if (bit mask l) (p l)) }
{
    lanes_where(n, f) & mask == mask
}

// The lanes below n in which the compare holds.
fn hold(c: Cond, n: usize, a: &[u32; LANES], b: &[u32; LANES]) -> u32
    requires { n ≤ lanes_max }
    ensures { result ≡ mask_of n (holds_lane c a.now b.now) }
{
    lanes_where(n, |l| word::holds(c, a[l], b[l]))
}

// Each arm calls the loop with its compare as a constant, so that the compiler makes a vector loop of each.
// Closures would be no plainer: one an arm, they are the match of word::holds again.
fn hold_op(c: Cond, n: usize, a: &[u32; LANES], b: &[u32; LANES]) -> u32
    requires { n ≤ lanes_max }
    ensures { result ≡ mask_of n (holds_lane c a.now b.now) }
{
    match c {
        Cond::Eq => hold(Cond::Eq, n, a, b),
        Cond::Ne => hold(Cond::Ne, n, a, b),
        Cond::Lt => hold(Cond::Lt, n, a, b),
        Cond::Ge => hold(Cond::Ge, n, a, b),
        Cond::Ltu => hold(Cond::Ltu, n, a, b),
        Cond::Geu => hold(Cond::Geu, n, a, b),
    }
}

// VBRANCH's else mask: the lanes of the mask in which the compare holds.
pub fn else_mask(v: &[u32], mask: u32, n: usize, c: Cond, a: VReg, b: VReg) -> u32
    requires { (length v.now ≡ file_words) × (n ≤ lanes_max) × (mask < 2 ^ n) }
    ensures { result ≡ mask_of n (wants_of v.now mask c a b) }
{
    let x = row(v, a);
    let y = row(v, b);
    hold_op(c, n, &x, &y) & mask
}

// The word of the last lane of the mask.
fn value(mask: u32, n: usize, a: &[u32; LANES]) -> u32
    requires { n ≤ lanes_max }
    ensures { result ≡ value_of n (bit mask) (at a.now) }
{
    let mut x = 0;
    for l in 0..n {
        x = choose(active(mask, Lane(l)), a[l], x);
    }
    x
}

// What the lanes of a mask hold: whether it is one word, and that of the last of them. No Option, since uniform's clause gives the word also where they differ.
#[derive(Clone, Copy)]
pub struct Shared {
    pub uniform: bool,
    pub value: u32,
}

// vmv.x.s: whether all lanes of the mask hold one word in register a, and that word.
pub fn uniform(v: &[u32], mask: u32, n: usize, a: VReg) -> Shared
    requires { (length v.now ≡ file_words) × (n ≤ lanes_max) × (mask < 2 ^ n) }
    ensures { (result.uniform ≡ uniform_of n (bit mask) (lane_of v.now a)) × (result.value ≡ value_of n (bit mask) (lane_of v.now a)) }
{
    let x = row(v, a);
    let value = value(mask, n, &x);
    Shared {
        uniform: all_active(mask, n, |l| x[l] == value),
        value,
    }
}
