// What masked words do with v0: the lanes that they write, and vmerge.
#![tactic(auto)]

ghost use Rattle.std.specs.Prelude.{◌≡◌, true, ◌^◌, ◌<◌, ◌≤◌, length};
ghost use Rattle.lanes.specs.Mask.{bit};
ghost use Rattle.lanes.specs.Lanes.{lanes_max, file_words, written_lanes, merge_lane, write_lanes, mask_of};

use isa::VReg;
use lanes::{LANES, Operand, choose, lanes_where, operand_row, put, row};
use std::array;

// v0, which has the masks of masked words.
const MASKS: VReg = VReg(0);

// The lanes of the mask that a masked word writes: those whose word in v0 has bit 0 set.
pub fn masked_lanes(v: &[u32], mask: u32, n: usize) -> u32
    requires { (length v.now ≡ file_words) × (n ≤ lanes_max) × (mask < 2 ^ n) }
    ensures { result ≡ mask_of n (written_lanes true v.now mask) }
{
    let z = row(v, MASKS);
    lanes_where(n, |l| z[l] % 2 == 1) & mask
}

// vmerge: the operand's word or register a's into register d, in each lane of the mask.
pub fn merge_lanes(v: &mut [u32], mask: u32, n: usize, d: VReg, a: VReg, b: Operand)
    requires { (length v.old ≡ file_words) × (n ≤ lanes_max) × (mask < 2 ^ n) }
    ensures { v.new ≡ write_lanes n (bit mask) d (merge_lane v.old a b) v.old }
{
    let z = row(v, MASKS);
    let x = row(v, a);
    let y = operand_row(v, b);
    // A row, and then `put`: with this closure `write` is 15% slower.
    let m = array::from_fn(|l| choose(z[l] % 2 == 1, y[l], x[l]));
    put(v, mask, d, LANES, &m);
}
