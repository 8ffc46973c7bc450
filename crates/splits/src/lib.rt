// A split opens at a VBRANCH, turns and closes at a JOIN: on the warp's words.
#![tactic(auto)]

ghost use Rattle.std.specs.Prelude.{◌≡◌, List, ℕ, ◌+◌, ◌-◌, ◌≤◌, ◌<◌, length};
ghost use Rattle.std.specs.Int.Bits.{bit_and};
ghost use Rattle.std.specs.Int.Count.{ones};
ghost use Rattle.lanes.specs.Lanes.{lanes_max};
ghost use Rattle.warp.specs.Warp.{split_count};
ghost use Rattle.warp.specs.Splits.{open_of, parted, join_of};
ghost use Rattle.layout.specs.Words.{moving_count, flat_count, mask_in, depth_in};
ghost use Rattle.running.specs.Goes.{resume_in, Goes};

use layout::{DEPTH, FLAT, MASK, MOVING, PC, RPC, put_split, split_at};
use warp::{Split, zero_split};

// Sets how many splits are open, the mask and the PC.
fn resume(h: &mut [u32; MOVING], depth: u32, mask: u32, pc: u32)
    ensures { h.new ≡ resume_in depth mask pc h.old }
{
    h[DEPTH] = depth;
    h[MASK] = mask;
    h[PC] = pc;
}

// A split opens: the lanes of e want p, the rest go on first.
fn open(h: &mut [u32; MOVING], s: &mut [u32; FLAT], e: u32, p: u32)
    requires { (length h.old ≡ moving_count) × (length s.old ≡ flat_count) × (depth_in h.old < split_count) × (e ≤ mask_in h.old) }
    ensures { (g x : List ℕ) → Goes (open_of e p) g h.old x s.old h.new x s.new }
{
    let n = h[DEPTH];
    let m = h[MASK];
    let rest = m - e;
    let after = word::add(h[PC], 4);
    put_split(
        s,
        n as usize,
        Split {
            rpc: h[RPC],
            full: m,
            elseMask: e,
            elsePc: p,
            phaseTwo: false,
        },
    );
    resume(h, n + 1, rest, after);
}

// VBRANCH, where the active lanes of e want p.
pub fn part(h: &mut [u32; MOVING], s: &mut [u32; FLAT], e: u32, p: u32)
    requires { (length h.old ≡ moving_count) × (length s.old ≡ flat_count) × (depth_in h.old + ones (mask_in h.old) ≤ lanes_max) × (bit_and e (mask_in h.old) ≡ e) }
    ensures { (g x : List ℕ) → Goes (parted e p) g h.old x s.old h.new x s.new }
{
    if e == 0 {
        running::next(h);
        return;
    }
    if e == h[MASK] {
        h[PC] = p;
        return;
    }
    open(h, s, e, p);
}

pub fn join(h: &mut [u32; MOVING], s: &mut [u32; FLAT])
    requires { (length h.old ≡ moving_count) × (length s.old ≡ flat_count) × (depth_in h.old ≤ split_count) }
    ensures { (g x : List ℕ) → Goes join_of g h.old x s.old h.new x s.new }
{
    let n = h[DEPTH] as usize;
    let pc = h[PC];
    let after = word::add(pc, 4);
    if n == 0 {
        h[PC] = after;
        return;
    }
    let k = n - 1;
    let q = split_at(s, k);
    if pc != q.rpc {
        h[PC] = after;
        return;
    }
    if q.phaseTwo {
        put_split(s, k, zero_split());
        resume(h, k as u32, q.full, pc);
        return;
    }
    put_split(
        s,
        k,
        Split {
            phaseTwo: true,
            ..q
        },
    );
    resume(h, n as u32, q.elseMask, q.elsePc);
}
