// The one test of a warp: its words are a warp's, and it is well formed.
#![tactic(auto)]

ghost use Rattle.std.specs.Prelude.{◌≡◌, ◌&&◌, cond, ◌+◌, ◌-◌, ◌*◌, ◌≤◌, ◌<◌, drop};
ghost use Rattle.isa.specs.Prefix.{prefix};
ghost use Rattle.warp.specs.Warp.{split_count};
ghost use Rattle.warp.specs.WellFormed.{split_ok_of, chain_of, all_zero, prefix_ok_of, well_formed_of};
ghost use Rattle.layout.specs.Words.{is_set, is_flag, phase_at, split_at, splits_in, phases_ok_of};
ghost use Rattle.layout.specs.Parts.{warp_from, sound_from};

use layout::{
    BITS, DEPTH, ELSEMASK, ELSEPC, ENDED, FLAT, FULL, LAUNCHMASK, MASK, PC, PHASE, PREFIX, SPLIT,
    WAITING, WarpWords, fixed_in,
};
use warp::{SPLITS, Warp};

// ---- the test of well-formedness

// The lanes of an open split that run: its full lanes less the else lanes e (0 where those are more), in phase two e.
fn running_part(full: u32, e: u32, phase: u32) -> u32
    ensures { result ≡ cond (is_set phase) e (full - e) }
{
    if phase != 0 {
        e
    } else {
        full.saturating_sub(e)
    }
}

// Open split k, whose running part is to be m.
fn open_ok(s: &[u32; FLAT], k: usize, m: u32) -> bool
    requires { k < split_count }
    ensures { result ≡ (is_flag (phase_at s.now k) && split_ok_of (split_at s.now k) m) }
{
    let i = k * SPLIT;
    let f = s[i + FULL];
    let e = s[i + ELSEMASK];
    let phase = s[i + PHASE];
    let r = running_part(f, e, phase);
    (phase <= 1)
        & ((e != 0) & (((e & f) == e) & ((e != f) & ((s[i + ELSEPC] % 4 == 0) & (r == m)))))
}

// The open splits, from the last one back to the launch.
fn chain_ok(s: &[u32; FLAT], depth: usize, mask: u32, launchMask: u32) -> bool
    requires { depth ≤ split_count }
    ensures { result ≡ (phases_ok_of depth s.now && chain_of launchMask (splits_in s.now) depth mask) }
{
    let mut m = mask;
    for k in (0..depth).rev() {
        if !open_ok(s, k, m) {
            return false;
        }
        m = s[k * SPLIT + FULL];
    }
    m == launchMask
}

// The unused records are all zeros: found without a branch.
fn unused_ok(s: &[u32; FLAT], depth: usize) -> bool
    requires { depth ≤ split_count }
    ensures { result ≡ all_zero (drop depth (splits_in s.now)) }
{
    s[depth * SPLIT..].iter().fold(0, |any, word| any | *word) == 0
}

// No prefix is pending, or one of the two kinds with 12 bits.
fn prefix_ok(kind: u32, bits: u32) -> bool
    ensures { result ≡ prefix_ok_of (prefix kind bits) }
{
    (kind <= 2) & ((bits < 4096) & ((kind != 0) | (bits == 0)))
}

// A well-formed warp's words.
pub fn words_ok(w: &WarpWords) -> bool
    ensures { result ≡ (sound_from w.now && well_formed_of (warp_from w.now)) }
{
    let h = &w.moving;
    let s = &w.splits;
    let depth = h[DEPTH] as usize;
    if SPLITS < depth {
        return false;
    }
    let ended = h[ENDED];
    let waiting = h[WAITING];
    let fixed = warp::fixed_ok(fixed_in(&w.fixed));
    let unused = unused_ok(s, depth);
    let chain = chain_ok(s, depth, h[MASK], w.fixed[LAUNCHMASK]);
    let stopped = (ended != 0) | (waiting != 0);
    let prefix = prefix_ok(h[PREFIX], h[BITS]);
    (ended <= 1)
        & ((waiting <= 1)
            & (fixed
                & ((h[PC] % 4 == 0)
                    & ((w.scalars[0] == 0)
                        & (unused
                            & (!((ended != 0) & (waiting != 0))
                                & (chain
                                    & (!(stopped & (0 < depth))
                                        & (prefix & !(stopped & (h[PREFIX] != 0)))))))))))
}

pub fn well_formed(w: Warp) -> bool
    ensures { result ≡ well_formed_of w }
{
    if SPLITS < w.depth {
        return false;
    }
    words_ok(&WarpWords::of(w))
}
