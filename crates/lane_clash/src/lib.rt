// Whether the stores of active lanes agree: no two of them store different values to one byte.
#![tactic(auto)]

ghost use Rattle.std.specs.Prelude.{◌≡◌, true, ◌+◌, ◌^◌, ◌<◌, ◌≤◌};
ghost use Rattle.lanes.specs.Mask.{bit, lane};
ghost use Rattle.lanes.specs.Lanes.{lanes_max};
ghost use Rattle.lanes.specs.Rows.{at};
ghost use Rattle.memory.specs.Memory.{width_of};
ghost use Rattle.memory.specs.LaneAccess.{all_agree};
ghost use Rattle.lane_clash.specs.Clash.{away_of, Follows, Spread, NoneMeet, low_same, from_of, lane_from, pairs_from, NonePast};

use isa::StoreOp;
use lanes::{LANES, Lane, active, all_active};

// ---- the usual case: each lane's access lies behind the one before, or each before it

// From each lane's address to the next is less than this and the width: too little for 32 lanes to come round the address space.
const REACH: u32 = 0x0400_0000;

// How far b is above a, or below it, wrapping.
fn away(up: bool, a: u32, b: u32) -> u32
    ensures { result ≡ away_of up a b }
{
    if up { word::sub(b, a) } else { word::sub(a, b) }
}

// From a lane's address a to the next one's it is at least w up, or down, and not too far.
fn follows(up: bool, w: u32, a: u32, b: u32) -> bool
    ensures { result ≡ true → Follows up w a b }
{
    word::sub(away(up, a, b), w) < REACH
}

// Each lane's address is at least w, and not too far, above the one before, or below it. The first lane is held against a place w before it: so the count of turns is n, and
// the compiler makes vector code for all of them.
fn spread(up: bool, w: u32, n: usize, o: &[u32; LANES]) -> bool
    requires { n ≤ lanes_max }
    ensures { result ≡ true → Spread up w n o.now }
{
    let mut near = true;
    let mut last = if up {
        word::sub(o[0], w)
    } else {
        word::add(o[0], w)
    };
    for l in 0..n {
        near &= follows(up, w, last, o[l]);
        last = o[l];
    }
    near
}

// Each arm calls the loop with its direction as a constant.
fn apart(w: u32, n: usize, o: &[u32; LANES]) -> bool
    requires { (w ≤ 4) × (n ≤ lanes_max) }
    ensures { result ≡ true → NoneMeet w n o.now }
{
    if o[0] < o[1] {
        return spread(true, w, n, o);
    }
    spread(false, w, n, o)
}

// ---- other lanes: pairs

// The n low bytes of x are those of y.
fn low_same(n: u32, x: u32, y: u32) -> bool
    requires { (1 ≤ n) × (n ≤ 4) }
    ensures { result ≡ low_same n x y }
{
    match n {
        1 => x % 256 == y % 256,
        2 => x % 65536 == y % 65536,
        3 => x % 16777216 == y % 16777216,
        _ => x == y,
    }
}

// A store of y at b that begins in a store of x at a has the same bytes there.
fn agree(w: u32, a: u32, x: u32, b: u32, y: u32) -> bool
    requires { (w ≤ 4) × (a + w ≤ 2 ^ 32) }
    ensures { result ≡ from_of w a x b y }
{
    let d = word::sub(b, a);
    d >= w || low_same(w - d, x >> (8 * d), y)
}

// Lane l's store agrees with that of each lane of the mask that begins in it.
fn lane_agrees(w: u32, mask: u32, l: usize, n: usize, o: &[u32; LANES], x: &[u32; LANES]) -> bool
    requires { (w ≤ 4) × (l < n) × (n ≤ lanes_max) × (mask < 2 ^ n) × (at o.now (lane l) + w ≤ 2 ^ 32) }
    ensures { result ≡ lane_from w mask n o.now x.now (lane l) }
{
    all_active(mask, n, |h| agree(w, o[l], x[l], o[h], x[h]))
}

// Each pair of lanes, from both sides.
fn pairs_agree(w: u32, mask: u32, n: usize, o: &[u32; LANES], x: &[u32; LANES]) -> bool
    requires { (w ≤ 4) × (n ≤ lanes_max) × (mask < 2 ^ n) × NonePast w mask n o.now }
    ensures { result ≡ pairs_from w mask n o.now x.now }
{
    (0..n).all(|l| !active(mask, Lane(l)) || lane_agrees(w, mask, l, n, o, x))
}

// The stores of the lanes of the mask, the words x at the addresses o, agree.
pub fn all_agree(k: StoreOp, mask: u32, n: usize, o: &[u32; LANES], x: &[u32; LANES]) -> bool
    requires { (n ≤ lanes_max) × (mask < 2 ^ n) × NonePast (width_of k) mask n o.now }
    ensures { result ≡ all_agree n (bit mask) k (at o.now) (at x.now) }
{
    let w = memory::width(k) as u32;
    apart(w, n, o) || pairs_agree(w, mask, n, o, x)
}
