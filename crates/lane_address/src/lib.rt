// Where each lane's access goes, plain or private, and that a private one stays in its word.
#![tactic(auto)]

ghost use Rattle.std.specs.Prelude.{◌≡◌, not, ◌^◌, ◌<◌, ◌≤◌, length};
ghost use Rattle.isa.specs.declared.Space.TheVariants as spaces;
ghost use Rattle.lanes.specs.Mask.{bit};
ghost use Rattle.lanes.specs.Lanes.{lanes_max, file_words, lane_of};
ghost use Rattle.lanes.specs.Rows.{RowOf};
ghost use Rattle.memory.specs.Address.{own_place, private_of, address_of, lane_address, in_word_at, offset_limit};
ghost use Rattle.memory.specs.LaneAccess.{all_in_word};

use isa::{Space, VReg};
use lanes::{LANES, Lane, all_active, slot};
use memory::{Private, plain_address};

// Where in its lane's own memory a private access goes.
fn own_place(x: u32, off: u16) -> u32
    requires { off < offset_limit spaces.Private }
    ensures { result ≡ own_place x off }
{
    word::add(x, word::extend(11, off as u32))
}

// The one place of the private rule.
fn private_address(p: Private, u: u32, l: Lane) -> u32
    requires { l.0 < lanes_max }
    ensures { result ≡ private_of p u l }
{
    let low = u % 4;
    word::add(
        word::add(word::mul(u - low, p.numt), low + 4 * l.0 as u32),
        p.pds,
    )
}

// An access of w bytes at the place u would leave its word.
fn crosses(u: u32, w: usize) -> bool
    requires { w ≤ 4 }
    ensures { result ≡ not (in_word_at w u) }
{
    u % 4 > (4 - w) as u32
}

// Where lane l's access goes.
fn address(space: Space, p: Private, x: u32, off: u16, l: Lane) -> u32
    requires { (off < offset_limit space) × (l.0 < lanes_max) }
    ensures { result ≡ address_of space p x off l }
{
    match space {
        Space::Plain => plain_address(x, off),
        Space::Private => private_address(p, own_place(x, off), l),
    }
}

// The addresses of the lanes below n, over register r.
fn address_row(space: Space, p: Private, v: &[u32], r: VReg, off: u16, n: usize) -> [u32; LANES]
    requires { (length v.now ≡ file_words) × (off < offset_limit space) × (n ≤ lanes_max) }
    ensures { RowOf n (lane_address space p v.now r off) result }
{
    // To n and not by from_fn: over all lanes, the n that the clause names would be looked at nowhere.
    let mut o = [0u32; LANES];
    for l in 0..n {
        o[l] = address(space, p, v[slot(r, Lane(l))], off, Lane(l));
    }
    o
}

// Each arm calls the loop with its space as a constant, so that the compiler makes a vector loop of each.
// Closures would be no plainer: they are the two arms of `address` again.
pub fn addresses(space: Space, p: Private, v: &[u32], r: VReg, off: u16, n: usize) -> [u32; LANES]
    requires { (length v.now ≡ file_words) × (off < offset_limit space) × (n ≤ lanes_max) }
    ensures { RowOf n (lane_address space p v.now r off) result }
{
    match space {
        Space::Plain => address_row(Space::Plain, p, v, r, off, n),
        Space::Private => address_row(Space::Private, p, v, r, off, n),
    }
}

// The boundary test, over every active lane. A plain access has no boundary.
pub fn all_in_word(
    space: Space,
    v: &[u32],
    r: VReg,
    off: u16,
    w: usize,
    mask: u32,
    n: usize,
) -> bool
    requires { (mask < 2 ^ n) × (length v.now ≡ file_words) × (off < offset_limit space) × (w ≤ 4) × (n ≤ lanes_max) }
    ensures { result ≡ all_in_word n (bit mask) space w (lane_of v.now r) off }
{
    match space {
        Space::Plain => true,
        Space::Private => {
            let stays = |l: usize| !crosses(own_place(v[slot(r, Lane(l))], off), w);
            all_active(mask, n, stays)
        }
    }
}
