// One access to the data memory or the local memory, little-endian, tested and then done.
#![tactic(auto)]

ghost use Rattle.std.specs.Prelude.{◌≡◌, true, cond, Some, None, ◌+◌, ◌-◌, ◌^◌, ◌<◌, ◌≤◌, length};
ghost use Rattle.std.proofs.lemmas.List.Edits.{sets};
ghost use Rattle.memory.specs.Bytes.{le_at, le_bytes};
ghost use Rattle.memory.specs.Memory.{memory, data_limit, MemoryOk, size_of, width_of, inside_of, load_of, store_of};
ghost use Rattle.memory.specs.Memories.{contents, memories, MemoriesOk, inside_one, load_from, store_to};

use isa::{LoadOp, StoreOp};
use memory::{size, width};

// At how many indexes an access of w bytes can begin in len bytes.
fn room(len: usize, w: usize) -> u32
    requires { (len ≤ data_limit) × (w ≤ 4) }
    ensures { result ≡ len + 1 - w }
{
    (len + 1).saturating_sub(w) as u32
}

// The access rule in one compare: of an address below the base, the wrapped difference is past every index where an access can begin.
pub fn inside(d: &[u8], base: u32, w: usize, a: u32) -> bool
    requires { MemoryOk (memory base d.now) × (1 ≤ w) × (w ≤ 4) }
    ensures { result ≡ inside_of (memory base d.now) w a }
{
    word::sub(a, base) < room(d.len(), w)
}

// Reads in a straight line: each becomes one machine load. A function a size, and none generic in it: each is one line of the size's own type.
fn byte_at(d: &[u8], i: usize) -> u32
    requires { i + 1 ≤ length d.now }
    ensures { (result ≡ le_at 1 d.now i) × (result < 2 ^ 8) }
{
    u32::from(d[i])
}

fn half_at(d: &[u8], i: usize) -> u32
    requires { i + 2 ≤ length d.now }
    ensures { (result ≡ le_at 2 d.now i) × (result < 2 ^ 16) }
{
    u32::from(u16::from_le_bytes([d[i], d[i + 1]]))
}

pub fn word_at(d: &[u8], i: usize) -> u32
    requires { i + 4 ≤ length d.now }
    ensures { result ≡ le_at 4 d.now i }
{
    u32::from_le_bytes([d[i], d[i + 1], d[i + 2], d[i + 3]])
}

// A load at an address that lies inside, by a scalar or by a lane.
pub fn load_at(d: &[u8], base: u32, k: LoadOp, a: u32) -> u32
    requires { inside_of (memory base d.now) (size_of k) a ≡ true }
    ensures { result ≡ load_of k (memory base d.now) a }
{
    let i = (a - base) as usize;
    match k {
        LoadOp::B => word::extend(8, byte_at(d, i)),
        LoadOp::H => word::extend(16, half_at(d, i)),
        LoadOp::W => word_at(d, i),
        LoadOp::Bu => byte_at(d, i),
        LoadOp::Hu => half_at(d, i),
    }
}

// Writes in a straight line: each becomes one machine store.
fn put_byte(d: &mut [u8], i: usize, x: u32)
    requires { i + 1 ≤ length d.old }
    ensures { d.new ≡ sets d.old i (le_bytes 1 x) }
{
    d[i] = (x % 256) as u8;
}

fn put_half(d: &mut [u8], i: usize, x: u32)
    requires { i + 2 ≤ length d.old }
    ensures { d.new ≡ sets d.old i (le_bytes 2 x) }
{
    d[i..i + 2].copy_from_slice(&x.to_le_bytes()[..2]);
}

fn put_word(d: &mut [u8], i: usize, x: u32)
    requires { i + 4 ≤ length d.old }
    ensures { d.new ≡ sets d.old i (le_bytes 4 x) }
{
    d[i..i + 4].copy_from_slice(&x.to_le_bytes());
}

// A store at an address that lies inside, by a scalar or by a lane.
pub fn put_at(d: &mut [u8], base: u32, k: StoreOp, a: u32, x: u32)
    requires { inside_of (memory base d.old) (width_of k) a ≡ true }
    ensures { d.new ≡ store_of k a x (memory base d.old) }
{
    let i = (a - base) as usize;
    match k {
        StoreOp::B => put_byte(d, i, x),
        StoreOp::H => put_half(d, i, x),
        StoreOp::W => put_word(d, i, x),
    }
}

// A load that lies in one of the memories, by a lane.
pub fn load_one(d: &[u8], base: u32, l: &[u8], near: u32, k: LoadOp, a: u32) -> u32
    requires { MemoriesOk (memories base near (contents d.now l.now)) × (inside_one (memories base near (contents d.now l.now)) (size_of k) a ≡ true) }
    ensures { result ≡ load_from k (memories base near (contents d.now l.now)) a }
{
    if inside(d, base, size(k), a) {
        return load_at(d, base, k, a);
    }
    load_at(l, near, k, a)
}

// A store that lies in one of the memories, by a lane.
pub fn put_one(d: &mut [u8], base: u32, l: &mut [u8], near: u32, k: StoreOp, a: u32, x: u32)
    requires { MemoriesOk (memories base near (contents d.old l.old)) × (inside_one (memories base near (contents d.old l.old)) (width_of k) a ≡ true) }
    ensures { contents d.new l.new ≡ store_to k a x (memories base near (contents d.old l.old)) }
{
    if inside(d, base, width(k), a) {
        put_at(d, base, k, a, x);
        return;
    }
    put_at(l, near, k, a, x);
}

// None where the access is not wholly inside one of the memories.
pub fn scalar_load(d: &[u8], base: u32, l: &[u8], near: u32, k: LoadOp, a: u32) -> Option<u32>
    requires { MemoriesOk (memories base near (contents d.now l.now)) }
    ensures { result ≡ cond (inside_one (memories base near (contents d.now l.now)) (size_of k) a) (Some (load_from k (memories base near (contents d.now l.now)) a)) None }
{
    if inside(d, base, size(k), a) {
        return Some(load_at(d, base, k, a));
    }
    if inside(l, near, size(k), a) {
        return Some(load_at(l, near, k, a));
    }
    None
}

// False, and nothing changed, where the access is not wholly inside one of the memories.
pub fn scalar_store(
    d: &mut [u8],
    base: u32,
    l: &mut [u8],
    near: u32,
    k: StoreOp,
    a: u32,
    x: u32,
) -> bool
    requires { MemoriesOk (memories base near (contents d.old l.old)) }
    ensures { (result ≡ inside_one (memories base near (contents d.old l.old)) (width_of k) a) × (contents d.new l.new ≡ cond result (store_to k a x (memories base near (contents d.old l.old))) (contents d.old l.old)) }
{
    if inside(d, base, width(k), a) {
        put_at(d, base, k, a, x);
        return true;
    }
    if inside(l, near, width(k), a) {
        put_at(l, near, k, a, x);
        return true;
    }
    false
}
