// Loads and stores of lanes: the test of all their accesses, and then the accesses.
#![tactic(auto)]

ghost use Rattle.std.specs.Prelude.{◌≡◌, true, cond, List, ℕ, ◌^◌, ◌<◌, ◌≤◌, length};
ghost use Rattle.answer.specs.Answer.{number_of};
ghost use Rattle.lanes.specs.declared.Lane.{Lane};
ghost use Rattle.lanes.specs.Mask.{lane, bit};
ghost use Rattle.lanes.specs.Lanes.{lanes_max, file_words, lane_of, write_lanes};
ghost use Rattle.lanes.specs.Rows.{at, RowOn, Gives};
ghost use Rattle.memory.specs.Memory.{memory, MemoryOk, size_of, width_of, inside_of, load_of};
ghost use Rattle.memory.specs.Memories.{contents, memories, MemoriesOk, inside_one, load_from};
ghost use Rattle.memory.specs.LaneAccess.{all_inside, store_lanes};
ghost use Rattle.lane_memory.specs.Stores.{Stored};

use access::{inside, load_at, load_one, put_at, put_one};
use answer::Refusal;
use isa::{LoadOp, StoreOp, VReg};
use lanes::{LANES, Lane, active, all_active};
use memory::{size, width};

// The test pass, over every active lane, of the data memory alone.
fn all_inside(d: &[u8], base: u32, w: usize, mask: u32, n: usize, o: &[u32; LANES]) -> bool
    requires { (mask < 2 ^ n) × MemoryOk (memory base d.now) × (1 ≤ w) × (w ≤ 4) × (n ≤ lanes_max) }
    ensures { result ≡ all_inside n (bit mask) (inside_of (memory base d.now) w) (at o.now) }
{
    all_active(mask, n, |l| inside(d, base, w, o[l]))
}

// What f gives into the row, in each lane of the mask below n: f is called in no other lane.
fn gather<F: Fn(usize) -> u32>(mask: u32, n: usize, x: &mut [u32; LANES], f: F)
    requires { (n ≤ lanes_max) × ((l : ℕ) → l < n → bit mask (lane l) ≡ true → F.pre f l) }
    ensures { (g : Lane → ℕ) → Gives (F.post f) n g → RowOn (bit mask) n g x.new }
{
    for l in 0..n {
        if active(mask, Lane(l)) {
            x[l] = f(l);
        }
    }
}

// What each active lane of a load finds, after the test pass.
fn fetch(
    d: &[u8],
    base: u32,
    k: LoadOp,
    mask: u32,
    n: usize,
    o: &[u32; LANES],
    x: &mut [u32; LANES],
)
    requires { (n ≤ lanes_max) × (true ≡ all_inside n (bit mask) (inside_of (memory base d.now) (size_of k)) (at o.now)) }
    ensures { RowOn (bit mask) n (λ l. load_of k (memory base d.now) (at o.now l)) x.new }
{
    gather(mask, n, x, |l| load_at(d, base, k, o[l]));
}

// Each arm calls the loop with its operation as a constant. Closures would be no plainer: one an arm, they are the match of load_at again.
fn fetch_op(
    d: &[u8],
    base: u32,
    k: LoadOp,
    mask: u32,
    n: usize,
    o: &[u32; LANES],
    x: &mut [u32; LANES],
)
    requires { (n ≤ lanes_max) × (true ≡ all_inside n (bit mask) (inside_of (memory base d.now) (size_of k)) (at o.now)) }
    ensures { RowOn (bit mask) n (λ l. load_of k (memory base d.now) (at o.now l)) x.new }
{
    match k {
        LoadOp::B => fetch(d, base, LoadOp::B, mask, n, o, x),
        LoadOp::H => fetch(d, base, LoadOp::H, mask, n, o, x),
        LoadOp::W => fetch(d, base, LoadOp::W, mask, n, o, x),
        LoadOp::Bu => fetch(d, base, LoadOp::Bu, mask, n, o, x),
        LoadOp::Hu => fetch(d, base, LoadOp::Hu, mask, n, o, x),
    }
}

// The write pass, in lane order. It and store_both are loops: the clause of one that is generic in FnMut would be a fold of its states, longer than both.
fn store(
    d: &mut [u8],
    base: u32,
    k: StoreOp,
    mask: u32,
    n: usize,
    o: &[u32; LANES],
    x: &[u32; LANES],
)
    requires { (n ≤ lanes_max) × (true ≡ all_inside n (bit mask) (inside_of (memory base d.old) (width_of k)) (at o.now)) }
    ensures { (near : ℕ) (l : List ℕ) → contents d.new l ≡ store_lanes n (bit mask) k (at o.now) (at x.now) (memories base near (contents d.old l)) }
{
    for l in 0..n {
        if active(mask, Lane(l)) {
            put_at(d, base, k, o[l], x[l]);
        }
    }
}

// Each arm calls the loop with its width as a constant. Closures would be no plainer: one an arm, they are the match of put_at again.
fn store_op(
    d: &mut [u8],
    base: u32,
    k: StoreOp,
    mask: u32,
    n: usize,
    o: &[u32; LANES],
    x: &[u32; LANES],
)
    requires { (n ≤ lanes_max) × (true ≡ all_inside n (bit mask) (inside_of (memory base d.old) (width_of k)) (at o.now)) }
    ensures { (near : ℕ) (l : List ℕ) → contents d.new l ≡ store_lanes n (bit mask) k (at o.now) (at x.now) (memories base near (contents d.old l)) }
{
    match k {
        StoreOp::B => store(d, base, StoreOp::B, mask, n, o, x),
        StoreOp::H => store(d, base, StoreOp::H, mask, n, o, x),
        StoreOp::W => store(d, base, StoreOp::W, mask, n, o, x),
    }
}

// ---- lanes of which not all are in data memory: slower, since each looks where it goes

// The test pass, over every active lane.
fn all_inside_one(
    d: &[u8],
    base: u32,
    local: &[u8],
    near: u32,
    w: usize,
    mask: u32,
    n: usize,
    o: &[u32; LANES],
) -> bool
    requires { (mask < 2 ^ n) × MemoriesOk (memories base near (contents d.now local.now)) × (1 ≤ w) × (w ≤ 4) × (n ≤ lanes_max) }
    ensures { result ≡ all_inside n (bit mask) (inside_one (memories base near (contents d.now local.now)) w) (at o.now) }
{
    all_active(
        mask,
        n,
        |l| inside(d, base, w, o[l]) | inside(local, near, w, o[l]),
    )
}

// The write pass, in lane order.
fn store_both(
    d: &mut [u8],
    base: u32,
    local: &mut [u8],
    near: u32,
    k: StoreOp,
    mask: u32,
    n: usize,
    o: &[u32; LANES],
    x: &[u32; LANES],
)
    requires { (n ≤ lanes_max) × MemoriesOk (memories base near (contents d.old local.old)) × (true ≡ all_inside n (bit mask) (inside_one (memories base near (contents d.old local.old)) (width_of k)) (at o.now)) }
    ensures { contents d.new local.new ≡ store_lanes n (bit mask) k (at o.now) (at x.now) (memories base near (contents d.old local.old)) }
{
    for l in 0..n {
        if active(mask, Lane(l)) {
            put_one(d, base, local, near, k, o[l], x[l]);
        }
    }
}

// What the active lanes of a load find, all in data memory or not; false where one is in neither.
fn found(
    d: &[u8],
    base: u32,
    local: &[u8],
    near: u32,
    k: LoadOp,
    mask: u32,
    n: usize,
    o: &[u32; LANES],
    x: &mut [u32; LANES],
) -> bool
    requires { (n ≤ lanes_max) × (mask < 2 ^ n) × MemoriesOk (memories base near (contents d.now local.now)) }
    ensures { (result ≡ all_inside n (bit mask) (inside_one (memories base near (contents d.now local.now)) (size_of k)) (at o.now)) × (result ≡ true → RowOn (bit mask) n (λ l. load_from k (memories base near (contents d.now local.now)) (at o.now l)) x.new) }
{
    if all_inside(d, base, size(k), mask, n, o) {
        fetch_op(d, base, k, mask, n, o, x);
        return true;
    }
    if all_inside_one(d, base, local, near, size(k), mask, n, o) {
        gather(mask, n, x, |l| load_one(d, base, local, near, k, o[l]));
        return true;
    }
    false
}

// A load by the lanes of the mask from the addresses o into register vd; false, and nothing changed, where one is not wholly inside a memory.
pub fn load_lanes(
    v: &mut [u32],
    mask: u32,
    n: usize,
    k: LoadOp,
    d: &[u8],
    base: u32,
    local: &[u8],
    near: u32,
    o: &[u32; LANES],
    vd: VReg,
) -> bool
    requires { (length v.old ≡ file_words) × (n ≤ lanes_max) × (mask < 2 ^ n) × MemoriesOk (memories base near (contents d.now local.now)) }
    ensures { (result ≡ all_inside n (bit mask) (inside_one (memories base near (contents d.now local.now)) (size_of k)) (at o.now)) × (v.new ≡ cond result (write_lanes n (bit mask) vd (λ l. load_from k (memories base near (contents d.now local.now)) (at o.now l)) v.old) v.old) }
{
    let mut x = [0u32; LANES];
    if found(d, base, local, near, k, mask, n, o, &mut x) {
        lanes::put(v, mask, vd, n, &x);
        return true;
    }
    false
}

// The stores of the active lanes, all in data memory or not; refused, with nothing changed, where one is in neither or two clash.
fn stored(
    d: &mut [u8],
    base: u32,
    local: &mut [u8],
    near: u32,
    k: StoreOp,
    mask: u32,
    n: usize,
    o: &[u32; LANES],
    x: &[u32; LANES],
) -> Result<(), Refusal>
    requires { (n ≤ lanes_max) × (mask < 2 ^ n) × MemoriesOk (memories base near (contents d.old local.old)) }
    ensures { Stored (number_of result) n mask k (at o.now) (at x.now) (memories base near (contents d.old local.old)) (contents d.new local.new) }
{
    let here = all_inside(d, base, width(k), mask, n, o);
    if !here {
        if !all_inside_one(d, base, local, near, width(k), mask, n, o) {
            return Err(Refusal::Outside);
        }
    }
    if !lane_clash::all_agree(k, mask, n, o, x) {
        return Err(Refusal::Clashing);
    }
    if here {
        store_op(d, base, k, mask, n, o, x);
    } else {
        store_both(d, base, local, near, k, mask, n, o, x);
    }
    Ok(())
}

// A store of register src by the lanes of the mask to the addresses o: done, or refused with nothing changed.
pub fn store_lanes(
    v: &[u32],
    mask: u32,
    n: usize,
    k: StoreOp,
    d: &mut [u8],
    base: u32,
    local: &mut [u8],
    near: u32,
    o: &[u32; LANES],
    src: VReg,
) -> Result<(), Refusal>
    requires { (length v.now ≡ file_words) × (n ≤ lanes_max) × (mask < 2 ^ n) × MemoriesOk (memories base near (contents d.old local.old)) }
    ensures { Stored (number_of result) n mask k (at o.now) (lane_of v.now src) (memories base near (contents d.old local.old)) (contents d.new local.new) }
{
    let x = lanes::row(v, src);
    stored(d, base, local, near, k, mask, n, o, &x)
}
