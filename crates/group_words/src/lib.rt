// A group's words: whose turn it is, the release at a barrier, and the tests before a run.
#![tactic(auto)]

ghost use Rattle.std.specs.Prelude.{◌≡◌, ◌&&◌, List, map, ℕ, ◌<◌, ◌≤◌, length};
ghost use Rattle.std.specs.List.{list_all};
ghost use Rattle.layout.specs.Words.{moving_count, flat_count, is_set, ended_in, fixed_in};
ghost use Rattle.memory.specs.Memories.{Contents, contents};
ghost use Rattle.running.specs.Goes.{Goes};
ghost use Rattle.group.specs.Group.{next_of, freed, settled};
ghost use Rattle.group.specs.GroupRefuse.{warps_limit, sizes_ok_of, in_place_of, placed_of, goes_on_of, formed_of};
ghost use Rattle.group_words.specs.Row.{runs_in, Picked, Moves, group_in, fixeds_in, warp_ok, all_sound, Rooms};

use layout::{CODEBASE, DATABASE, ENDED, FIXED, LDS, MOVING, NUMT, NUMW, WAITING, WID, WarpWords};

// The most warps of a group.
pub const WARPS: usize = 32;

// The words of a warp's vector file.
pub const FILE_WORDS: usize = 8192;

// The warp neither waits nor has ended.
fn can_run(h: &[u32; MOVING]) -> bool
    ensures { result ≡ runs_in h.now }
{
    (h[ENDED] == 0) & (h[WAITING] == 0)
}

fn has_ended(h: &[u32; MOVING]) -> bool
    ensures { result ≡ is_set (ended_in h.now) }
{
    h[ENDED] != 0
}

// The number after i, of n.
pub fn next(i: usize, n: usize) -> usize
    requires { (i < n) × (n ≤ warps_limit) }
    ensures { (result ≡ next_of n i) × (result < n) }
{
    if i + 1 < n { i + 1 } else { 0 }
}

// The first warp that runs, from `turn` on, cyclically.
pub fn pick(ws: &[WarpWords], turn: usize) -> Option<usize>
    requires { (turn < length ws.now) × (length ws.now ≤ warps_limit) }
    ensures { Picked turn ws.now result }
{
    let mut i = turn;
    for _tried in 0..ws.len() {
        if can_run(&ws[i].moving) {
            return Some(i);
        }
        i = next(i, ws.len());
    }
    None
}

// A warp that waits is released.
fn free(h: &mut [u32; MOVING])
    requires { length h.old ≡ moving_count }
    ensures { (g x s : List ℕ) → length s ≡ flat_count → Goes freed g h.old x s h.new x s }
{
    if h[WAITING] != 0 {
        h[ENDED] = 0;
        h[WAITING] = 0;
    }
}

// Every warp that waits is released.
fn release(ws: &mut [WarpWords])
    requires { Rooms ws.old }
    ensures { Moves (map freed) ws.old ws.new }
{
    for w in ws.iter_mut() {
        free(&mut w.moving);
    }
}

// After a step of warp i: where no warp runs any more, all that wait are released.
pub fn settle(ws: &mut [WarpWords], i: usize)
    requires { (i < length ws.old) × Rooms ws.old }
    ensures { Moves settled ws.old ws.new }
{
    if can_run(&ws[i].moving) {
        return;
    }
    if pick(ws, i).is_some() {
        return;
    }
    release(ws);
}

// ---- the tests of a run

// What each warp's own bases ask of the lent runs.
pub fn sizes_ok(
    ws: &[WarpWords],
    kernel: &[u32],
    vector: &[u32],
    bytes: &[u8],
    local: &[u8],
) -> bool
    requires { (1 ≤ length ws.now) × (length ws.now ≤ warps_limit) }
    ensures { result ≡ sizes_ok_of kernel.now (fixeds_in ws.now) vector.now (contents bytes.now local.now) }
{
    if vector.len() != ws.len() * FILE_WORDS {
        return false;
    }
    for (i, w) in ws.iter().enumerate() {
        let a = i * FILE_WORDS;
        let f = layout::fixed_in(&w.fixed);
        if !sizes::runs_ok(f, kernel, &vector[a..a + FILE_WORDS], bytes, local) {
            return false;
        }
    }
    true
}

// Every one's words are a warp's, and it is well formed.
fn words_ok(ws: &[WarpWords]) -> bool
    ensures { result ≡ list_all warp_ok ws.now }
{
    ws.iter().all(|w| formed::words_ok(w))
}

// Warp i of n, by its fixed words g: WID and NUMW by its place, the rest as the words z of warp 0 have it.
fn in_place(z: &[u32; FIXED], g: &[u32; FIXED], i: usize, n: usize) -> bool
    ensures { result ≡ in_place_of n (fixed_in z.now) i (fixed_in g.now) }
{
    let base = (g[CODEBASE] == z[CODEBASE]) & ((g[DATABASE] == z[DATABASE]) & (g[LDS] == z[LDS]));
    (layout::wide(g[WID]) == i) & ((layout::wide(g[NUMW]) == n) & ((g[NUMT] == z[NUMT]) & base))
}

pub fn placed(ws: &[WarpWords]) -> bool
    requires { length ws.now ≤ warps_limit }
    ensures { result ≡ placed_of (fixeds_in ws.now) }
{
    for (i, w) in ws.iter().enumerate() {
        if !in_place(&ws[0].fixed, &w.fixed, i, ws.len()) {
            return false;
        }
    }
    true
}

fn all_ended(ws: &[WarpWords]) -> bool
    ensures { result ≡ list_all (λ w. is_set (ended_in w.moving)) ws.now }
{
    ws.iter().all(|w| has_ended(&w.moving))
}

// All have ended, or the turn names a warp and some warp runs.
fn goes_on(ws: &[WarpWords], turn: usize) -> bool
    requires { length ws.now ≤ warps_limit }
    ensures { (v : List ℕ) (c : Contents) → result ≡ goes_on_of (group_in turn ws.now v c) }
{
    if all_ended(ws) {
        return true;
    }
    if ws.len() <= turn {
        return false;
    }
    pick(ws, turn).is_some()
}

// The words are those of a well-formed group.
pub fn group_ok(ws: &[WarpWords], turn: usize) -> bool
    requires { length ws.now ≤ warps_limit }
    ensures { (v : List ℕ) (c : Contents) → result ≡ (all_sound ws.now && formed_of (group_in turn ws.now v c)) }
{
    words_ok(ws) & (placed(ws) & goes_on(ws, turn))
}
