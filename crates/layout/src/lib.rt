// A warp as words, in the order of a saved state: the places, and the ways from a Warp and back.
#![tactic(auto)]

ghost use Rattle.std.specs.Prelude.{◌≡◌, ◌++◌, ◌+◌, ◌*◌, ◌≤◌, ◌<◌, length, drop};
ghost use Rattle.std.proofs.Math.Seq.{paste};
ghost use Rattle.isa.specs.Bounds.{scalar_registers};
ghost use Rattle.warp.specs.Warp.{split_count};
ghost use Rattle.word.specs.Word.{flag_of};
ghost use Rattle.layout.specs.Words.{state_words, fixed_in, split_at, splits_in, warp_of, splits_words, moving_words, fixed_words, scalar_part, split_part, moving_part, fixed_part};
ghost use Rattle.layout.specs.Lent.{put_split};
ghost use Rattle.layout.specs.Parts.{zero_parts, parts_of, warp_from, parts_in, state_from};

use isa::Prefix;
use warp::{Fixed, SPLITS, Split, Warp, zero_split};

// How many words: the scalar registers, the split records, what moves, what a launch fixed.
pub const SCALARS: usize = 64;

pub const FLAT: usize = 155;

pub const MOVING: usize = 9;

pub const FIXED: usize = 13;

// Where the last two of these begin in a saved state, after the others, and how many words it has.
pub const MOVING_START: usize = 219;

pub const FIXED_START: usize = 228;

pub const STATE_WORDS: usize = 241;

// The places of the moving words.
pub const DEPTH: usize = 0;

pub const PC: usize = 1;

pub const MASK: usize = 2;

pub const RPC: usize = 3;

pub const PRINT: usize = 4;

pub const ENDED: usize = 5;

pub const WAITING: usize = 6;

pub const PREFIX: usize = 7;

pub const BITS: usize = 8;

// The places of the fixed values.
pub const NUMT: usize = 0;

pub const NUMW: usize = 1;

pub const WID: usize = 2;

pub const LAUNCHMASK: usize = 3;

pub const CODEBASE: usize = 4;

pub const DATABASE: usize = 5;

pub const KNL: usize = 6;

pub const WGID: usize = 7;

pub const LDS: usize = 8;

pub const PDS: usize = 9;

pub const GIDX: usize = 10;

pub const GIDY: usize = 11;

pub const GIDZ: usize = 12;

// A split record's words, and the places of those after its rpc.
pub const SPLIT: usize = 5;

pub const FULL: usize = 1;

pub const ELSEMASK: usize = 2;

pub const ELSEPC: usize = 3;

pub const PHASE: usize = 4;

// A word as an index.
pub fn wide(x: u32) -> usize
    ensures { result ≡ x }
{
    x as usize
}

pub fn flag_word(b: bool) -> u32
    ensures { result ≡ flag_of b }
{
    u32::from(b)
}

// ---- splits

pub fn split_at(s: &[u32; FLAT], k: usize) -> Split
    requires { k < split_count }
    ensures { result ≡ split_at s.now k }
{
    let i = k * SPLIT;
    Split {
        rpc: s[i],
        full: s[i + FULL],
        elseMask: s[i + ELSEMASK],
        elsePc: s[i + ELSEPC],
        phaseTwo: s[i + PHASE] != 0,
    }
}

pub fn put_split(s: &mut [u32; FLAT], k: usize, q: Split)
    requires { k < split_count }
    ensures { s.new ≡ put_split s.old k q }
{
    let i = k * SPLIT;
    s[i] = q.rpc;
    s[i + FULL] = q.full;
    s[i + ELSEMASK] = q.elseMask;
    s[i + ELSEPC] = q.elsePc;
    s[i + PHASE] = flag_word(q.phaseTwo);
}

// ---- the warp taken apart, and put together

pub fn moving_of(w: Warp) -> [u32; MOVING]
    requires { w.depth ≤ split_count }
    ensures { result ≡ moving_words w }
{
    [
        w.depth as u32,
        w.pc,
        w.mask,
        w.rpc,
        w.print,
        flag_word(w.ended),
        flag_word(w.waiting),
        w.prefix.kind,
        w.prefix.bits,
    ]
}

pub fn fixed_of(f: Fixed) -> [u32; FIXED]
    ensures { result ≡ fixed_words f }
{
    [
        f.numt,
        f.numw,
        f.wid,
        f.launchMask,
        f.codeBase,
        f.dataBase,
        f.knl,
        f.wgid,
        f.lds,
        f.pds,
        f.gidx,
        f.gidy,
        f.gidz,
    ]
}

pub fn fixed_in(g: &[u32; FIXED]) -> Fixed
    ensures { result ≡ fixed_in g.now }
{
    Fixed {
        numt: g[NUMT],
        numw: g[NUMW],
        wid: g[WID],
        launchMask: g[LAUNCHMASK],
        codeBase: g[CODEBASE],
        dataBase: g[DATABASE],
        knl: g[KNL],
        wgid: g[WGID],
        lds: g[LDS],
        pds: g[PDS],
        gidx: g[GIDX],
        gidy: g[GIDY],
        gidz: g[GIDZ],
    }
}

pub fn flat(q: [Split; SPLITS]) -> [u32; FLAT]
    ensures { result ≡ splits_words q }
{
    let mut s = [0u32; FLAT];
    for k in 0..SPLITS {
        put_split(&mut s, k, q[k]);
    }
    s
}

pub fn unflat(s: &[u32; FLAT]) -> [Split; SPLITS]
    ensures { result ≡ splits_in s.now }
{
    let mut q = [zero_split(); SPLITS];
    for k in 0..SPLITS {
        q[k] = split_at(s, k);
    }
    q
}

pub fn together(h: &[u32; MOVING], g: &[u32; FIXED], x: [u32; SCALARS], s: &[u32; FLAT]) -> Warp
    ensures { result ≡ warp_of g.now h.now x s.now }
{
    Warp {
        x,
        splits: unflat(s),
        depth: h[DEPTH] as usize,
        pc: h[PC],
        mask: h[MASK],
        rpc: h[RPC],
        print: h[PRINT],
        ended: h[ENDED] != 0,
        waiting: h[WAITING] != 0,
        prefix: Prefix {
            kind: h[PREFIX],
            bits: h[BITS],
        },
        fixed: fixed_in(g),
    }
}

// ---- a state's words

// By a loop: `copy_from_slice` tests first whether the two overlap.
fn copy(from: &[u32], to: &mut [u32])
    requires { length from.now ≡ length to.old }
    ensures { to.new ≡ from.now }
{
    for i in 0..from.len() {
        to[i] = from[i];
    }
}

// How many of a state's words are scalar registers: all but those of the other parts. Asked of the state, so that the compiler copies them by
// one call, where a constant of 64 makes it write out 64 copies (docs/SPEED.md).
fn scalars(state: &[u32]) -> usize
    requires { length state.now ≡ state_words }
    ensures { result ≡ scalar_registers }
{
    state.len() - (FLAT + MOVING + FIXED)
}

// The words of a state, part by part.
pub fn get(
    state: &[u32],
    h: &mut [u32; MOVING],
    g: &mut [u32; FIXED],
    x: &mut [u32; SCALARS],
    s: &mut [u32; FLAT],
)
    requires { length state.now ≡ state_words }
    ensures { (h.new ≡ moving_part state.now) × (g.new ≡ fixed_part state.now) × (x.new ≡ scalar_part state.now) × (s.new ≡ split_part state.now) }
{
    copy(&state[..scalars(state)], x);
    copy(&state[SCALARS..MOVING_START], s);
    copy(&state[MOVING_START..FIXED_START], h);
    copy(&state[FIXED_START..], g);
}

// The words of a warp put one part after another.
pub fn put(
    h: &[u32; MOVING],
    g: &[u32; FIXED],
    x: &[u32; SCALARS],
    s: &[u32; FLAT],
    state: &mut [u32],
)
    requires { length state.old ≡ state_words }
    ensures { state.new ≡ x.now ++ s.now ++ h.now ++ g.now }
{
    let n = scalars(state);
    copy(x, &mut state[..n]);
    copy(s, &mut state[SCALARS..MOVING_START]);
    copy(h, &mut state[MOVING_START..FIXED_START]);
    copy(g, &mut state[FIXED_START..]);
}

// ---- a warp's words together

// A warp's words, part by part.
#[derive(Clone, Copy)]
pub struct WarpWords {
    pub moving: [u32; MOVING],
    pub fixed: [u32; FIXED],
    pub scalars: [u32; SCALARS],
    pub splits: [u32; FLAT],
}

impl WarpWords {
    // Room for a warp's words.
    pub fn zeros() -> WarpWords
        ensures { result ≡ zero_parts }
    {
        WarpWords {
            moving: [0; MOVING],
            fixed: [0; FIXED],
            scalars: [0; SCALARS],
            splits: [0; FLAT],
        }
    }

    // The words of a warp.
    pub fn of(w: Warp) -> WarpWords
        requires { w.depth ≤ split_count }
        ensures { result ≡ parts_of w }
    {
        let moving = moving_of(w);
        let fixed = fixed_of(w.fixed);
        let scalars = w.x;
        let splits = flat(w.splits);
        WarpWords {
            moving,
            fixed,
            scalars,
            splits,
        }
    }

    // The warp that they stand for.
    pub fn warp(&self) -> Warp
        ensures { result ≡ warp_from self.now }
    {
        together(&self.moving, &self.fixed, self.scalars, &self.splits)
    }

    // They become the words of a state.
    pub fn get(&mut self, state: &[u32])
        requires { length state.now ≡ state_words }
        ensures { self.new ≡ parts_in state.now }
    {
        get(
            state,
            &mut self.moving,
            &mut self.fixed,
            &mut self.scalars,
            &mut self.splits,
        );
    }

    // They are put into a state.
    pub fn put(&self, state: &mut [u32])
        requires { length state.old ≡ state_words }
        ensures { state.new ≡ state_from self.now }
    {
        put(
            &self.moving,
            &self.fixed,
            &self.scalars,
            &self.splits,
            state,
        );
    }
}
