// What moves a running warp, on its lent words: registers, PC, prefix and CSRs. Splits are in the crate splits.
#![tactic(auto)]

ghost use Rattle.std.specs.Prelude.{◌≡◌, List, ℕ, ◌+◌, ◌-◌, ◌*◌, ◌^◌, ◌≤◌, ◌<◌, length, get_or};
ghost use Rattle.isa.specs.Bounds.{scalar_registers};
ghost use Rattle.isa.specs.Prefix.{prefix};
ghost use Rattle.warp.specs.Warp.{set_x, linked, with_prefix};
ghost use Rattle.warp.specs.Facts.{FixedOk};
ghost use Rattle.warp.specs.Splits.{set_rpc_of};
ghost use Rattle.warp.specs.Csr.{csr_at, csr_new, csr_done, writes_of};
ghost use Rattle.layout.specs.Words.{moving_count, flat_count, fixed_in, warp_of};
ghost use Rattle.running.specs.Goes.{go_in, next_in, csr_in, Goes};

use isa::{CsrOp, XReg};
use layout::{
    BITS, FIXED, GIDX, GIDY, GIDZ, KNL, LDS, MOVING, NUMT, NUMW, PC, PDS, PREFIX, PRINT, RPC,
    SCALARS, WGID, WID,
};

// ---- scalar registers and the PC

pub fn get_x(x: &[u32; SCALARS], r: XReg) -> u32
    requires { r.0 < scalar_registers }
    ensures { result ≡ get_or x.now r.0 0 }
{
    x[r.0 as usize]
}

pub fn put_x(x: &mut [u32; SCALARS], r: XReg, y: u32)
    requires { r.0 < scalar_registers }
    ensures { x.new ≡ set_x r y x.old }
{
    let i = r.0 as usize;
    if i != 0 {
        x[i] = y;
    }
}

pub fn go_to(h: &mut [u32; MOVING], p: u32)
    ensures { h.new ≡ go_in p h.old }
{
    h[PC] = p;
}

pub fn next(h: &mut [u32; MOVING])
    ensures { h.new ≡ next_in h.old }
{
    h[PC] = word::add(h[PC], 4);
}

pub fn link(h: &mut [u32; MOVING], x: &mut [u32; SCALARS], rd: XReg, p: u32)
    requires { (length h.old ≡ moving_count) × (rd.0 < scalar_registers) }
    ensures { (g s : List ℕ) → length s ≡ flat_count → Goes (linked rd p) g h.old x.old s h.new x.new s }
{
    let q = word::add(h[PC], 4);
    put_x(x, rd, q);
    h[PC] = p;
}

// The pending prefix: its kind and its bits.
pub fn put_prefix(h: &mut [u32; MOVING], kind: u32, bits: u32)
    requires { length h.old ≡ moving_count }
    ensures { (g x s : List ℕ) → length s ≡ flat_count → Goes (with_prefix (prefix kind bits)) g h.old x s h.new x s }
{
    h[PREFIX] = kind;
    h[BITS] = bits;
}

// ---- CSRs and SETRPC

pub fn setrpc(h: &mut [u32; MOVING], x: &mut [u32; SCALARS], rd: XReg, rs1: XReg, i: u16)
    requires { (length h.old ≡ moving_count) × (rd.0 < scalar_registers) × (rs1.0 < scalar_registers) × (i < 2 ^ 12) }
    ensures { (g s : List ℕ) → length s ≡ flat_count → Goes (set_rpc_of rd rs1 i) g h.old x.old s h.new x.new s }
{
    let y = word::add(get_x(x, rs1), word::extend(12, i as u32));
    h[RPC] = y;
    put_x(x, rd, y);
    next(h);
}

fn csr_at(h: &[u32; MOVING], g: &[u32; FIXED], n: u16) -> u32
    requires { (FixedOk (fixed_in g.now)) × (0x800 ≤ n) × (n ≤ 0x80c) }
    ensures { (x s : List ℕ) → result ≡ csr_at n (warp_of g.now h.now x s) }
{
    let table = [
        g[WID] * g[NUMT],
        g[NUMW],
        g[NUMT],
        g[KNL],
        g[WGID],
        g[WID],
        g[LDS],
        g[PDS],
        g[GIDX],
        g[GIDY],
        g[GIDZ],
        h[PRINT],
        h[RPC],
    ];
    table[(n - 0x800) as usize]
}

// CSRRS and CSRRC write nothing where rs1 is 0.
pub fn csr_writes(op: CsrOp, rs1: u8) -> bool
    ensures { result ≡ writes_of op rs1 }
{
    match op {
        CsrOp::Rw => true,
        CsrOp::Rs | CsrOp::Rc => rs1 != 0,
    }
}

fn csr_new(op: CsrOp, old: u32, y: u32) -> u32
    ensures { result ≡ csr_new op old y }
{
    match op {
        CsrOp::Rw => y,
        CsrOp::Rs => old | y,
        CsrOp::Rc => old - (old & y),
    }
}

// PRINT or RPC.
fn csr_put(h: &mut [u32; MOVING], n: u16, y: u32)
    ensures { h.new ≡ csr_in n y h.old }
{
    if n == 0x80b {
        h[PRINT] = y;
    } else {
        h[RPC] = y;
    }
}

// CSR n goes to rd, and where the word writes, the CSR changes by the operand y; then PC + 4.
pub fn csr(
    h: &mut [u32; MOVING],
    g: &[u32; FIXED],
    x: &mut [u32; SCALARS],
    op: CsrOp,
    n: u16,
    rd: XReg,
    rs1: u8,
    y: u32,
)
    requires { (length h.old ≡ moving_count) × (FixedOk (fixed_in g.now)) × (rd.0 < scalar_registers) × (0x800 ≤ n) × (n ≤ 0x80c) }
    ensures { (s : List ℕ) → length s ≡ flat_count → Goes (csr_done op n rd rs1 y) g.now h.old x.old s h.new x.new s }
{
    let old = csr_at(h, g, n);
    put_x(x, rd, old);
    next(h);
    if csr_writes(op, rs1) {
        let new = csr_new(op, old, y);
        csr_put(h, n, new);
    }
}
