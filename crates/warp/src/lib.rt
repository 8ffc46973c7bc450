#![tactic(auto)]

ghost use Rattle.std.specs.Prelude.{◌≡◌, ◌^◌, ◌≤◌};
ghost use Rattle.lanes.specs.Lanes.{lanes_max};
ghost use Rattle.isa.specs.Prefix.{no_prefix};
ghost use Rattle.warp.specs.Warp.{zero_split, zero_fixed, zero_launch, zero_warp};
ghost use Rattle.warp.specs.WellFormed.{fixed_ok_of, launch_ok_of};

use isa::Prefix;

// Threads in a warp, warps in the group, and room for open splits.
const THREADS: u32 = 32;

const WARPS: u32 = 32;

pub const SPLITS: usize = 31;

// An open split: the lanes of elseMask want elsePc; in phase two they run.
#[repr(C)]
#[derive(Clone, Copy, Default)]
pub struct Split {
    pub rpc: u32,
    pub full: u32,
    pub elseMask: u32,
    pub elsePc: u32,
    pub phaseTwo: bool,
}

// What a launch sets and no step changes.
#[repr(C)]
#[derive(Clone, Copy, Default)]
pub struct Fixed {
    pub numt: u32,
    pub numw: u32,
    pub wid: u32,
    pub launchMask: u32,
    pub codeBase: u32,
    pub dataBase: u32,
    pub knl: u32,
    pub wgid: u32,
    pub lds: u32,
    pub pds: u32,
    pub gidx: u32,
    pub gidy: u32,
    pub gidz: u32,
}

#[repr(C)]
#[derive(Clone, Copy, Default)]
pub struct Launch {
    pub fixed: Fixed,
    pub entry: u32,
}

// depth counts the open splits; the last of them is splits[depth - 1].
#[repr(C)]
#[derive(Clone, Copy, Default)]
pub struct Warp {
    pub x: [u32; 64],
    pub splits: [Split; 31],
    pub depth: usize,
    pub pc: u32,
    pub mask: u32,
    pub rpc: u32,
    pub print: u32,
    pub ended: bool,
    pub waiting: bool,
    pub prefix: Prefix,
    pub fixed: Fixed,
}

pub fn zero_split() -> Split
    ensures { result ≡ zero_split }
{
    Split::default()
}

pub fn zero_launch() -> Launch
    ensures { result ≡ zero_launch }
{
    Launch::default()
}

// None is pending.
pub fn no_prefix() -> Prefix
    ensures { result ≡ no_prefix }
{
    Prefix::default()
}

pub fn zero_warp() -> Warp
    ensures { result ≡ zero_warp }
{
    Warp::default()
}

// 2 to the power n: one more than the greatest mask of n lanes.
fn mask_room(n: u32) -> u64
    requires { n ≤ lanes_max }
    ensures { result ≡ 2 ^ n }
{
    1u64 << n
}

pub fn fixed_ok(f: Fixed) -> bool
    ensures { result ≡ fixed_ok_of f }
{
    if THREADS < f.numt {
        return false;
    }
    let room = mask_room(f.numt);
    (1 <= f.numt)
        & (((1 <= f.numw) & (f.numw <= WARPS))
            & ((f.wid < f.numw)
                & ((f.launchMask != 0) & (((f.launchMask as u64) < room) & (f.codeBase % 4 == 0)))))
}

pub fn launch_ok(l: Launch) -> bool
    ensures { result ≡ launch_ok_of l }
{
    let f = l.fixed;
    let fixed = fixed_ok(f);
    fixed & (l.entry % 4 == 0)
}
