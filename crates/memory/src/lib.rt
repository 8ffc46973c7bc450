// The memories' types, and what needs no memory at hand: sizes of accesses, the address of a plain one.
#![tactic(auto)]

ghost use Rattle.std.specs.Prelude.{◌≡◌, ◌<◌, ◌≤◌};
ghost use Rattle.isa.specs.declared.Space.TheVariants as spaces;
ghost use Rattle.memory.specs.Memory.{size_of, width_of};
ghost use Rattle.memory.specs.Address.{plain_of, offset_limit};

use isa::{LoadOp, StoreOp};

// What a private address takes from the launch.
#[derive(Clone, Copy)]
pub struct Private {
    pub numt: u32,
    pub pds: u32,
}

pub fn size(k: LoadOp) -> usize
    ensures { (result ≡ size_of k) × (1 ≤ result) × (result ≤ 4) }
{
    match k {
        LoadOp::B | LoadOp::Bu => 1,
        LoadOp::H | LoadOp::Hu => 2,
        LoadOp::W => 4,
    }
}

pub fn width(k: StoreOp) -> usize
    ensures { (result ≡ width_of k) × (1 ≤ result) × (result ≤ 4) }
{
    match k {
        StoreOp::B => 1,
        StoreOp::H => 2,
        StoreOp::W => 4,
    }
}

// The address of a plain access, by a scalar or by a lane.
pub fn plain_address(x: u32, off: u16) -> u32
    requires { off < offset_limit spaces.Plain }
    ensures { result ≡ plain_of x off }
{
    word::add(x, word::extend(12, u32::from(off)))
}
