// What tells a masked vector word's destination v0, which has the mask, from one that it may write.
ghost use Rattle.std.specs.Prelude.{◌≡◌};
ghost use Rattle.isa.specs.Masked.{is_v0 as isMaskRegister, is_compare};

use crate::VReg;
use word::Op;

pub fn is_v0(r: VReg) -> bool
    ensures { result ≡ isMaskRegister r }
{
    r == VReg(0)
}

// An op that gives 1 or 0.
pub fn is_compare(op: Op) -> bool
    ensures { result ≡ is_compare op }
{
    matches!(
        op,
        Op::Slt | Op::Sltu | Op::Seq | Op::Sne | Op::Sle | Op::Sleu | Op::Sgt | Op::Sgtu
    )
}
