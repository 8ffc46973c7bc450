// The instructions: registers, op enums, and one variant for each operand format.
#![tactic(auto)]

pub mod fields;
pub mod kinds;
pub mod masked;

use word::{Cond, Op};

// A scalar register and a vector register: never interchanged.
#[derive(Clone, Copy)]
pub struct XReg(pub u8);

#[derive(Clone, Copy, PartialEq, Eq)]
pub struct VReg(pub u8);

#[derive(Clone, Copy)]
pub enum LoadOp {
    B,
    H,
    W,
    Bu,
    Hu,
}

#[derive(Clone, Copy)]
pub enum StoreOp {
    B,
    H,
    W,
}

#[derive(Clone, Copy)]
pub enum CsrOp {
    Rw,
    Rs,
    Rc,
}

// A vector word's last operand; which it is, is the word's form: VV, VX or VI. A VI form's immediate has 5 bits, behind REGEXTI 11 (Long).
#[derive(Clone, Copy)]
pub enum Source {
    V(VReg),
    X(XReg),
    I(u8),
    Long(u16),
}

// A masked word (vm = 0) writes only where v0's word has bit 0 set.
#[derive(Clone, Copy)]
pub struct VecArgs {
    pub vd: VReg,
    pub vs2: VReg,
    pub src: Source,
    pub masked: bool,
}

// A pending prefix: its kind, 0 where none is pending, 1 REGEXT, 2 REGEXTI, and its 12 bits. Numbers and no Option of an enum: C and a saved state have them so.
#[repr(C)]
#[derive(Clone, Copy, Default)]
pub struct Prefix {
    pub kind: u32,
    pub bits: u32,
}

// What an access by lanes reads or writes: data, or each thread's private part of it.
#[derive(Clone, Copy)]
pub enum Space {
    Plain,
    Private,
}

// Destination first, then rs1, then rs2 (a store: its base, then what it stores), then the immediate as the raw field. A vector word's vs2 comes
// before its last operand; vid.v says first whether it is masked.
#[derive(Clone, Copy)]
pub enum Instr {
    Refused,
    Lui(XReg, u32),
    Auipc(XReg, u32),
    Jal(XReg, u32),
    Jalr(XReg, XReg, u16),
    Branch(Cond, XReg, XReg, u16),
    Load(LoadOp, XReg, XReg, u16),
    Store(StoreOp, XReg, XReg, u16),
    OpImm(Op, XReg, XReg, u16),
    OpReg(Op, XReg, XReg, XReg),
    Fence(u8, u8, u16),
    Csr(CsrOp, XReg, XReg, u16),
    CsrImm(CsrOp, XReg, u8, u16),
    Vector(Op, VecArgs),
    VMove(VReg, Source),
    VMerge(VReg, VReg, Source),
    VMoveXS(XReg, VReg),
    VMoveSX(VReg, XReg),
    Vid(bool, VReg),
    VBranch(Cond, VReg, VReg, u16),
    Join,
    SetRpc(XReg, XReg, u16),
    EndPrg,
    Barrier(u8),
    VLoad(Space, LoadOp, VReg, VReg, u16),
    VStore(Space, StoreOp, VReg, VReg, u16),
    RegExt(u16),
    RegExtI(u16),
}
