// Decodes the words of its input, four bytes each, and writes a line for each: what it is, its op's number, its fields.
#![tactic(auto)]

use isa::{Instr, Source, Space};
use std::io::Read;

// The words of the input that are read.
const MOST_WORDS: u32 = 65536;

#[derive(Clone, Copy)]
struct Parts {
    kind: [u8; 2],
    op: u8,
    a: u8,
    b: u8,
    c: u8,
    imm: u32,
}

fn source_field(s: Source) -> u8 {
    match s {
        Source::V(r) => r.0,
        Source::X(r) => r.0,
        Source::I(n) => n,
        Source::Long(n) => (n % 32) as u8,
    }
}

fn source_form(s: Source) -> u32 {
    match s {
        Source::V(_) => 0,
        Source::X(_) => 1,
        Source::I(_) => 2,
        Source::Long(_) => 3,
    }
}

fn space_letter(s: Space) -> u8 {
    match s {
        Space::Plain => b'v',
        Space::Private => b'p',
    }
}

fn mask_letter(masked: bool, letter: u8) -> u8 {
    if masked { b'm' } else { letter }
}

fn line(k: u8, l: u8, op: u8, a: u8, b: u8, c: u8, imm: u32) -> Parts {
    Parts {
        kind: [k, l],
        op,
        a,
        b,
        c,
        imm,
    }
}

fn ventus(i: Instr) -> Parts {
    match i {
        Instr::VBranch(o, a, b, n) => line(b'v', b'b', o as u8, 0, a.0, b.0, n as u32),
        Instr::Join => line(b'j', b'n', 0, 0, 0, 0, 0),
        Instr::SetRpc(d, a, n) => line(b'r', b'p', 0, d.0, a.0, 0, n as u32),
        Instr::RegExt(n) => line(b'r', b'x', 0, 0, 0, 0, n as u32),
        Instr::RegExtI(n) => line(b'r', b'i', 0, 0, 0, 0, n as u32),
        Instr::EndPrg => line(b'e', b'p', 0, 0, 0, 0, 0),
        Instr::Barrier(n) => line(b'b', b'a', 0, 0, n, 0, 0),
        Instr::VLoad(s, o, d, a, n) => line(space_letter(s), b'l', o as u8, d.0, a.0, 0, n as u32),
        Instr::VStore(s, o, a, b, n) => line(space_letter(s), b's', o as u8, 0, a.0, b.0, n as u32),
        _ => line(b'-', b'-', 0, 0, 0, 0, 0),
    }
}

fn vector(i: Instr) -> Parts {
    match i {
        Instr::Vector(o, v) => {
            let d = v.vd;
            let b = v.vs2;
            let s = v.src;
            line(
                mask_letter(v.masked, b'v'),
                b'e',
                o as u8,
                d.0,
                source_field(s),
                b.0,
                source_form(s),
            )
        }
        Instr::VMove(d, s) => line(b'v', b'm', 0, d.0, source_field(s), 0, source_form(s)),
        Instr::VMoveXS(d, b) => line(b'x', b's', 0, d.0, 0, b.0, 0),
        Instr::VMoveSX(d, a) => line(b's', b'x', 0, d.0, a.0, 0, 0),
        Instr::VMerge(d, b, s) => line(b'm', b'g', 0, d.0, source_field(s), b.0, source_form(s)),
        Instr::Vid(t, d) => line(mask_letter(t, b'i'), b'd', 0, d.0, 0, 0, 0),
        _ => ventus(i),
    }
}

fn shown(i: Instr) -> Parts {
    match i {
        Instr::Lui(d, n) => line(b'l', b'u', 0, d.0, 0, 0, n),
        Instr::Auipc(d, n) => line(b'a', b'u', 0, d.0, 0, 0, n),
        Instr::Jal(d, n) => line(b'j', b'l', 0, d.0, 0, 0, n),
        Instr::Jalr(d, a, n) => line(b'j', b'r', 0, d.0, a.0, 0, n as u32),
        Instr::Branch(o, a, b, n) => line(b'b', b'r', o as u8, 0, a.0, b.0, n as u32),
        Instr::Load(o, d, a, n) => line(b'l', b'd', o as u8, d.0, a.0, 0, n as u32),
        Instr::Store(o, a, b, n) => line(b's', b't', o as u8, 0, a.0, b.0, n as u32),
        Instr::OpImm(o, d, a, n) => line(b'o', b'i', o as u8, d.0, a.0, 0, n as u32),
        Instr::OpReg(o, d, a, b) => line(b'o', b'r', o as u8, d.0, a.0, b.0, 0),
        Instr::Fence(d, a, n) => line(b'f', b'e', 0, d, a, 0, n as u32),
        Instr::Csr(o, d, a, n) => line(b'c', b'r', o as u8, d.0, a.0, 0, n as u32),
        Instr::CsrImm(o, d, a, n) => line(b'c', b'i', o as u8, d.0, a, 0, n as u32),
        _ => vector(i),
    }
}

fn digit(n: u32) -> u8 {
    let d = (n % 16) as u8;
    if d < 10 { 48 + d } else { 87 + d }
}

// Digits by hand: by `println!` the program took 1.5 times its time. What a write that fails should have written is lost.
fn print(rt: &impl Print, parts: Parts) {
    let Parts {
        kind: [k, l],
        op,
        a,
        b,
        c,
        imm,
    } = parts;
    let [op, a, b, c] = [op, a, b, c].map(u32::from);
    let text = [
        k,
        l,
        b' ',
        digit(op / 16),
        digit(op),
        b' ',
        digit(a / 16),
        digit(a),
        b' ',
        digit(b / 16),
        digit(b),
        b' ',
        digit(c / 16),
        digit(c),
        b' ',
        digit(imm / 1048576),
        digit(imm / 65536),
        digit(imm / 4096),
        digit(imm / 256),
        digit(imm / 16),
        digit(imm),
        b'\n',
    ];
    let _ = rt.write_all(&text);
}

fn main(rt: HostRuntime) {
    let mut input = rt.stdin();
    let mut b = [0u8; 4];
    for _ in 0..MOST_WORDS {
        if input.read_exact(&mut b).is_err() {
            break;
        }
        print(&rt, shown(instruction::decode(u32::from_le_bytes(b))));
    }
}
