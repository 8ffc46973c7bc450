// What a row of the vector tables does to the lent words: a handler a row, and the accesses by lanes.
#![tactic(auto)]

ghost use Rattle.std.specs.Prelude.{◌≡◌, not, cond, List, [], ◌∷◌, ℕ, ◌+◌, ◌%◌, ◌<◌, ◌≤◌, eqb, length};
ghost use Rattle.std.specs.Int.Count.{ones};
ghost use Rattle.answer.specs.Answer.{number_of};
ghost use Rattle.word.specs.Word.{extend_of};
ghost use Rattle.isa.specs.Fields.{fields_of, is_masked, imm_b};
ghost use Rattle.isa.specs.Masked.{over_mask};
ghost use Rattle.isa.specs.Prefix.{on_source, on_fields};
ghost use Rattle.isa.specs.Wide.{is_long, long_in, numbers_in, xd_in, xs1_in, vd_in, vs1_in, vs2_in};
ghost use Rattle.isa.specs.Number.{op_at};
ghost use Rattle.isa.specs.Kinds.{cond_of, lane_op_word, op_limit};
ghost use Rattle.isa.specs.Kinds.{source_in};
ghost use Rattle.lanes.specs.Rows.{OperandOk, RowOf};
ghost use Rattle.memory.specs.Memories.{Contents, contents, MemoriesOk};
ghost use Rattle.memory.specs.Address.{offset_limit};
ghost use Rattle.lanes.specs.Lanes.{lanes_max, file_words, written_lanes, mask_of};
ghost use Rattle.warp.specs.Facts.{FixedOk};
ghost use Rattle.layout.specs.Words.{flat_count, mask_in, depth_in, fixed_in, warp_of};
ghost use Rattle.running.specs.Goes.{next_in};
ghost use Rattle.definition.specs.State.{state, memories_in, private_in};
ghost use Rattle.definition.specs.Exec.{source_of};
ghost use Rattle.definition.specs.Step.{exec_of};
ghost use Rattle.handlers.specs.Handles.{lists, Handles};
ghost use Rattle.lane_handlers.specs.Lanes.{LanesAt, Lanes, address_at, in_words, LaneLoad, LaneStore};

use answer::Refusal;
use handlers::{first, gives, offset, threads};
use isa::masked::{is_compare, is_v0};
use isa::{Instr, Space, fields, kinds};
use lanes::{LANES, Operand};
use layout::{DATABASE, FIXED, FLAT, LDS, MASK, MOVING, NUMT, PDS, SCALARS};
use memory::Private;
use word::Op;

// ---- what a handler reads

// A VI form's immediate, sign-extended: of 5 bits, behind REGEXTI of 11.
fn vi_immediate(w: u64) -> u32
    ensures { result ≡ cond (is_long w) (extend_of 11 (long_in w (fields_of w).rs1)) (extend_of 5 (fields_of w).rs1) }
{
    if fields::long(w) {
        return word::extend(11, fields::long_immediate(w) as u32);
    }
    word::extend(5, fields::rs1(w) as u32)
}

// A vector word's last operand, an immediate sign-extended whatever the operation: a shift looks at the low five bits only.
fn operand(x: &[u32; SCALARS], w: u64) -> Operand
    ensures { OperandOk result × ((g h s v : List ℕ) (d : Contents) → result ≡ source_of extend_of (on_source (numbers_in w) (source_in (fields_of w))) (state (warp_of g h x.now s) v d)) }
{
    let funct3 = fields::funct3(w);
    match funct3 {
        0b000 => Operand::Reg(fields::vs1(w)),
        0b010 => Operand::Reg(fields::vs1(w)),
        0b011 => Operand::Word(vi_immediate(w)),
        _ => Operand::Word(first(x, w)),
    }
}

// What the private rule takes from the launch.
fn private(g: &[u32; FIXED]) -> Private
    ensures { result ≡ private_in (fixed_in g.now) }
{
    Private {
        numt: g[NUMT],
        pds: g[PDS],
    }
}

// ---- lane by lane

// A masked word, no compare, whose destination is v0.
fn over_mask(op: Op, w: u64) -> bool
    ensures { result ≡ over_mask (on_fields (numbers_in w) (lane_op_word op (fields_of w))) }
{
    if fields::masked(w) {
        return is_v0(fields::vd(w)) & !is_compare(op);
    }
    false
}

// The lanes that a vector word writes: the active ones; of a masked word those whose word in v0 has bit 0 set.
fn written(mask: u32, g: &[u32; FIXED], v: &[u32], w: u64) -> u32
    requires { LanesAt mask g.now v.now }
    ensures { result ≡ mask_of (fixed_in g.now).numt (written_lanes (is_masked (fields_of w)) v.now mask) }
{
    if fields::masked(w) {
        return lane_masks::masked_lanes(v, mask, threads(g));
    }
    mask
}

// The operand is taken apart here: handed on as one value, it makes every scalar step a quarter slower (docs/SPEED.md).
pub fn vector(
    h: &mut [u32; MOVING],
    g: &[u32; FIXED],
    x: &[u32; SCALARS],
    v: &mut [u32],
    kind: u32,
    w: u64,
) -> Result<(), Refusal>
    requires { Lanes g.now h.old v.old }
    ensures { (s : List ℕ) (d : Contents) → length s ≡ flat_count → Handles (exec_of (on_fields (numbers_in w) (lane_op_word (op_at (kind % op_limit)) (fields_of w)))) (number_of result) (lists g.now h.old x.now s v.old d) (lists g.now h.new x.now s v.new d) }
{
    let op = fields::op_at(kind % kinds::OPS);
    if over_mask(op, w) {
        return Err(Refusal::Unknown);
    }
    let mask = written(h[MASK], g, v, w);
    let b = operand(x, w);
    let n = threads(g);
    let d = fields::vd(w);
    let a = fields::vs2(w);
    match b {
        Operand::Reg(r) => lane_ops::op_lanes(v, mask, n, op, d, a, Operand::Reg(r)),
        Operand::Word(y) => lane_ops::op_lanes(v, mask, n, op, d, a, Operand::Word(y)),
    }
    running::next(h);
    Ok(())
}

// vmv.v, from any source.
pub fn vmove(h: &mut [u32; MOVING], g: &[u32; FIXED], x: &[u32; SCALARS], v: &mut [u32], w: u64)
    requires { Lanes g.now h.old v.old }
    ensures { (s : List ℕ) (d : Contents) → length s ≡ flat_count → Handles (exec_of (Instr.VMove (vd_in w) (on_source (numbers_in w) (source_in (fields_of w))))) 0 (lists g.now h.old x.now s v.old d) (lists g.now h.new x.now s v.new d) }
{
    let b = operand(x, w);
    lanes::move_lanes(v, h[MASK], threads(g), fields::vd(w), b);
    running::next(h);
}

// vmerge, which is masked and yet writes every active lane.
pub fn vmerge(
    h: &mut [u32; MOVING],
    g: &[u32; FIXED],
    x: &[u32; SCALARS],
    v: &mut [u32],
    w: u64,
) -> Result<(), Refusal>
    requires { Lanes g.now h.old v.old }
    ensures { (s : List ℕ) (d : Contents) → length s ≡ flat_count → Handles (exec_of (Instr.VMerge (vd_in w) (vs2_in w) (on_source (numbers_in w) (source_in (fields_of w))))) (number_of result) (lists g.now h.old x.now s v.old d) (lists g.now h.new x.now s v.new d) }
{
    let d = fields::vd(w);
    if is_v0(d) {
        return Err(Refusal::Unknown);
    }
    let b = operand(x, w);
    lane_masks::merge_lanes(v, h[MASK], threads(g), d, fields::vs2(w), b);
    running::next(h);
    Ok(())
}

// vmv.s.x, which acts as vmv.v.x.
pub fn vmove_sx(h: &mut [u32; MOVING], g: &[u32; FIXED], x: &[u32; SCALARS], v: &mut [u32], w: u64)
    requires { Lanes g.now h.old v.old }
    ensures { (s : List ℕ) (d : Contents) → length s ≡ flat_count → Handles (exec_of (Instr.VMoveSX (vd_in w) (xs1_in w))) 0 (lists g.now h.old x.now s v.old d) (lists g.now h.new x.now s v.new d) }
{
    let y = first(x, w);
    lanes::move_lanes(v, h[MASK], threads(g), fields::vd(w), Operand::Word(y));
    running::next(h);
}

pub fn vid(h: &mut [u32; MOVING], g: &[u32; FIXED], v: &mut [u32], w: u64) -> Result<(), Refusal>
    requires { Lanes g.now h.old v.old }
    ensures { (x s : List ℕ) (d : Contents) → length s ≡ flat_count → Handles (exec_of (Instr.Vid (is_masked (fields_of w)) (vd_in w))) (number_of result) (lists g.now h.old x s v.old d) (lists g.now h.new x s v.new d) }
{
    let d = fields::vd(w);
    if fields::masked(w) & is_v0(d) {
        return Err(Refusal::Unknown);
    }
    let on = written(h[MASK], g, v, w);
    lanes::id_lanes(v, on, threads(g), d);
    running::next(h);
    Ok(())
}

// vmv.x.s.
pub fn vmove_xs(
    h: &mut [u32; MOVING],
    g: &[u32; FIXED],
    x: &mut [u32; SCALARS],
    v: &[u32],
    w: u64,
) -> Result<(), Refusal>
    requires { Lanes g.now h.old v.now }
    ensures { (s : List ℕ) (d : Contents) → length s ≡ flat_count → Handles (exec_of (Instr.VMoveXS (xd_in w) (vs2_in w))) (number_of result) (lists g.now h.old x.old s v.now d) (lists g.now h.new x.new s v.now d) }
{
    let held = lanes::uniform(v, h[MASK], threads(g), fields::vs2(w));
    if held.uniform {
        return Ok(gives(held.value, h, x, w));
    }
    Err(Refusal::Differing)
}

pub fn vbranch(
    h: &mut [u32; MOVING],
    g: &[u32; FIXED],
    s: &mut [u32; FLAT],
    v: &[u32],
    w: u64,
) -> Result<(), Refusal>
    requires { Lanes g.now h.old v.now × (length s.old ≡ flat_count) × (depth_in h.old + ones (mask_in h.old) ≤ lanes_max) }
    ensures { (x : List ℕ) (d : Contents) → Handles (exec_of (Instr.VBranch (cond_of (fields_of w)) (vs1_in w) (vs2_in w) (imm_b (fields_of w)))) (number_of result) (lists g.now h.old x s.old v.now d) (lists g.now h.new x s.new v.now d) }
{
    let e = lanes::else_mask(
        v,
        h[MASK],
        threads(g),
        fields::cond(w),
        fields::vs1(w),
        fields::vs2(w),
    );
    let p = offset(h, 13, fields::imm_b(w) as u32);
    if (e != 0) & (p % 4 != 0) {
        return Err(Refusal::BadTarget);
    }
    splits::part(h, s, e, p);
    Ok(())
}

// ---- lane accesses, plain or private

// Some active lane's private access of `size` bytes crosses a word boundary.
fn some_crosses(
    space: Space,
    off: u16,
    mask: u32,
    g: &[u32; FIXED],
    v: &[u32],
    w: u64,
    size: usize,
) -> bool
    requires { LanesAt mask g.now v.now × (off < offset_limit space) × (size ≤ 4) }
    ensures { result ≡ not (in_words space size off mask w g.now v.now) }
{
    !lane_address::all_in_word(space, v, fields::vs1(w), off, size, mask, threads(g))
}

// Where the lanes' accesses go.
fn lane_addresses(space: Space, off: u16, g: &[u32; FIXED], v: &[u32], w: u64) -> [u32; LANES]
    requires { (length v.now ≡ file_words) × FixedOk (fixed_in g.now) × (off < offset_limit space) }
    ensures { RowOf (fixed_in g.now).numt (address_at space off w g.now v.now) result }
{
    lane_address::addresses(space, private(g), v, fields::vs1(w), off, threads(g))
}

// The compiler leaves vload and vstore as calls; lent the moving words h, they would keep them in memory for the whole loop (docs/SPEED.md).
pub fn vload(
    space: Space,
    off: u16,
    mask: u32,
    g: &[u32; FIXED],
    v: &mut [u32],
    d: &[u8],
    l: &[u8],
    w: u64,
) -> Result<(), Refusal>
    requires { LanesAt mask g.now v.old × MemoriesOk (memories_in (fixed_in g.now) (contents d.now l.now)) × (off < offset_limit space) }
    ensures { LaneLoad (number_of result) space off mask w g.now v.old (contents d.now l.now) v.new }
{
    let k = fields::load_op(w);
    if some_crosses(space, off, mask, g, v, w, memory::size(k)) {
        return Err(Refusal::Crossing);
    }
    let o = lane_addresses(space, off, g, v, w);
    let n = threads(g);
    let base = g[DATABASE];
    let near = g[LDS];
    if !lane_memory::load_lanes(v, mask, n, k, d, base, l, near, &o, fields::vd(w)) {
        return Err(Refusal::Outside);
    }
    Ok(())
}

pub fn vstore(
    space: Space,
    off: u16,
    mask: u32,
    g: &[u32; FIXED],
    v: &[u32],
    d: &mut [u8],
    l: &mut [u8],
    w: u64,
) -> Result<(), Refusal>
    requires { LanesAt mask g.now v.now × MemoriesOk (memories_in (fixed_in g.now) (contents d.old l.old)) × (off < offset_limit space) }
    ensures { LaneStore (number_of result) space off mask w g.now v.now (contents d.old l.old) (contents d.new l.new) }
{
    let k = fields::lane_store_op(w);
    if some_crosses(space, off, mask, g, v, w, memory::width(k)) {
        return Err(Refusal::Crossing);
    }
    let o = lane_addresses(space, off, g, v, w);
    let n = threads(g);
    let base = g[DATABASE];
    let near = g[LDS];
    lane_memory::store_lanes(v, mask, n, k, d, base, l, near, &o, fields::vs2(w))
}
