// The handlers of jumps, branches, scalar accesses, CSR words, FENCE, AUIPC, JOIN, SETRPC, ENDPRG, BARRIER and the prefixes on the lent words, and what other handlers read and write with.
#![tactic(auto)]

ghost use Rattle.std.specs.Prelude.{◌≡◌, not, cond, List, ℕ, ◌%◌, ◌^◌, ◌<◌, ◌≤◌, ltb, length, get_or};
ghost use Rattle.answer.specs.Answer.{number_of};
ghost use Rattle.word.specs.Word.{add_of, extend_of};
ghost use Rattle.isa.specs.Fields.{fields_of, imm_i, imm_s, imm_b, imm_u, imm_j};
ghost use Rattle.isa.specs.Wide.{xd_in, xs1_in, xs2_in, of_register, csr_wide, csr_source};
ghost use Rattle.isa.specs.Kinds.{cond_of, load_op_of, store_op_of, csr_op_of};
ghost use Rattle.memory.specs.Memories.{Contents, contents, memories, MemoriesOk};
ghost use Rattle.warp.specs.Warp.{split_count, pends};
ghost use Rattle.warp.specs.Facts.{FixedOk};
ghost use Rattle.layout.specs.Words.{moving_count, flat_count, pc_in, depth_in, fixed_in};
ghost use Rattle.running.specs.Goes.{Goes};
ghost use Rattle.definition.specs.Refuse.{no_csr};
ghost use Rattle.definition.specs.Step.{exec_of};
ghost use Rattle.handlers.specs.Handles.{lists, Handles, puts_in};

use answer::Refusal;
use isa::fields::{imm_i, imm_s};
use isa::{Instr, fields};
use layout::{DATABASE, DEPTH, ENDED, FIXED, FLAT, LDS, MOVING, NUMT, PC, SCALARS, WAITING};

// ---- what a handler reads

// The PC and an offset of `bits` bits.
pub fn offset(h: &[u32; MOVING], bits: u32, n: u32) -> u32
    requires { (1 ≤ bits) × (bits ≤ 31) × (n < 2 ^ bits) }
    ensures { result ≡ add_of (pc_in h.now) (extend_of bits n) }
{
    word::add(h[PC], word::extend(bits, n))
}

pub fn threads(g: &[u32; FIXED]) -> usize
    ensures { result ≡ (fixed_in g.now).numt }
{
    layout::wide(g[NUMT])
}

pub fn first(x: &[u32; SCALARS], w: u64) -> u32
    ensures { result ≡ get_or x.now (xs1_in w).0 0 }
{
    running::get_x(x, fields::xs1(w))
}

pub fn second(x: &[u32; SCALARS], w: u64) -> u32
    ensures { result ≡ get_or x.now (xs2_in w).0 0 }
{
    running::get_x(x, fields::xs2(w))
}

pub fn immediate(w: u64) -> u32
    ensures { result ≡ extend_of 12 (imm_i (fields_of w)) }
{
    word::extend(12, imm_i(w) as u32)
}

// A shift's amount: five bits, so that sign extension from twelve changes nothing.
pub fn amount(w: u64) -> u32
    ensures { result ≡ extend_of 12 (fields_of w).rs2 }
{
    fields::shift_amount(w) as u32
}

// ---- the warp alone

// PC + 4 and nothing else.
pub fn on(h: &mut [u32; MOVING], w: u64)
    requires { length h.old ≡ moving_count }
    ensures { (g x s v : List ℕ) (d : Contents) → length s ≡ flat_count → Handles (exec_of (Instr.Fence (fields_of w).rd (fields_of w).rs1 (imm_i (fields_of w)))) 0 (lists g h.old x s v d) (lists g h.new x s v d) }
{
    running::next(h);
}

// y goes to rd, and the PC to PC + 4. It is the first argument: with x lent before it the prover's walk does not cover the call.
pub fn gives(y: u32, h: &mut [u32; MOVING], x: &mut [u32; SCALARS], w: u64)
    requires { length h.old ≡ moving_count }
    ensures { (g s : List ℕ) → length s ≡ flat_count → Goes (puts_in (xd_in w) y) g h.old x.old s h.new x.new s }
{
    running::put_x(x, fields::xd(w), y);
    running::next(h);
}

// A prefix: it is pending for the next word, and the PC goes to PC + 4.
pub fn pend(kind: u32, h: &mut [u32; MOVING], w: u64)
    requires { length h.old ≡ moving_count }
    ensures { (g x s : List ℕ) → length s ≡ flat_count → Goes (pends kind (imm_i (fields_of w))) g h.old x s h.new x s }
{
    running::put_prefix(h, kind, imm_i(w) as u32);
    running::next(h);
}

pub fn auipc(h: &mut [u32; MOVING], x: &mut [u32; SCALARS], w: u64)
    requires { length h.old ≡ moving_count }
    ensures { (g s v : List ℕ) (d : Contents) → length s ≡ flat_count → Handles (exec_of (Instr.Auipc (xd_in w) (imm_u (fields_of w)))) 0 (lists g h.old x.old s v d) (lists g h.new x.new s v d) }
{
    let y = word::add(h[PC], fields::imm_u(w) * 4096);
    gives(y, h, x, w);
}

pub fn jal(h: &mut [u32; MOVING], x: &mut [u32; SCALARS], w: u64) -> Result<(), Refusal>
    requires { length h.old ≡ moving_count }
    ensures { (g s v : List ℕ) (d : Contents) → length s ≡ flat_count → Handles (exec_of (Instr.Jal (xd_in w) (imm_j (fields_of w)))) (number_of result) (lists g h.old x.old s v d) (lists g h.new x.new s v d) }
{
    let p = offset(h, 21, fields::imm_j(w));
    if p % 4 != 0 {
        return Err(Refusal::BadTarget);
    }
    running::link(h, x, fields::xd(w), p);
    Ok(())
}

// Bit 0 of the target is cleared first.
pub fn jalr(h: &mut [u32; MOVING], x: &mut [u32; SCALARS], w: u64) -> Result<(), Refusal>
    requires { length h.old ≡ moving_count }
    ensures { (g s v : List ℕ) (d : Contents) → length s ≡ flat_count → Handles (exec_of (Instr.Jalr (xd_in w) (xs1_in w) (imm_i (fields_of w)))) (number_of result) (lists g h.old x.old s v d) (lists g h.new x.new s v d) }
{
    let a = memory::plain_address(first(x, w), imm_i(w));
    let p = a - a % 2;
    if p % 4 != 0 {
        return Err(Refusal::BadTarget);
    }
    running::link(h, x, fields::xd(w), p);
    Ok(())
}

pub fn branch(h: &mut [u32; MOVING], x: &[u32; SCALARS], w: u64) -> Result<(), Refusal>
    requires { length h.old ≡ moving_count }
    ensures { (g s v : List ℕ) (d : Contents) → length s ≡ flat_count → Handles (exec_of (Instr.Branch (cond_of (fields_of w)) (xs1_in w) (xs2_in w) (imm_b (fields_of w)))) (number_of result) (lists g h.old x.now s v d) (lists g h.new x.now s v d) }
{
    if !word::holds(fields::cond(w), first(x, w), second(x, w)) {
        running::next(h);
        return Ok(());
    }
    let p = offset(h, 13, fields::imm_b(w) as u32);
    if p % 4 != 0 {
        return Err(Refusal::BadTarget);
    }
    running::go_to(h, p);
    Ok(())
}

pub fn setrpc(h: &mut [u32; MOVING], x: &mut [u32; SCALARS], w: u64)
    requires { length h.old ≡ moving_count }
    ensures { (g s v : List ℕ) (d : Contents) → length s ≡ flat_count → Handles (exec_of (Instr.SetRpc (xd_in w) (xs1_in w) (imm_i (fields_of w)))) 0 (lists g h.old x.old s v d) (lists g h.new x.new s v d) }
{
    running::setrpc(h, x, fields::xd(w), fields::xs1(w), imm_i(w));
}

// By which CSRRS and CSRRC write: the register's number, or the field itself.
fn csr_source(w: u64) -> u8
    ensures { result ≡ csr_source w }
{
    let number = fields::xs1(w).0;
    let field = fields::rs1(w);
    if fields::funct3(w) < 4 {
        return number;
    }
    field
}

// A CSR word's operand: a register's word, or the field itself.
fn csr_operand(x: &[u32; SCALARS], w: u64) -> u32
    ensures { result ≡ cond (of_register w) (get_or x.now (xs1_in w).0 0) (fields_of w).rs1 }
{
    if fields::funct3(w) < 4 {
        return first(x, w);
    }
    fields::rs1(w) as u32
}

// There is a CSR of this number, and it is PRINT or RPC or the word doesn't write it.
fn csr_ok(w: u64) -> bool
    ensures { result ≡ not (no_csr (csr_op_of (fields_of w)) (imm_i (fields_of w)) (csr_source w)) }
{
    let n = imm_i(w);
    if n < 0x800 {
        return false;
    }
    if 0x80c < n {
        return false;
    }
    if 0x80b <= n {
        return true;
    }
    !running::csr_writes(fields::csr_op(w), csr_source(w))
}

pub fn csr(
    h: &mut [u32; MOVING],
    g: &[u32; FIXED],
    x: &mut [u32; SCALARS],
    w: u64,
) -> Result<(), Refusal>
    requires { (length h.old ≡ moving_count) × FixedOk (fixed_in g.now) }
    ensures { (s v : List ℕ) (d : Contents) → length s ≡ flat_count → Handles (exec_of (csr_wide w)) (number_of result) (lists g.now h.old x.old s v d) (lists g.now h.new x.new s v d) }
{
    if !csr_ok(w) {
        return Err(Refusal::BadCsr);
    }
    let y = csr_operand(x, w);
    running::csr(
        h,
        g,
        x,
        fields::csr_op(w),
        imm_i(w),
        fields::xd(w),
        csr_source(w),
        y,
    );
    Ok(())
}

pub fn end(h: &mut [u32; MOVING]) -> Result<(), Refusal>
    requires { length h.old ≡ moving_count }
    ensures { (g x s v : List ℕ) (d : Contents) → length s ≡ flat_count → Handles (exec_of Instr.EndPrg) (number_of result) (lists g h.old x s v d) (lists g h.new x s v d) }
{
    if h[DEPTH] != 0 {
        return Err(Refusal::SplitOpen);
    }
    h[ENDED] = 1;
    h[WAITING] = 0;
    Ok(())
}

pub fn barrier(h: &mut [u32; MOVING], w: u64) -> Result<(), Refusal>
    requires { length h.old ≡ moving_count }
    ensures { (g x s v : List ℕ) (d : Contents) → length s ≡ flat_count → Handles (exec_of (Instr.Barrier (fields_of w).rs1)) (number_of result) (lists g h.old x s v d) (lists g h.new x s v d) }
{
    if h[DEPTH] != 0 {
        return Err(Refusal::SplitOpen);
    }
    h[ENDED] = 0;
    h[WAITING] = 1;
    running::next(h);
    Ok(())
}

pub fn join(h: &mut [u32; MOVING], s: &mut [u32; FLAT])
    requires { (length h.old ≡ moving_count) × (length s.old ≡ flat_count) × (depth_in h.old ≤ split_count) }
    ensures { (g x v : List ℕ) (d : Contents) → Handles (exec_of Instr.Join) 0 (lists g h.old x s.old v d) (lists g h.new x s.new v d) }
{
    splits::join(h, s);
}

// ---- scalar accesses

pub fn load(
    h: &mut [u32; MOVING],
    g: &[u32; FIXED],
    x: &mut [u32; SCALARS],
    d: &[u8],
    l: &[u8],
    w: u64,
) -> Result<(), Refusal>
    requires { (length h.old ≡ moving_count) × MemoriesOk (memories (fixed_in g.now).dataBase (fixed_in g.now).lds (contents d.now l.now)) }
    ensures { (s v : List ℕ) → length s ≡ flat_count → Handles (exec_of (Instr.Load (load_op_of (fields_of w)) (xd_in w) (xs1_in w) (imm_i (fields_of w)))) (number_of result) (lists g.now h.old x.old s v (contents d.now l.now)) (lists g.now h.new x.new s v (contents d.now l.now)) }
{
    let p = memory::plain_address(first(x, w), imm_i(w));
    let found = access::scalar_load(d, g[DATABASE], l, g[LDS], fields::load_op(w), p);
    match found {
        Some(y) => Ok(gives(y, h, x, w)),
        None => Err(Refusal::Outside),
    }
}

pub fn store(
    h: &mut [u32; MOVING],
    g: &[u32; FIXED],
    x: &[u32; SCALARS],
    d: &mut [u8],
    l: &mut [u8],
    w: u64,
) -> Result<(), Refusal>
    requires { (length h.old ≡ moving_count) × MemoriesOk (memories (fixed_in g.now).dataBase (fixed_in g.now).lds (contents d.old l.old)) }
    ensures { (s v : List ℕ) → length s ≡ flat_count → Handles (exec_of (Instr.Store (store_op_of (fields_of w)) (xs1_in w) (xs2_in w) (imm_s (fields_of w)))) (number_of result) (lists g.now h.old x.now s v (contents d.old l.old)) (lists g.now h.new x.now s v (contents d.new l.new)) }
{
    let p = memory::plain_address(first(x, w), imm_s(w));
    if access::scalar_store(
        d,
        g[DATABASE],
        l,
        g[LDS],
        fields::store_op(w),
        p,
        second(x, w),
    ) {
        running::next(h);
        return Ok(());
    }
    Err(Refusal::Outside)
}
