// One step on the lent words: the tests before a word, its row, and the row's handler.
#![tactic(auto)]

ghost use Rattle.std.specs.Prelude.{◌≡◌, true, List, [], ◌∷◌, ◌++◌, ℕ, ◌+◌, ◌*◌, ◌^◌, ◌≤◌, length, get_or};
ghost use Rattle.std.specs.Result.{result_unwrap_or};
ghost use Rattle.answer.specs.Answer.{refusal_of, number_of};
ghost use Rattle.answer.specs.Rows.{◌⇒◌, first};
ghost use Rattle.isa.specs.Fields.{fields_of};
ghost use Rattle.isa.specs.Table.{word_at};
ghost use Rattle.isa.specs.Kinds.{lane_groups, of_registers, of_immediates, instr_of};
ghost use Rattle.isa.specs.Wide.{wide_of};
ghost use Rattle.memory.specs.Memories.{contents};
ghost use Rattle.warp.specs.WellFormed.{prefix_ok_of};
ghost use Rattle.isa.specs.Prefix.{no_prefix};
ghost use Rattle.warp.specs.Warp.{with_prefix};
ghost use Rattle.layout.specs.Words.{flat_count, moving_count, is_set, prefix_at, ended_in, waiting_in, prefix_in, fixed_in, warp_of};
ghost use Rattle.running.specs.Goes.{Goes};
ghost use Rattle.definition.specs.Step.{exec_of, step_of, fetched, fetch_of};
ghost use Rattle.handlers.specs.Handles.{lists, Handles};
ghost use Rattle.exec.specs.Ready.{Ready, Started, Lies, Widens};

use answer::Refusal;
use handlers::{
    auipc, barrier, branch, csr, end, gives, jal, jalr, join, load, on, pend, setrpc, store,
};
use isa::fields::{imm_i, imm_s, private_load_offset, private_store_offset};
use isa::{Space, fields, kinds};
use lane_handlers::{vbranch, vector, vid, vload, vmerge, vmove, vmove_sx, vmove_xs, vstore};
use layout::{
    BITS, CODEBASE, ENDED, FIXED, FLAT, MASK, MOVING, PC, PREFIX, SCALARS, WAITING, WarpWords,
};
use scalar_ops::op_reg;

// ---- the rows

// A word of splits or of lanes.
fn lane_word(
    h: &mut [u32; MOVING],
    g: &[u32; FIXED],
    x: &mut [u32; SCALARS],
    s: &mut [u32; FLAT],
    v: &mut [u32],
    d: &mut [u8],
    l: &mut [u8],
    kind: u32,
    w: u64,
) -> Result<(), Refusal>
    requires { Ready (lists g.now h.old x.old s.old v.old (contents d.old l.old)) × (instr_of kind w ≡ word_at (fields_of w) kind (lane_groups ++ of_registers ++ of_immediates)) }
    ensures { Handles (exec_of (wide_of kind w)) (number_of result) (lists g.now h.old x.old s.old v.old (contents d.old l.old)) (lists g.now h.new x.new s.new v.new (contents d.new l.new)) }
{
    let mask = h[MASK];
    match kind {
        kinds::VBRANCH => vbranch(h, g, s, v, w),
        kinds::SETRPC => Ok(setrpc(h, x, w)),
        kinds::VLOAD => {
            vload(Space::Plain, imm_i(w), mask, g, v, d, l, w)?;
            Ok(running::next(h))
        }
        kinds::VSTORE => {
            vstore(Space::Plain, imm_s(w), mask, g, v, d, l, w)?;
            Ok(running::next(h))
        }
        kinds::PLOAD => {
            vload(Space::Private, private_load_offset(w), mask, g, v, d, l, w)?;
            Ok(running::next(h))
        }
        kinds::PSTORE => {
            vstore(Space::Private, private_store_offset(w), mask, g, v, d, l, w)?;
            Ok(running::next(h))
        }
        kinds::JOIN => Ok(join(h, s)),
        kinds::ENDPRG => end(h),
        kinds::BARRIER => barrier(h, w),
        kinds::VMOVE_XS => vmove_xs(h, g, x, v, w),
        kinds::VMOVE_SX => Ok(vmove_sx(h, g, x, v, w)),
        kinds::VID => vid(h, g, v, w),
        kinds::VMOVE => Ok(vmove(h, g, x, v, w)),
        kinds::REGEXT => Ok(pend(prefix::REGEXT, h, w)),
        kinds::REGEXTI => Ok(pend(prefix::REGEXTI, h, w)),
        kinds::VMERGE => vmerge(h, g, x, v, w),
        _ => op_reg(h, x, kind, w),
    }
}

// The word w, whose row is `kind`. The warp's words come in their parts, since each handler takes only those that it needs.
fn exec(
    h: &mut [u32; MOVING],
    g: &[u32; FIXED],
    x: &mut [u32; SCALARS],
    s: &mut [u32; FLAT],
    v: &mut [u32],
    d: &mut [u8],
    l: &mut [u8],
    kind: u32,
    w: u64,
) -> Result<(), Refusal>
    requires { Ready (lists g.now h.old x.old s.old v.old (contents d.old l.old)) }
    ensures { Handles (exec_of (wide_of kind w)) (number_of result) (lists g.now h.old x.old s.old v.old (contents d.old l.old)) (lists g.now h.new x.new s.new v.new (contents d.new l.new)) }
{
    if kinds::VECTOR <= kind {
        return vector(h, g, x, v, kind, w);
    }
    match kind {
        kinds::LUI => Ok(gives(fields::imm_u(w) * 4096, h, x, w)),
        kinds::AUIPC => Ok(auipc(h, x, w)),
        kinds::JAL => jal(h, x, w),
        kinds::JALR => jalr(h, x, w),
        kinds::BRANCH => branch(h, x, w),
        kinds::LOAD => load(h, g, x, d, l, w),
        kinds::STORE => store(h, g, x, d, l, w),
        kinds::FENCE => Ok(on(h, w)),
        kinds::CSR => csr(h, g, x, w),
        _ => lane_word(h, g, x, s, v, d, l, kind, w),
    }
}

// ---- the step

// Why a warp that has ended or waits takes no step.
fn stop_reason(h: &[u32; MOVING]) -> Refusal
    requires { ended_in h.now ≡ 0 → waiting_in h.now ≡ 0 → ⊥ }
    ensures { refusal_of result ≡ first (3 ⇒ is_set (ended_in h.now) ∷ 4 ⇒ is_set (waiting_in h.now) ∷ []) }
{
    if h[ENDED] != 0 {
        return Refusal::Ended;
    }
    Refusal::Waiting
}

// Which kernel word the PC lies on: a PC before the code wraps to a place after it, since code ends at 2^32 at the latest.
fn place(pc: u32, base: u32) -> usize
    ensures { Lies pc base result }
{
    layout::wide(word::sub(pc, base) / 4)
}

// The tests 3 to 5, and the word that the PC lies on.
pub fn fetch(h: &[u32; MOVING], g: &[u32; FIXED], k: &[u32]) -> Result<u32, Refusal>
    requires { (fixed_in g.now).codeBase + 4 * length k.now ≤ 2 ^ 32 }
    ensures { (x s : List ℕ) → fetched (number_of result) (result_unwrap_or result 0) ≡ fetch_of k.now (warp_of g.now h.now x s) }
{
    if (h[ENDED] | h[WAITING]) != 0 {
        return Err(stop_reason(h));
    }
    let at = place(h[PC], g[CODEBASE]);
    if k.len() <= at {
        return Err(Refusal::OffKernel);
    }
    Ok(k[at])
}

// The word w with the numbers of its registers above it. Where a prefix is pending the word has to take it.
fn widened(h: &[u32; MOVING], w: u32) -> Result<u64, Refusal>
    requires { prefix_ok_of (prefix_in h.now) ≡ true }
    ensures { Widens (prefix_in h.now) w (number_of result) (result_unwrap_or result 0) }
{
    let kind = h[PREFIX];
    if kind == 0 {
        return Ok(fields::plain(w));
    }
    let bits = h[BITS];
    if !prefix::takes(kind, bits, w) {
        return Err(Refusal::Unknown);
    }
    Ok(prefix::widen(kind, bits, w))
}

// No prefix is pending any more. Where none was, nothing is written: the loop over steps then keeps both words as they are (docs/SPEED.md).
fn use_up(h: &mut [u32; MOVING])
    requires { (length h.old ≡ moving_count) × (get_or h.old prefix_at 0 ≡ 0 → prefix_in h.old ≡ no_prefix) }
    ensures { (g x s : List ℕ) → length s ≡ flat_count → Goes (with_prefix no_prefix) g h.old x s h.new x s }
{
    if h[PREFIX] == 0 {
        return;
    }
    running::put_prefix(h, 0, 0);
}

// The tests of a step after 1 and 2, and the instruction. A run has tested the sizes and the warp once, and every step keeps them.
// It has one caller, the loop of a run: the compiler then makes one function of loop, decoder and handlers (docs/SPEED.md).
// The moving words are that loop's own, beside the others: those of `ws` are not looked at.
pub fn step(
    m: &mut [u32; MOVING],
    ws: &mut WarpWords,
    k: &[u32],
    v: &mut [u32],
    d: &mut [u8],
    l: &mut [u8],
) -> Result<(), Refusal>
    requires { Started k.now (lists ws.old.fixed m.old ws.old.scalars ws.old.splits v.old (contents d.old l.old)) }
    ensures { (ws.new.fixed ≡ ws.old.fixed) × Handles (step_of k.now) (number_of result) (lists ws.old.fixed m.old ws.old.scalars ws.old.splits v.old (contents d.old l.old)) (lists ws.new.fixed m.new ws.new.scalars ws.new.splits v.new (contents d.new l.new)) }
{
    let w = fetch(m, &ws.fixed, k)?;
    let wide = widened(m, w)?;
    let kind = m[PREFIX];
    let bits = m[BITS];
    use_up(m);
    let done = exec(
        m,
        &ws.fixed,
        &mut ws.scalars,
        &mut ws.splits,
        v,
        d,
        l,
        decoder::kind(w),
        wide,
    );
    if done.is_err() {
        running::put_prefix(m, kind, bits);
    }
    done
}
