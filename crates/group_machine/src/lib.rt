// A whole group by value: its step and its run. Each answers for all inputs, and asks nothing of its caller.
#![tactic(auto)]

ghost use Rattle.std.specs.Prelude.{◌≡◌, Err, true, ◌≤◌, ◌<◌, length};
ghost use Rattle.std.specs.List.{list_all};
ghost use Rattle.answer.specs.Answer.{number_of};
ghost use Rattle.memory.specs.Memories.{contents};
ghost use Rattle.warp.specs.Warp.{split_count};
ghost use Rattle.definition.specs.Calls.{budget_limit};
ghost use Rattle.group.specs.GroupCalls.{group_outcome, group_ran};
ghost use Rattle.group_words.specs.Row.{warps_in};
ghost use Rattle.group_machine.specs.Held.{held, held_step_of, held_run_of, Kept, is_shallow, Fixeds, ApartAt, Apart};

use answer::Refusal;
use group_words::WARPS;
use layout::WarpWords;
use warp::{SPLITS, Warp};

// The first `count` warps are the group's: room for 32 and a count, since there is no heap.
#[derive(Clone, Copy)]
pub struct Group {
    pub warps: [Warp; WARPS],
    pub count: usize,
    pub turn: u32,
}

// What a step leaves: its answer, the warp that stopped the group, and the group.
#[derive(Clone, Copy)]
pub struct GroupLeft {
    pub answer: Result<(), Refusal>,
    pub stopped: u32,
    pub group: Group,
}

// What a run leaves; `steps` counts the steps that were taken.
#[derive(Clone, Copy)]
pub struct GroupRunLeft {
    pub answer: Result<(), Refusal>,
    pub stopped: u32,
    pub steps: u32,
    pub group: Group,
}

// ---- the warps taken apart, and put together

// The words of a warp, which has 31 split records.
fn words_of(w: Warp) -> WarpWords
    requires { w.depth ≤ split_count }
    ensures { ApartAt w result }
{
    WarpWords::of(w)
}

// What a launch fixed, of each warp.
fn fixeds(warps: &[Warp], ws: &mut [WarpWords])
    requires { length ws.old ≡ length warps.now }
    ensures { Fixeds (length warps.now) warps.now ws.new }
{
    for (i, w) in ws.iter_mut().enumerate() {
        let f = layout::fixed_of(warps[i].fixed);
        w.fixed = f;
    }
}

// No warp has more open splits than there is room for.
fn shallow(warps: &[Warp]) -> bool
    ensures { result ≡ list_all is_shallow warps.now }
{
    warps.iter().all(|w| w.depth <= SPLITS)
}

fn apart(warps: &[Warp], ws: &mut [WarpWords])
    requires { (length ws.old ≡ length warps.now) × (list_all is_shallow warps.now ≡ true) }
    ensures { Apart (length warps.now) warps.now ws.new }
{
    for (i, w) in ws.iter_mut().enumerate() {
        *w = words_of(warps[i]);
    }
}

fn together(ws: &[WarpWords], warps: &mut [Warp])
    requires { length warps.old ≡ length ws.now }
    ensures { warps.new ≡ warps_in ws.now }
{
    for (i, w) in ws.iter().enumerate() {
        warps[i] = w.warp();
    }
}

// ---- a run

fn refused(why: Refusal, g: Group) -> GroupRunLeft
    ensures { result ≡ record { answer = Err why; stopped = 0; steps = 0; group = g } }
{
    GroupRunLeft {
        answer: Err(why),
        stopped: 0,
        steps: 0,
        group: g,
    }
}

// At most `budget` steps, to the first refusal. The warps are tested and taken apart once.
pub fn run(
    g: Group,
    kernel: &[u32],
    vector: &mut [u32],
    bytes: &mut [u8],
    local: &mut [u8],
    budget: u32,
) -> GroupRunLeft
    ensures { (budget < budget_limit) × Kept g result.group × (group_ran result.steps (group_outcome (number_of result.answer) result.stopped (held result.group vector.new (contents bytes.new local.new))) ≡ held_run_of kernel.now budget g vector.old (contents bytes.old local.old)) }
{
    let n = g.count;
    if WARPS < n {
        return refused(Refusal::Size, g);
    }
    if n == 0 {
        return refused(Refusal::Size, g);
    }
    let warps = g.warps;
    let zeros = WarpWords::zeros();
    let mut all = [zeros; WARPS];
    let ws = &mut all[..n];
    fixeds(&warps[..n], ws);
    if !group_words::sizes_ok(ws, kernel, vector, bytes, local) {
        return refused(Refusal::Size, g);
    }
    if !shallow(&warps[..n]) {
        return refused(Refusal::Malformed, g);
    }
    apart(&warps[..n], ws);
    let turn = layout::wide(g.turn);
    let end = group_drive::run_group(ws, kernel, vector, bytes, local, turn, budget);
    let mut us = warps;
    together(ws, &mut us[..n]);
    let left = Group {
        warps: us,
        count: n,
        turn: end.turn as u32,
    };
    GroupRunLeft {
        answer: end.answer,
        stopped: end.stopped,
        steps: end.steps,
        group: left,
    }
}

// One step.
pub fn step(
    g: Group,
    kernel: &[u32],
    vector: &mut [u32],
    bytes: &mut [u8],
    local: &mut [u8],
) -> GroupLeft
    ensures { Kept g result.group × (group_outcome (number_of result.answer) result.stopped (held result.group vector.new (contents bytes.new local.new)) ≡ held_step_of kernel.now g vector.old (contents bytes.old local.old)) }
{
    let end = run(g, kernel, vector, bytes, local, 1);
    GroupLeft {
        answer: end.answer,
        stopped: end.stopped,
        group: end.group,
    }
}
