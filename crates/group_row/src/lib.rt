// A group over a lent run of warps. The run is copied into a group by value, which takes the step, and copied back.
#![tactic(auto)]

ghost use Rattle.std.specs.Prelude.{◌≡◌, length, replicate};
ghost use Rattle.memory.specs.Memories.{contents};
ghost use Rattle.warp.specs.Warp.{zero_warp};
ghost use Rattle.group.specs.Group.{group};
ghost use Rattle.group.specs.GroupRefuse.{warps_limit};
ghost use Rattle.group.specs.GroupCalls.{group_outcome, group_step_of};
ghost use Rattle.group_machine.specs.Held.{held, held_step_of, Kept};
ghost use Rattle.group_row.specs.Row.{room_of, held_of, overlaid};

use group_machine::Group;
use group_words::WARPS;
use warp::Warp;

// How a step ended: its number, the warp that stopped the group, and the turn.
#[repr(C)]
#[derive(Clone, Copy)]
pub struct Stepped {
    pub code: u32,
    pub stopped: u32,
    pub turn: u32,
}

#[derive(Clone, Copy)]
pub struct StepLeft {
    pub group: Group,
    pub ended: Stepped,
}

// ---- by value

// How many of n warps a group has room for.
fn room(n: usize) -> usize
    ensures { result ≡ room_of n }
{
    n.min(WARPS)
}

fn step(
    g: Group,
    kernel: &[u32],
    vector: &mut [u32],
    bytes: &mut [u8],
    local: &mut [u8],
) -> StepLeft
    ensures { Kept g result.group × (group_outcome result.ended.code result.ended.stopped (held result.group vector.new (contents bytes.new local.new)) ≡ held_step_of kernel.now g vector.old (contents bytes.old local.old)) × (result.ended.turn ≡ result.group.turn) × (length g.warps ≡ warps_limit) }
{
    let left = group_machine::step(g, kernel, vector, bytes, local);
    let ended = Stepped {
        code: answer::number(&left.answer),
        stopped: left.stopped,
        turn: left.group.turn,
    };
    StepLeft {
        group: left.group,
        ended,
    }
}

// ---- over the lent run

fn gather(ws: &[Warp], turn: u32) -> Group
    ensures { result ≡ held_of (overlaid (room_of (length ws.now)) ws.now (replicate warps_limit zero_warp)) (length ws.now) turn }
{
    let n = ws.len();
    let m = room(n);
    let z = warp::zero_warp();
    let mut warps = [z; WARPS];
    warps[..m].copy_from_slice(&ws[..m]);
    Group {
        warps: warps,
        count: n,
        turn: turn,
    }
}

fn scatter(ws: &mut [Warp], g: Group)
    ensures { ws.new ≡ overlaid (room_of (length ws.old)) g.warps ws.old }
{
    let m = room(ws.len());
    let us = g.warps;
    ws[..m].copy_from_slice(&us[..m]);
}

// One step of the warps in a lent run.
pub fn bench_step_warps(
    ws: &mut [Warp],
    turn: u32,
    kernel: &[u32],
    vector: &mut [u32],
    bytes: &mut [u8],
    local: &mut [u8],
) -> Stepped
    ensures { group_outcome result.code result.stopped (group result.turn ws.new vector.new (contents bytes.new local.new)) ≡ group_step_of kernel.now (group turn ws.old vector.old (contents bytes.old local.old)) }
{
    let g = gather(ws, turn);
    let s = step(g, kernel, vector, bytes, local);
    scatter(ws, s.group);
    s.ended
}
