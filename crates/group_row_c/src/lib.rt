// The export for C of a group's step over a lent run of warps: it is `group_row`'s call of the same name, under the same clauses.
#![tactic(auto)]

ghost use Rattle.std.specs.Prelude.{◌≡◌};
ghost use Rattle.memory.specs.Memories.{contents};
ghost use Rattle.group.specs.Group.{group};
ghost use Rattle.group.specs.GroupCalls.{group_outcome, group_step_of};

use group_row::Stepped;
use warp::Warp;

#[unsafe(no_mangle)]
pub extern "C" fn bench_step_warps(
    ws: &mut [Warp],
    turn: u32,
    kernel: &[u32],
    vector: &mut [u32],
    bytes: &mut [u8],
    local: &mut [u8],
) -> Stepped
    ensures { group_outcome result.code result.stopped (group result.turn ws.new vector.new (contents bytes.new local.new)) ≡ group_step_of kernel.now (group turn ws.old vector.old (contents bytes.old local.old)) }
{
    group_row::bench_step_warps(ws, turn, kernel, vector, bytes, local)
}
