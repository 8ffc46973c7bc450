// A group's exports for C: each is `capi_group`'s call of the same name, under the same clauses.
#![tactic(auto)]

ghost use Rattle.std.specs.Prelude.{◌≡◌, ◌<◌};
ghost use Rattle.memory.specs.Memories.{contents};
ghost use Rattle.definition.specs.Calls.{budget_limit};
ghost use Rattle.group_launch.specs.GroupLaunchCall.{group_launch_called, group_launch_call_of};
ghost use Rattle.group_state.specs.GroupState.{group_called, group_step_call_of, group_run_call_of};

#[unsafe(no_mangle)]
pub extern "C" fn bench_group_launch(
    cards: &[u8],
    kernel: &[u32],
    vector: &mut [u32],
    bytes: &[u8],
    local: &[u8],
    state: &mut [u32],
) -> u32
    ensures { group_launch_called result state.new vector.new ≡ group_launch_call_of cards.now kernel.now vector.old (contents bytes.now local.now) state.old }
{
    capi_group::bench_group_launch(cards, kernel, vector, bytes, local, state)
}

#[unsafe(no_mangle)]
pub extern "C" fn bench_group_step(
    state: &mut [u32],
    kernel: &[u32],
    vector: &mut [u32],
    bytes: &mut [u8],
    local: &mut [u8],
    stopped: &mut [u32],
) -> u32
    ensures { group_called result state.new vector.new (contents bytes.new local.new) stopped.new ≡ group_step_call_of state.old kernel.now vector.old (contents bytes.old local.old) stopped.old }
{
    capi_group::bench_group_step(state, kernel, vector, bytes, local, stopped)
}

#[unsafe(no_mangle)]
pub extern "C" fn bench_group_run(
    state: &mut [u32],
    kernel: &[u32],
    vector: &mut [u32],
    bytes: &mut [u8],
    local: &mut [u8],
    budget: u32,
    out: &mut [u32],
) -> u32
    ensures { (budget < budget_limit) × (group_called result state.new vector.new (contents bytes.new local.new) out.new ≡ group_run_call_of state.old kernel.now budget vector.old (contents bytes.old local.old) out.old) }
{
    capi_group::bench_group_run(state, kernel, vector, bytes, local, budget, out)
}
