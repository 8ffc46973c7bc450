// A group's calls for C and Rust, over numbers and slices: a group of W warps is a state of 1 + 241·W words. A library of its own.
#![tactic(auto)]

ghost use Rattle.std.specs.Prelude.{◌≡◌, ◌<◌};
ghost use Rattle.memory.specs.Memories.{contents};
ghost use Rattle.definition.specs.Calls.{budget_limit};
ghost use Rattle.group_launch.specs.GroupLaunchCall.{group_launch_called, group_launch_call_of};
ghost use Rattle.group_state.specs.GroupState.{group_called, group_step_call_of, group_run_call_of};

use answer::Refusal;

pub fn bench_group_launch(
    cards: &[u8],
    kernel: &[u32],
    vector: &mut [u32],
    bytes: &[u8],
    local: &[u8],
    state: &mut [u32],
) -> u32
    ensures { group_launch_called result state.new vector.new ≡ group_launch_call_of cards.now kernel.now vector.old (contents bytes.now local.now) state.old }
{
    let launched = group_launch::launch_cards(cards, kernel, vector, bytes, local, state);
    answer::number(&launched)
}

pub fn bench_group_step(
    state: &mut [u32],
    kernel: &[u32],
    vector: &mut [u32],
    bytes: &mut [u8],
    local: &mut [u8],
    stopped: &mut [u32],
) -> u32
    ensures { group_called result state.new vector.new (contents bytes.new local.new) stopped.new ≡ group_step_call_of state.old kernel.now vector.old (contents bytes.old local.old) stopped.old }
{
    if stopped.len() != 1 {
        return Refusal::Size.number();
    }
    if !group_state::is_group(state) {
        stopped[0] = 0;
        return Refusal::Size.number();
    }
    let end = group_state::run_state(state, kernel, vector, bytes, local, 1);
    stopped[0] = end.stopped;
    answer::number(&end.answer)
}

pub fn bench_group_run(
    state: &mut [u32],
    kernel: &[u32],
    vector: &mut [u32],
    bytes: &mut [u8],
    local: &mut [u8],
    budget: u32,
    out: &mut [u32],
) -> u32
    ensures { (budget < budget_limit) × (group_called result state.new vector.new (contents bytes.new local.new) out.new ≡ group_run_call_of state.old kernel.now budget vector.old (contents bytes.old local.old) out.old) }
{
    if out.len() != 2 {
        return Refusal::Size.number();
    }
    if !group_state::is_group(state) {
        out[0] = 0;
        out[1] = 0;
        return Refusal::Size.number();
    }
    let end = group_state::run_state(state, kernel, vector, bytes, local, budget);
    out[0] = end.steps;
    out[1] = end.stopped;
    answer::number(&end.answer)
}
