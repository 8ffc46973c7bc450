// The machine's exports for C: each is `capi`'s call of the same name, under the same clauses.
#![tactic(auto)]

ghost use Rattle.std.specs.Prelude.{◌≡◌, ◌<◌};
ghost use Rattle.definition.specs.Calls.{budget_limit};
ghost use Rattle.saved.specs.Saved.{saving};
ghost use Rattle.capi.specs.Calls.{called, launch_call_of, step_call_of, run_called, run_call_of, release_call_of};

#[unsafe(no_mangle)]
pub extern "C" fn bench_launch(
    card: &[u8],
    kernel: &[u32],
    vector: &mut [u32],
    bytes: &[u8],
    state: &mut [u32],
) -> u32
    ensures { called result state.new vector.new bytes.now ≡ launch_call_of card.now kernel.now vector.old bytes.now state.old }
{
    capi::bench_launch(card, kernel, vector, bytes, state)
}

#[unsafe(no_mangle)]
pub extern "C" fn bench_step(
    state: &mut [u32],
    kernel: &[u32],
    vector: &mut [u32],
    bytes: &mut [u8],
) -> u32
    ensures { called result state.new vector.new bytes.new ≡ step_call_of state.old kernel.now vector.old bytes.old }
{
    capi::bench_step(state, kernel, vector, bytes)
}

#[unsafe(no_mangle)]
pub extern "C" fn bench_run(
    state: &mut [u32],
    kernel: &[u32],
    vector: &mut [u32],
    bytes: &mut [u8],
    budget: u32,
    steps: &mut [u32],
) -> u32
    ensures { (budget < budget_limit) × (run_called (called result state.new vector.new bytes.new) steps.new ≡ run_call_of state.old kernel.now budget vector.old bytes.old steps.old) }
{
    capi::bench_run(state, kernel, vector, bytes, budget, steps)
}

#[unsafe(no_mangle)]
pub extern "C" fn bench_release(state: &mut [u32]) -> u32
    ensures { saving result state.new ≡ release_call_of state.old }
{
    capi::bench_release(state)
}
