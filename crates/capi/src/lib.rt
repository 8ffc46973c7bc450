// The machine's calls for C and Rust, over numbers and slices: a warp is a state of 241 words.
#![tactic(auto)]

ghost use Rattle.std.specs.Prelude.{◌≡◌, [], ◌∷◌, ◌<◌, length};
ghost use Rattle.answer.specs.Answer.{number_of};
ghost use Rattle.layout.specs.Words.{state_words};
ghost use Rattle.definition.specs.Calls.{budget_limit};
ghost use Rattle.saved.specs.Saved.{saving};
ghost use Rattle.capi.specs.Calls.{called, blank_of, launch_call_of, step_call_of, run_called, run_call_of, release_call_of};

use answer::Refusal;
use drive::Drove;
use layout::{STATE_WORDS, WarpWords};

// What a refused launch does to a state.
fn blank(state: &mut [u32])
    ensures { state.new ≡ blank_of state.old }
{
    let _ = saved::save(warp::zero_warp(), state);
}

pub fn bench_launch(
    card: &[u8],
    kernel: &[u32],
    vector: &mut [u32],
    bytes: &[u8],
    state: &mut [u32],
) -> u32
    ensures { called result state.new vector.new bytes.now ≡ launch_call_of card.now kernel.now vector.old bytes.now state.old }
{
    let l = match card::read_card(card) {
        Ok(l) => l,
        Err(why) => {
            blank(state);
            return why.number();
        }
    };
    if state.len() != STATE_WORDS {
        return Refusal::Size.number();
    }
    let launched = launch_release::launch(l, kernel, vector, bytes);
    let _ = saved::save(launched.unwrap_or(warp::zero_warp()), state);
    answer::number(&launched)
}

// A run on the state's own words, which are what the inner loop runs on: saving is copying. Words of no warp come back as they were.
fn run_state(
    state: &mut [u32],
    kernel: &[u32],
    vector: &mut [u32],
    bytes: &mut [u8],
    budget: u32,
) -> Drove
    requires { length state.old ≡ state_words }
    ensures { run_called (called (number_of result.answer) state.new vector.new bytes.new) (result.steps ∷ []) ≡ run_call_of state.old kernel.now budget vector.old bytes.old (0 ∷ []) }
{
    let mut none = [0u8; 0];
    let mut words = WarpWords::zeros();
    words.get(state);
    let end = drive::run_words(&mut words, kernel, vector, bytes, &mut none, budget);
    words.put(state);
    end
}

pub fn bench_step(state: &mut [u32], kernel: &[u32], vector: &mut [u32], bytes: &mut [u8]) -> u32
    ensures { called result state.new vector.new bytes.new ≡ step_call_of state.old kernel.now vector.old bytes.old }
{
    if state.len() != STATE_WORDS {
        return Refusal::Size.number();
    }
    let end = run_state(state, kernel, vector, bytes, 1);
    answer::number(&end.answer)
}

pub fn bench_run(
    state: &mut [u32],
    kernel: &[u32],
    vector: &mut [u32],
    bytes: &mut [u8],
    budget: u32,
    steps: &mut [u32],
) -> u32
    ensures { (budget < budget_limit) × (run_called (called result state.new vector.new bytes.new) steps.new ≡ run_call_of state.old kernel.now budget vector.old bytes.old steps.old) }
{
    if steps.len() != 1 {
        return Refusal::Size.number();
    }
    if state.len() != STATE_WORDS {
        steps[0] = 0;
        return Refusal::Size.number();
    }
    let end = run_state(state, kernel, vector, bytes, budget);
    steps[0] = end.steps;
    answer::number(&end.answer)
}

fn released(state: &mut [u32]) -> Result<(), Refusal>
    ensures { saving (number_of result) state.new ≡ release_call_of state.old }
{
    let w = saved::restore(state)?;
    let freed = launch_release::release(w)?;
    saved::save(freed, state)
}

pub fn bench_release(state: &mut [u32]) -> u32
    ensures { saving result state.new ≡ release_call_of state.old }
{
    answer::number(&released(state))
}
