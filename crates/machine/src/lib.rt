// The public calls of the bench machine that step a warp: step and run. Each answers for all inputs, and asks nothing of its caller. Launch and release are in launch_release.
#![tactic(auto)]

ghost use Rattle.std.specs.Prelude.{◌≡◌, ◌<◌, Err};
ghost use Rattle.std.specs.Result.{result_unwrap_or};
ghost use Rattle.answer.specs.Answer.{number_of};
ghost use Rattle.memory.specs.Memories.{alone};
ghost use Rattle.definition.specs.State.{state, outcome};
ghost use Rattle.definition.specs.Step.{step_of};
ghost use Rattle.definition.specs.Calls.{ran, budget_limit, run_of};

use answer::Refusal;
use layout::WarpWords;
use warp::{SPLITS, Warp};

// What a run leaves, refused or not; `steps` counts the steps that were taken.
#[derive(Clone, Copy)]
pub struct RunLeft {
    pub answer: Result<(), Refusal>,
    pub steps: u32,
    pub warp: Warp,
}

fn refused_run(why: Refusal, w: Warp) -> RunLeft
    ensures { result ≡ record { answer = Err why; steps = 0; warp = w } }
{
    RunLeft {
        answer: Err(why),
        steps: 0,
        warp: w,
    }
}

// At most `budget` steps, to the first refusal. The warp is tested and taken apart once.
pub fn run(w: Warp, kernel: &[u32], vector: &mut [u32], bytes: &mut [u8], budget: u32) -> RunLeft
    ensures { (budget < budget_limit) × (ran result.steps (outcome (number_of result.answer) (state result.warp vector.new (alone bytes.new))) ≡ run_of kernel.now budget (state w vector.old (alone bytes.old))) }
{
    let mut none = [0u8; 0];
    let f = w.fixed;
    if !sizes::runs_ok(f, kernel, vector, bytes, &none) {
        return refused_run(Refusal::Size, w);
    }
    if SPLITS < w.depth {
        return refused_run(Refusal::Malformed, w);
    }
    let mut words = WarpWords::of(w);
    let end = drive::run_words(&mut words, kernel, vector, bytes, &mut none, budget);
    RunLeft {
        answer: end.answer,
        steps: end.steps,
        warp: words.warp(),
    }
}

// One step.
pub fn step(w: Warp, kernel: &[u32], vector: &mut [u32], bytes: &mut [u8]) -> Result<Warp, Refusal>
    ensures { outcome (number_of result) (state (result_unwrap_or result w) vector.new (alone bytes.new)) ≡ step_of kernel.now (state w vector.old (alone bytes.old)) }
{
    let end = run(w, kernel, vector, bytes, 1);
    match end.answer {
        Ok(()) => Ok(end.warp),
        Err(why) => Err(why),
    }
}
