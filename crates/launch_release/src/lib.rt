// The public calls that take no step: launch and release. Each answers for all inputs, and asks nothing of its caller.
#![tactic(auto)]

ghost use Rattle.std.specs.Prelude.{◌≡◌};
ghost use Rattle.std.specs.Result.{result_unwrap_or};
ghost use Rattle.answer.specs.Answer.{number_of};
ghost use Rattle.memory.specs.Memories.{alone};
ghost use Rattle.warp.specs.Warp.{zero_warp, answered};
ghost use Rattle.definition.specs.State.{state, outcome};
ghost use Rattle.definition.specs.Calls.{launched_of, launch_of, release_of};

use answer::Refusal;
use warp::{Launch, Warp};

// ---- a launch

pub fn launched(l: Launch) -> Warp
    ensures { result ≡ launched_of l }
{
    Warp {
        pc: l.entry,
        mask: l.fixed.launchMask,
        fixed: l.fixed,
        ..warp::zero_warp()
    }
}

// A warp at its entry PC, with the vector file cleared.
pub fn launch(l: Launch, kernel: &[u32], vector: &mut [u32], bytes: &[u8]) -> Result<Warp, Refusal>
    ensures { outcome (number_of result) (state (result_unwrap_or result zero_warp) vector.new (alone bytes.now)) ≡ launch_of kernel.now l vector.old (alone bytes.now) }
{
    if !sizes::runs_ok(l.fixed, kernel, vector, bytes, &[]) {
        return Err(Refusal::Size);
    }
    if !warp::launch_ok(l) {
        return Err(Refusal::Size);
    }
    vector.fill(0);
    Ok(launched(l))
}

// ---- a release

// A warp that waits at a barrier runs again.
pub fn release(w: Warp) -> Result<Warp, Refusal>
    ensures { answered (number_of result) (result_unwrap_or result w) ≡ release_of w }
{
    if !formed::well_formed(w) {
        return Err(Refusal::Malformed);
    }
    if !w.waiting {
        return Err(Refusal::NotWaiting);
    }
    Ok(Warp {
        ended: false,
        waiting: false,
        ..w
    })
}
