// A warp as 241 words, and back.
#![tactic(auto)]

ghost use Rattle.std.specs.Prelude.{◌≡◌, ◌+◌};
ghost use Rattle.std.specs.Result.{result_unwrap_or};
ghost use Rattle.answer.specs.Answer.{number_of};
ghost use Rattle.warp.specs.Warp.{split_count, zero_warp, answered};
ghost use Rattle.layout.specs.Words.{phases_ok_of};
ghost use Rattle.layout.specs.Parts.{sound_from};
ghost use Rattle.saved.specs.Saved.{saving, save_of, restore_of};

use answer::Refusal;
use layout::{DEPTH, ENDED, FLAT, PHASE, SPLIT, STATE_WORDS, WAITING, WarpWords};
use warp::{SPLITS, Warp};

// The most open splits.
const DEEPEST: u32 = 31;

pub fn save(w: Warp, state: &mut [u32]) -> Result<(), Refusal>
    ensures { saving (number_of result) state.new ≡ save_of w state.old }
{
    if state.len() != STATE_WORDS {
        return Err(Refusal::Size);
    }
    if SPLITS < w.depth {
        return Err(Refusal::Malformed);
    }
    WarpWords::of(w).put(state);
    Ok(())
}

fn phases_ok(s: &[u32; FLAT]) -> bool
    ensures { result ≡ phases_ok_of split_count s.now }
{
    for k in (0..SPLITS).rev() {
        if 1 < s[k * SPLIT + PHASE] {
            return false;
        }
    }
    true
}

// Flags and phases are 0 or 1, and at most 31 splits open.
fn sound(w: &WarpWords) -> bool
    ensures { result ≡ sound_from w.now }
{
    let h = &w.moving;
    let phases = phases_ok(&w.splits);
    (h[DEPTH] <= DEEPEST) & ((h[ENDED] <= 1) & ((h[WAITING] <= 1) & phases))
}

pub fn restore(state: &[u32]) -> Result<Warp, Refusal>
    ensures { answered (number_of result) (result_unwrap_or result zero_warp) ≡ restore_of state.now }
{
    if state.len() != STATE_WORDS {
        return Err(Refusal::Size);
    }
    let mut words = WarpWords::zeros();
    words.get(state);
    if !sound(&words) {
        return Err(Refusal::Malformed);
    }
    Ok(words.warp())
}
