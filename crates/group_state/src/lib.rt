// A run of a group on its state's own words: the turn, then each warp's 241 words.
#![tactic(auto)]

ghost use Rattle.std.specs.Prelude.{◌≡◌, true, cond, [], ◌∷◌, ◌+◌, ◌*◌, ◌≤◌, ltb, length};
ghost use Rattle.answer.specs.Answer.{number_of};
ghost use Rattle.memory.specs.Memories.{contents};
ghost use Rattle.layout.specs.Words.{state_words};
ghost use Rattle.group.specs.GroupRefuse.{warps_limit};
ghost use Rattle.group_words.specs.StateWords.{joined};
ghost use Rattle.group_state.specs.GroupState.{is_group, group_called, group_run_call_of};
ghost use Rattle.group_state.specs.Got.{Got, put_at};

use group_drive::GroupDrove;
use group_words::WARPS;
use layout::{STATE_WORDS, WarpWords};

// A state of 1 to 32 warps.
pub fn is_group(state: &[u32]) -> bool
    ensures { result ≡ is_group state.now }
{
    let len = state.len();
    if len == 0 {
        return false;
    }
    let n = (len - 1) / STATE_WORDS;
    if WARPS < n {
        return false;
    }
    (len == 1 + n * STATE_WORDS) & (1 <= n)
}

// Each warp's words, copied out of the state.
fn get_all(state: &[u32], ws: &mut [WarpWords])
    requires { (length ws.old ≤ warps_limit) × (length state.now ≡ 1 + length ws.old * state_words) }
    ensures { Got (length ws.new) state.now ws.new }
{
    for (i, w) in ws.iter_mut().enumerate() {
        let a = 1 + i * STATE_WORDS;
        w.get(&state[a..a + STATE_WORDS]);
    }
}

// And put back into it, with the turn before them.
fn put_all(ws: &[WarpWords], state: &mut [u32], turn: u32)
    requires { (length ws.now ≤ warps_limit) × (length state.old ≡ 1 + length ws.now * state_words) }
    ensures { state.new ≡ turn ∷ joined (length ws.now) (put_at ws.now) }
{
    state[0] = turn;
    for (i, w) in ws.iter().enumerate() {
        let a = 1 + i * STATE_WORDS;
        w.put(&mut state[a..a + STATE_WORDS]);
    }
}

// The turn as a word: one that names no warp is what it was.
fn turn_word(turn: usize, n: usize, old: u32) -> u32
    requires { n ≤ warps_limit }
    ensures { result ≡ cond (ltb turn n) turn old }
{
    if turn < n { turn as u32 } else { old }
}

// A run of the state's group: saving is copying, and words of no warp come back as they were.
pub fn run_state(
    state: &mut [u32],
    kernel: &[u32],
    vector: &mut [u32],
    bytes: &mut [u8],
    local: &mut [u8],
    budget: u32,
) -> GroupDrove
    requires { is_group state.old ≡ true }
    ensures { group_called (number_of result.answer) state.new vector.new (contents bytes.new local.new) (result.steps ∷ result.stopped ∷ []) ≡ group_run_call_of state.old kernel.now budget vector.old (contents bytes.old local.old) (0 ∷ 0 ∷ []) }
{
    let n = (state.len() - 1) / STATE_WORDS;
    let old = state[0];
    let turn = layout::wide(old);
    let zeros = WarpWords::zeros();
    let mut all = [zeros; WARPS];
    let ws = &mut all[..n];
    get_all(state, ws);
    let end = group_drive::run_group(ws, kernel, vector, bytes, local, turn, budget);
    let at = turn_word(end.turn, n, old);
    put_all(ws, state, at);
    end
}
