// A group launched from its cards.
#![tactic(auto)]

ghost use Rattle.std.specs.Prelude.{◌≡◌, ◌&&◌, ◌∷◌, ◌+◌, ◌*◌, ◌≤◌, length, replicate};
ghost use Rattle.answer.specs.Answer.{refusal_of, number_of};
ghost use Rattle.layout.specs.Words.{state_words, words_of};
ghost use Rattle.memory.specs.Memories.{contents};
ghost use Rattle.definition.specs.Calls.{launched_of};
ghost use Rattle.card.specs.Card.{card_size, reading_of};
ghost use Rattle.group.specs.GroupRefuse.{warps_limit, sizes_ok_of, placed_of};
ghost use Rattle.group_words.specs.Row.{tabulate, fixeds_in};
ghost use Rattle.group_launch.specs.GroupLaunchCall.{reading_at, none_is, is_group_state, group_blank_of, group_launch_called, group_launch_number, group_launch_call_of};
ghost use Rattle.group_words.specs.StateWords.{joined, group_words};

use answer::Refusal;
use group_words::WARPS;
use layout::{STATE_WORDS, WarpWords};
use warp::Launch;

// The bytes of a card.
const CARD: usize = 50;

// ---- the cards

// Card i.
fn read_at(cards: &[u8], i: usize) -> Result<Launch, Refusal>
    requires { i * card_size + card_size ≤ length cards.now }
    ensures { reading_of result ≡ reading_at cards.now i }
{
    let a = i * CARD;
    card::read_card(&cards[a..a + CARD])
}

fn code_at(cards: &[u8], i: usize) -> u32
    requires { i * card_size + card_size ≤ length cards.now }
    ensures { result ≡ (reading_at cards.now i).number }
{
    answer::number(&read_at(cards, i))
}

// None of n cards is refused by `why`.
fn none_is(cards: &[u8], n: usize, why: Refusal) -> bool
    requires { n * card_size ≤ length cards.now }
    ensures { result ≡ none_is (refusal_of why) n cards.now }
{
    for i in 0..n {
        if code_at(cards, i) == why.number() {
            return false;
        }
    }
    true
}

// ---- the tests of a launch

// What each card fixes, put into as many warps' words.
fn fixeds(cards: &[u8], ws: &mut [WarpWords])
    requires { (length ws.old ≤ warps_limit) × (length ws.old * card_size ≤ length cards.now) }
    ensures { fixeds_in ws.new ≡ tabulate (length ws.old) (λ i. (reading_at cards.now i).launch.fixed) }
{
    for (i, w) in ws.iter_mut().enumerate() {
        let l = read_at(cards, i).unwrap_or(warp::zero_launch());
        let g = layout::fixed_of(l.fixed);
        w.fixed = g;
    }
}

// The sizes, and each warp in its place.
fn group_ok(
    cards: &[u8],
    kernel: &[u32],
    vector: &[u32],
    bytes: &[u8],
    local: &[u8],
    n: usize,
) -> bool
    requires { (1 ≤ n) × (n ≤ warps_limit) × (n * card_size ≤ length cards.now) }
    ensures { result ≡ (sizes_ok_of kernel.now (tabulate n (λ i. (reading_at cards.now i).launch.fixed)) vector.now (contents bytes.now local.now) && placed_of (tabulate n (λ i. (reading_at cards.now i).launch.fixed))) }
{
    let zeros = WarpWords::zeros();
    let mut all = [zeros; WARPS];
    let ws = &mut all[..n];
    fixeds(cards, ws);
    group_words::sizes_ok(ws, kernel, vector, bytes, local) & group_words::placed(ws)
}

// A state of n warps. Its length is taken apart: 1 + 241 n could be too large a number.
fn is_state(state: &[u32], n: usize) -> bool
    ensures { result ≡ is_group_state n state.now }
{
    (state.len() % STATE_WORDS == 1) & (state.len() / STATE_WORDS == n)
}

// Why the first test that refuses does.
fn launch_ok(
    cards: &[u8],
    kernel: &[u32],
    vector: &[u32],
    bytes: &[u8],
    local: &[u8],
    state: &[u32],
) -> Result<(), Refusal>
    ensures { number_of result ≡ group_launch_number cards.now kernel.now vector.now (contents bytes.now local.now) state.now }
{
    if cards.len() % CARD != 0 {
        return Err(Refusal::BadCard);
    }
    let n = cards.len() / CARD;
    if !none_is(cards, n, Refusal::BadCard) {
        return Err(Refusal::BadCard);
    }
    if !none_is(cards, n, Refusal::Size) {
        return Err(Refusal::Size);
    }
    if !is_state(state, n) {
        return Err(Refusal::Size);
    }
    if n == 0 {
        return Err(Refusal::Size);
    }
    if WARPS < n {
        return Err(Refusal::Size);
    }
    if !group_ok(cards, kernel, vector, bytes, local, n) {
        return Err(Refusal::Size);
    }
    Ok(())
}

// ---- what a launch leaves

// What a refused launch does to a state.
fn blank(state: &mut [u32], n: usize)
    ensures { state.new ≡ group_blank_of n state.old }
{
    if is_state(state, n) {
        state.fill(0);
    }
}

// The warp of card i, launched, as words.
fn put_warp(cards: &[u8], i: usize, part: &mut [u32])
    requires { (i * card_size + card_size ≤ length cards.now) × (length part.old ≡ state_words) }
    ensures { part.new ≡ words_of (launched_of (reading_at cards.now i).launch) }
{
    let l = read_at(cards, i).unwrap_or(warp::zero_launch());
    let _ = saved::save(launch_release::launched(l), part);
}

// The state of n warps, launched from their cards.
fn put_warps(cards: &[u8], state: &mut [u32], n: usize)
    requires { (n ≤ warps_limit) × (n * card_size ≤ length cards.now) × (length state.old ≡ group_words n) }
    ensures { state.new ≡ 0 ∷ joined n (λ i. words_of (launched_of (reading_at cards.now i).launch)) }
{
    state[0] = 0;
    for i in 0..n {
        let a = 1 + i * STATE_WORDS;
        put_warp(cards, i, &mut state[a..a + STATE_WORDS]);
    }
}

// ---- the launch

// A group launched from its cards: each warp at its entry PC, all vector files cleared. Refused, the vector files stay, and a state of as many warps as there are whole cards is zeros.
pub fn launch_cards(
    cards: &[u8],
    kernel: &[u32],
    vector: &mut [u32],
    bytes: &[u8],
    local: &[u8],
    state: &mut [u32],
) -> Result<(), Refusal>
    ensures { group_launch_called (number_of result) state.new vector.new ≡ group_launch_call_of cards.now kernel.now vector.old (contents bytes.now local.now) state.old }
{
    let n = cards.len() / CARD;
    let tested = launch_ok(cards, kernel, vector, bytes, local, state);
    if tested.is_err() {
        blank(state, n);
        return tested;
    }
    vector.fill(0);
    put_warps(cards, state, n);
    Ok(())
}
