// What `./group` prints: four files' bytes in, the lines' bytes out.
#![tactic(auto)]

ghost use Rattle.std.specs.Prelude.{◌≡◌, ◌+◌, ◌*◌, ◌≤◌, length};
ghost use Rattle.io.specs.Counts.{IsPrefixLen};
ghost use Rattle.memory.specs.Memories.{contents};
ghost use Rattle.text.specs.Puts.{Puts};
ghost use Rattle.lines.specs.GroupLines.{group_room_needed};
ghost use Rattle.group_print.specs.GroupPrint.{launched_lines, cards_code, group_files_ok, group_print_of};

use answer::Refusal;
use group_words::{FILE_WORDS, WARPS};
use launch_files::{BUDGET, DATA_BYTES, KERNEL_WORDS};
use layout::STATE_WORDS;

// The bytes that hold every printout.
pub const ROOM: usize = 2924;

// The bytes of a card.
const CARD: usize = 50;

pub const CARDS_BYTES: usize = WARPS * CARD;

const VECTOR_WORDS: usize = WARPS * FILE_WORDS;

const GROUP_WORDS: usize = 1 + WARPS * STATE_WORDS;

// The lines of a launch of n cards and a run, the kernel in words.
fn print_launched(
    cards: &[u8],
    kernel: &[u32],
    vector: &mut [u32],
    bytes: &mut [u8],
    local: &mut [u8],
    state: &mut [u32],
    n: usize,
    out: &mut [u8],
) -> usize
    requires { (n ≤ 32) × (length state.old ≡ 1 + n * 241) × (group_room_needed ≤ length out.old) }
    ensures { Puts out.old 0 (launched_lines n cards.now kernel.now vector.old (contents bytes.old local.old) state.old) out.new result × (result ≤ group_room_needed) }
{
    let code = capi_group::bench_group_launch(cards, kernel, vector, bytes, local, state);
    if code != 0 {
        return lines::put_code_line(out, code);
    }
    let mut told = [0u32; 2];
    let end = capi_group::bench_group_run(state, kernel, vector, bytes, local, BUDGET, &mut told);
    let steps = told[0];
    let wid = told[1];
    lines::put_group(out, end, wid, steps, state, n)
}

// The code where a file is over its limit: the cards are tested first, by a launch into a state that is no group's.
fn cards_code(cards: &[u8], bytes: &[u8]) -> u32
    ensures { result ≡ cards_code cards.now }
{
    let kernel = [0u32; 1];
    let mut vector = [0u32; 1];
    let mut state = [0u32; 2];
    capi_group::bench_group_launch(cards, &kernel, &mut vector, bytes, bytes, &mut state)
}

// A kernel file of whole words, and the three within the limits.
fn files_ok(kernel: &[u8], bytes: &[u8], local: &[u8]) -> bool
    ensures { result ≡ group_files_ok kernel.now bytes.now local.now }
{
    launch_files::files_ok(kernel, bytes) & (local.len() <= DATA_BYTES)
}

// The lines of the four files' bytes, at the start of `out`; answers how long they are.
pub fn print_group(
    cards: &[u8],
    kernel: &[u8],
    bytes: &mut [u8],
    local: &mut [u8],
    out: &mut [u8],
) -> usize
    requires { group_room_needed ≤ length out.old }
    ensures { IsPrefixLen result out.new × Puts out.old 0 (group_print_of cards.now kernel.now bytes.old local.old) out.new result }
{
    if CARDS_BYTES < cards.len() {
        return lines::put_code_line(out, Refusal::Size.number());
    }
    if !files_ok(kernel, bytes, local) {
        return lines::put_code_line(out, cards_code(cards, bytes));
    }
    let mut words = [0u32; KERNEL_WORDS];
    let kernel = launch_files::kernel_words(kernel, &mut words);
    let n = cards.len() / CARD;
    let v = n * FILE_WORDS;
    let s = 1 + n * STATE_WORDS;
    let mut vector = [0u32; VECTOR_WORDS];
    let mut state = [0u32; GROUP_WORDS];
    print_launched(
        cards,
        kernel,
        &mut vector[..v],
        bytes,
        local,
        &mut state[..s],
        n,
        out,
    )
}
