// The lines that `./bench` and `./group` print. Each `put_` puts its text into `out`, from index `at` or its start on, and answers the index after it.
#![tactic(auto)]

ghost use Rattle.std.specs.Prelude.{◌≡◌, ◌++◌, ◌+◌, ◌*◌, ◌≤◌, ◌<◌, length};
ghost use Rattle.text.specs.Text.{hex_of, decimal_of, line_of};
ghost use Rattle.text.specs.Puts.{Puts};
ghost use Rattle.lines.specs.Lines.{code_line, five_lines, room_needed};
ghost use Rattle.lines.specs.GroupLines.{stops_of, stopped_line, line_end, warp_line, warp_lines, group_lines, group_room_needed};

use layout::{DEPTH, ENDED, MASK, MOVING_START, PC, STATE_WORDS, WAITING};

// ---- the code line, and the five lines of a run

pub fn put_code_line(out: &mut [u8], code: u32) -> usize
    requires { 26 ≤ length out.old }
    ensures { Puts out.old 0 (code_line code) out.new result × (result ≤ 26) }
{
    text::put_decimal_line(out, 0, b"code ", code as u64)
}

pub fn put_five_lines(
    out: &mut [u8],
    code: u32,
    steps: u64,
    pc: u32,
    mask: u32,
    splits: u64,
) -> usize
    requires { room_needed ≤ length out.old }
    ensures { Puts out.old 0 (five_lines code steps pc mask splits) out.new result × (result ≤ room_needed) }
{
    let one = put_code_line(out, code);
    let two = text::put_decimal_line(out, one, b"steps ", steps);
    let three = text::put_hex_line(out, two, b"pc ", pc);
    let four = text::put_hex_line(out, three, b"mask ", mask);
    text::put_decimal_line(out, four, b"splits ", splits)
}

// ---- numbers after their names

fn put_number(out: &mut [u8], at: usize, name: &[u8], n: u32) -> usize
    requires { at + length name.now + 20 ≤ length out.old }
    ensures { Puts out.old at (name.now ++ decimal_of n) out.new result × (result ≤ at + length name.now + 20) }
{
    let value = text::put_text(out, at, name);
    text::put_decimal(out, value, n as u64)
}

fn put_word(out: &mut [u8], at: usize, name: &[u8], n: u32) -> usize
    requires { at + length name.now + 8 ≤ length out.old }
    ensures { Puts out.old at (name.now ++ hex_of n) out.new result × (result ≤ at + length name.now + 8) }
{
    let value = text::put_text(out, at, name);
    text::put_hex(out, value, n)
}

fn put_line(out: &mut [u8], at: usize, name: &[u8], n: u32) -> usize
    requires { at + length name.now + 21 ≤ length out.old }
    ensures { Puts out.old at (line_of name.now (decimal_of n)) out.new result × (result ≤ at + length name.now + 21) }
{
    text::put_decimal_line(out, at, name, n as u64)
}

// ---- a line a warp

fn put_end(out: &mut [u8], at: usize, ended: u32, waiting: u32) -> usize
    requires { at + 9 ≤ length out.old }
    ensures { Puts out.old at (line_end ended waiting) out.new result × (result ≤ at + 9) }
{
    if ended != 0 {
        return text::put_text(out, at, b" ended\n");
    }
    if waiting != 0 {
        return text::put_text(out, at, b" waiting\n");
    }
    text::put_text(out, at, b" running\n")
}

// Warp i's line, of the group's words.
fn put_warp(out: &mut [u8], at: usize, state: &[u32], i: usize) -> usize
    requires { (i < 32) × (1 + i * 241 + 241 ≤ length state.now) × (at + 88 ≤ length out.old) }
    ensures { Puts out.old at (warp_line i state.now) out.new result × (result ≤ at + 88) }
{
    let a = 1 + i * STATE_WORDS + MOVING_START;
    let one = put_number(out, at, b"warp ", i as u32);
    let two = put_word(out, one, b" pc ", state[a + PC]);
    let three = put_word(out, two, b" mask ", state[a + MASK]);
    let four = put_number(out, three, b" splits ", state[a + DEPTH]);
    put_end(out, four, state[a + ENDED], state[a + WAITING])
}

fn put_warps(out: &mut [u8], at: usize, state: &[u32], n: usize) -> usize
    requires { (n ≤ 32) × (length state.now ≡ 1 + n * 241) × (at + n * 88 ≤ length out.old) }
    ensures { Puts out.old at (warp_lines n state.now) out.new result × (result ≤ at + n * 88) }
{
    let mut end = at;
    for i in 0..n {
        end = put_warp(out, end, state, i);
    }
    end
}

// ---- a group's lines

// A number with which a warp stops its group.
fn stops(code: u32) -> bool
    ensures { result ≡ stops_of code }
{
    3 < code
}

fn put_stopped(out: &mut [u8], at: usize, code: u32, wid: u32) -> usize
    requires { at + 29 ≤ length out.old }
    ensures { Puts out.old at (stopped_line code wid) out.new result × (result ≤ at + 29) }
{
    if stops(code) {
        return put_line(out, at, b"stopped ", wid);
    }
    text::put_text(out, at, b"stopped none\n")
}

// The lines of a group of n warps, from its words.
pub fn put_group(out: &mut [u8], code: u32, wid: u32, steps: u32, state: &[u32], n: usize) -> usize
    requires { (n ≤ 32) × (length state.now ≡ 1 + n * 241) × (group_room_needed ≤ length out.old) }
    ensures { Puts out.old 0 (group_lines n code wid steps state.now) out.new result × (result ≤ group_room_needed) }
{
    let one = put_code_line(out, code);
    let two = put_stopped(out, one, code, wid);
    let three = put_line(out, two, b"steps ", steps);
    let four = put_line(out, three, b"turn ", state[0]);
    put_warps(out, four, state, n)
}
