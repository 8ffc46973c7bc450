// The steps of answer sheets in columns. Each inner `put_` puts its text into `out` from index `at` on and answers the index after it.
#![tactic(auto)]

ghost use Rattle.std.specs.Prelude.{◌≡◌, ◌+◌, ◌*◌, ◌≤◌, ◌<◌, length};
ghost use Rattle.io.specs.Counts.{IsPrefixLen};
ghost use Rattle.sheet_lines.specs.Sheet.{line_size, step_limit, steps_in};
ghost use Rattle.text.specs.Puts.{Puts};
ghost use Rattle.sheet_text.specs.Put.{put};
ghost use Rattle.sheet_table.specs.SheetTable.{word_column, columns_at, labelled, step_lines, table_row, table_rows, table_of, steps_room, row_room, table_room, has_step, table_fits, step_lines_into, table_into};

use sheet_lines::{HEAD_SIZE, LINE_SIZE, STEP_LIMIT};

// Room for the three lines of a step, and for the largest table.
pub const STEPS_ROOM: usize = 166;

pub const TABLE_ROOM: usize = 43 + 73 * STEP_LIMIT;

// ---- steps in columns

fn put_word_column(out: &mut [u8], at: usize, w: u32) -> usize
    requires { at + 10 ≤ length out.old }
    ensures { Puts out.old at (word_column w) out.new result × (result ≤ at + 10) }
{
    let one = text::put_hex(out, at, w);
    text::put_text(out, one, b"  ")
}

fn put_columns(out: &mut [u8], at: usize, s: &[u8], from: usize) -> usize
    requires { (at + 50 ≤ length out.old) × (from + line_size ≤ length s.now) }
    ensures { Puts out.old at (columns_at s.now from) out.new result × (result ≤ at + 50) }
{
    let pc = big_endian::word_at(s, from);
    let word = big_endian::word_at(s, from + 4);
    let mask = big_endian::word_at(s, from + 8);
    let splits = big_endian::byte_at(s, from + 12);
    let one = put_word_column(out, at, pc);
    let two = put_word_column(out, one, word);
    let three = put_word_column(out, two, mask);
    text::put_decimal(out, three, splits as u64)
}

fn put_labelled(out: &mut [u8], at: usize, label: &[u8], s: &[u8], from: usize) -> usize
    requires { (at + length label.now + 51 ≤ length out.old) × (from + line_size ≤ length s.now) }
    ensures { Puts out.old at (labelled label.now s.now from) out.new result × (result ≤ at + length label.now + 51) }
{
    let one = text::put_text(out, at, label);
    let two = put_columns(out, one, s, from);
    text::put_text(out, two, b"\n")
}

fn put_step_lines(out: &mut [u8], own: &[u8], given: &[u8], n: usize) -> usize
    requires { (steps_room ≤ length out.old) × (0 < n) × (n ≤ steps_in own.now) × (n ≤ steps_in given.now) }
    ensures { Puts out.old 0 (step_lines own.now given.now n) out.new result × (result ≤ steps_room) }
{
    let from = HEAD_SIZE + LINE_SIZE * (n - 1);
    let one = text::put_text(out, 0, b"         ");
    let two = text::put_text(out, one, b"pc        word      mask      splits\n");
    let three = put_labelled(out, two, b"expected ", own, from);
    put_labelled(out, three, b"given    ", given, from)
}

// ---- a sheet as a table

fn put_row(out: &mut [u8], at: usize, s: &[u8], i: usize) -> usize
    requires { (at + row_room ≤ length out.old) × (i < steps_in s.now) }
    ensures { Puts out.old at (table_row s.now i) out.new result × (result ≤ at + row_room) }
{
    let one = text::put_right(out, at, 4, (i + 1) as u64);
    put_labelled(out, one, b"  ", s, HEAD_SIZE + LINE_SIZE * i)
}

fn put_rows(out: &mut [u8], at: usize, s: &[u8]) -> usize
    requires { at + row_room * steps_in s.now ≤ length out.old }
    ensures { Puts out.old at (table_rows (steps_in s.now) s.now) out.new result × (result ≤ at + row_room * steps_in s.now) }
{
    let n = sheet_lines::steps_in(s);
    let mut end = at;
    for i in 0..n {
        end = put_row(out, end, s, i);
    }
    end
}

fn put_table(out: &mut [u8], s: &[u8]) -> usize
    requires { (table_room ≤ length out.old) × (steps_in s.now ≤ step_limit) }
    ensures { Puts out.old 0 (table_of s.now) out.new result × (result ≤ table_room) }
{
    let one = text::put_text(out, 0, b"step  ");
    let two = text::put_text(out, one, b"pc        word      mask      splits\n");
    put_rows(out, two, s)
}

// ---- the calls: each puts its text at the start of `out` and answers its length; 0 and nothing where that is too short

fn has_step(own: &[u8], given: &[u8], n: usize, out: &[u8]) -> bool
    ensures { result ≡ has_step own.now given.now n out.now }
{
    let most = sheet_lines::steps_in(own);
    let there = sheet_lines::steps_in(given);
    (0 < n) & ((n <= most) & ((n <= there) & (STEPS_ROOM <= out.len())))
}

// Step n of the run's sheet and of the one handed in, under a heading; nothing where one has no such step.
pub fn step_lines(own: &[u8], given: &[u8], n: usize, out: &mut [u8]) -> usize
    ensures { IsPrefixLen result out.new × (put result out.new ≡ step_lines_into own.now given.now n out.old) }
{
    if !has_step(own, given, n, out) {
        return 0;
    }
    put_step_lines(out, own, given, n)
}

fn table_fits(s: &[u8], out: &[u8]) -> bool
    ensures { result ≡ table_fits s.now out.now }
{
    let n = sheet_lines::steps_in(s);
    (n <= STEP_LIMIT) & (TABLE_ROOM <= out.len())
}

// The steps of a sheet, under a heading; nothing where there are more than 4,096.
pub fn table(s: &[u8], out: &mut [u8]) -> usize
    ensures { IsPrefixLen result out.new × (put result out.new ≡ table_into s.now out.old) }
{
    if !table_fits(s, out) {
        return 0;
    }
    put_table(out, s)
}
