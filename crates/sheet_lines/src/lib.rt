// An answer sheet's lines: put, tested, and compared one by one.
#![tactic(auto)]

ghost use Rattle.std.specs.Prelude.{◌≡◌, ◌+◌, ◌≤◌, length, get_or};
ghost use Rattle.std.proofs.lemmas.List.Edits.{sets};
ghost use Rattle.big_endian.specs.Layout.{bytes_of};
ghost use Rattle.definition.specs.State.{place_of};
ghost use Rattle.sheet_lines.specs.Sheet.{head_size, line_size, step_limit, sheet_size, line_values, head_of, steps_in, sheet_ok_of, lines_at};
ghost use Rattle.sheet_lines.specs.Compare.{marks_number, marks_step, compare_of};

use warp::Warp;

pub const HEAD_SIZE: usize = 5;

pub const LINE_SIZE: usize = 13;

pub const STEP_LIMIT: usize = 4096;

const VERSION: u32 = 1;

// The bytes of the largest sheet, of 4,096 steps.
pub const SHEET_ROOM: usize = HEAD_SIZE + LINE_SIZE * STEP_LIMIT;

// What a sheet is worth; the differing step counts from 1.
#[derive(Clone, Copy)]
pub enum Marks {
    NoMarks,
    Full,
    Differs(u32),
    Short,
    Long,
}

// The number of marks, for the calls on words.
pub fn marks_number(m: Marks) -> u32
    ensures { result ≡ marks_number m }
{
    match m {
        Marks::NoMarks => 0,
        Marks::Full => 1,
        Marks::Differs(_) => 2,
        Marks::Short => 3,
        Marks::Long => 4,
    }
}

// The differing step, 0 of other marks.
pub fn marks_step(m: Marks) -> u32
    ensures { result ≡ marks_step m }
{
    match m {
        Marks::Differs(n) => n,
        Marks::NoMarks | Marks::Full | Marks::Short | Marks::Long => 0,
    }
}

// A kernel's word, 0 past its end.
fn word_in(kernel: &[u32], place: usize) -> u32
    ensures { result ≡ get_or kernel.now place 0 }
{
    kernel.get(place).copied().unwrap_or(0)
}

// The word that the PC lies on.
pub fn word_on(kernel: &[u32], w: Warp) -> u32
    ensures { result ≡ get_or kernel.now (place_of w) 0 }
{
    word_in(kernel, (w.pc.saturating_sub(w.fixed.codeBase) / 4) as usize)
}

// A step's bytes from index `at` on.
pub fn put_line(t: &mut [u8], at: usize, pc: u32, word: u32, mask: u32, splits: usize)
    requires { at + line_size ≤ length t.old }
    ensures { t.new ≡ sets t.old at (bytes_of (line_values pc word mask splits)) }
{
    big_endian::put_word(t, at, pc);
    big_endian::put_word(t, at + 4, word);
    big_endian::put_word(t, at + 8, mask);
    big_endian::put_byte(t, at + 12, (splits % 256) as u32);
}

// The length of n steps and the version.
pub fn put_head(t: &mut [u8], n: usize)
    requires { (head_size ≤ length t.old) × (n ≤ step_limit) }
    ensures { t.new ≡ sets t.old 0 (head_of n) }
{
    big_endian::put_word(t, 0, (1 + LINE_SIZE * n) as u32);
    big_endian::put_byte(t, 4, VERSION);
}

// How many steps the bytes of a sheet have room for.
pub fn steps_in(s: &[u8]) -> usize
    ensures { result ≡ steps_in s.now }
{
    s.len().saturating_sub(HEAD_SIZE) / LINE_SIZE
}

// Whether the bytes are a well-formed sheet.
pub fn sheet_ok(s: &[u8]) -> bool
    ensures { result ≡ sheet_ok_of s.now }
{
    let size = s.len();
    if size < HEAD_SIZE {
        return false;
    }
    let steps = (size - HEAD_SIZE) / LINE_SIZE;
    if STEP_LIMIT < steps {
        return false;
    }
    let version = big_endian::byte_at(s, 4);
    let length = big_endian::word_at(s, 0) as usize;
    (version == VERSION) & ((length == size - 4) & (length == 1 + LINE_SIZE * steps))
}

// ---- a sheet against the run's own

// Line by line: n lines of the run's own sheet, m of the one handed in.
pub fn compare(own: &[u8], n: usize, sheet: &[u8], m: usize) -> Marks
    requires { (n ≤ step_limit) × (sheet_size n ≤ length own.now) × (sheet_size m ≤ length sheet.now) }
    ensures { result ≡ compare_of 1 (lines_at n own.now head_size) (lines_at m sheet.now head_size) }
{
    for i in 0..n {
        if m <= i {
            return Marks::Short;
        }
        let at = HEAD_SIZE + LINE_SIZE * i;
        let end = at + LINE_SIZE;
        if !check::same(&own[at..end], &sheet[at..end]) {
            return Marks::Differs((i + 1) as u32);
        }
    }
    if n < m {
        return Marks::Long;
    }
    Marks::Full
}
