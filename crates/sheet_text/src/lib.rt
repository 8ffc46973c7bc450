// The lines that a teacher reads of answer sheets. Each inner `put_` puts its text into `out` from index `at` on and answers the index after it.
#![tactic(auto)]

ghost use Rattle.std.specs.Prelude.{◌≡◌, ◌+◌, ◌≤◌, length};
ghost use Rattle.io.specs.Counts.{IsPrefixLen};
ghost use Rattle.text.specs.Text.{decimal_of};
ghost use Rattle.text.specs.Puts.{Puts};
ghost use Rattle.sheet_text.specs.SheetText.{count_text, marks_text, reason_of, refusal_text, verdict_text, mark_line, refusal_line, written_line, unwritten_line};
ghost use Rattle.sheet_text.specs.Put.{put, room_for, line_room, mark_line_into, refusal_line_into, written_line_into, unwritten_line_into};

use answer::Refusal;
use sheet_lines::Marks;

// Room for every line beside its name.
pub const LINE_ROOM: usize = 105;

// ---- numbers

fn put_number(out: &mut [u8], at: usize, n: u64) -> usize
    requires { at + 20 ≤ length out.old }
    ensures { Puts out.old at (decimal_of n) out.new result × (result ≤ at + 20) }
{
    text::put_decimal(out, at, n)
}

// ---- the line of a marked sheet

fn put_count(out: &mut [u8], at: usize, given: u64, own: u64) -> usize
    requires { at + 50 ≤ length out.old }
    ensures { Puts out.old at (count_text given own) out.new result × (result ≤ at + 50) }
{
    let one = put_number(out, at, given);
    let two = text::put_text(out, one, b" of ");
    let three = put_number(out, two, own);
    text::put_text(out, three, b" steps")
}

fn put_marks(out: &mut [u8], at: usize, marks: Marks, given: u64, own: u64) -> usize
    requires { at + 57 ≤ length out.old }
    ensures { Puts out.old at (marks_text marks given own) out.new result × (result ≤ at + 57) }
{
    match marks {
        Marks::NoMarks => at,
        Marks::Full => text::put_text(out, at, b"full marks"),
        Marks::Differs(step) => {
            let one = text::put_text(out, at, b"differs at step ");
            put_number(out, one, step as u64)
        }
        Marks::Short => {
            let one = text::put_text(out, at, b"short: ");
            put_count(out, one, given, own)
        }
        Marks::Long => {
            let one = text::put_text(out, at, b"long: ");
            put_count(out, one, given, own)
        }
    }
}

fn put_words(out: &mut [u8], at: usize, number: u32) -> usize
    requires { at + 72 ≤ length out.old }
    ensures { Puts out.old at (reason_of number) out.new result × (result ≤ at + 72) }
{
    if number == Refusal::Size.number() {
        return text::put_text(
            out,
            at,
            b"a size, a base plus a length or a launch value is out of range",
        );
    }
    if number == Refusal::BadCard.number() {
        return text::put_text(
            out,
            at,
            b"the card is missing, or its total, length or version is wrong",
        );
    }
    if number == Refusal::BadSheet.number() {
        return text::put_text(
            out,
            at,
            b"the sheet is missing, or its length, version or number of steps is wrong",
        );
    }
    if number == Refusal::NoSteps.number() {
        return text::put_text(out, at, b"the run has no steps");
    }
    at
}

fn put_refusal(out: &mut [u8], at: usize, number: u32) -> usize
    requires { at + 102 ≤ length out.old }
    ensures { Puts out.old at (refusal_text number) out.new result × (result ≤ at + 102) }
{
    let one = text::put_text(out, at, b"refused ");
    let two = put_number(out, one, number as u64);
    let three = text::put_text(out, two, b": ");
    put_words(out, three, number)
}

fn put_verdict(out: &mut [u8], at: usize, number: u32, marks: Marks, given: u64, own: u64) -> usize
    requires { at + 102 ≤ length out.old }
    ensures { Puts out.old at (verdict_text number marks given own) out.new result × (result ≤ at + 102) }
{
    if number == 0 {
        return put_marks(out, at, marks, given, own);
    }
    put_refusal(out, at, number)
}

fn put_mark_line(
    out: &mut [u8],
    name: &[u8],
    number: u32,
    marks: Marks,
    given: u64,
    own: u64,
) -> usize
    requires { length name.now + line_room ≤ length out.old }
    ensures { Puts out.old 0 (mark_line name.now number marks given own) out.new result × (result ≤ length name.now + line_room) }
{
    let one = text::put_text(out, 0, name);
    let two = text::put_text(out, one, b": ");
    let three = put_verdict(out, two, number, marks, given, own);
    text::put_text(out, three, b"\n")
}

// ---- the other lines

fn put_refusal_line(out: &mut [u8], number: u32) -> usize
    requires { line_room ≤ length out.old }
    ensures { Puts out.old 0 (refusal_line number) out.new result × (result ≤ line_room) }
{
    let one = put_refusal(out, 0, number);
    text::put_text(out, one, b"\n")
}

fn put_written_line(out: &mut [u8], name: &[u8], steps: u64, bytes: u64) -> usize
    requires { length name.now + line_room ≤ length out.old }
    ensures { Puts out.old 0 (written_line name.now steps bytes) out.new result × (result ≤ length name.now + line_room) }
{
    let one = text::put_text(out, 0, name);
    let two = text::put_text(out, one, b": ");
    let three = put_number(out, two, steps);
    let four = text::put_text(out, three, b" steps, ");
    let five = put_number(out, four, bytes);
    text::put_text(out, five, b" bytes\n")
}

fn put_unwritten_line(out: &mut [u8], name: &[u8]) -> usize
    requires { length name.now + line_room ≤ length out.old }
    ensures { Puts out.old 0 (unwritten_line name.now) out.new result × (result ≤ length name.now + line_room) }
{
    let one = text::put_text(out, 0, name);
    text::put_text(out, one, b": could not be written\n")
}

// ---- the calls: each puts its text at the start of `out` and answers its length; 0 and nothing where that is too short

pub fn room_for(name: &[u8], out: &[u8]) -> bool
    ensures { result ≡ room_for name.now out.now }
{
    name.len() + LINE_ROOM <= out.len()
}

// The line of a marked sheet: `number` is the refusal's, `given` the steps on the sheet, `own` those of the run.
pub fn mark_line(
    name: &[u8],
    number: u32,
    marks: Marks,
    given: usize,
    own: u32,
    out: &mut [u8],
) -> usize
    ensures { IsPrefixLen result out.new × (put result out.new ≡ mark_line_into name.now number marks given own out.old) }
{
    if !room_for(name, out) {
        return 0;
    }
    put_mark_line(out, name, number, marks, given as u64, own as u64)
}

pub fn refusal_line(number: u32, out: &mut [u8]) -> usize
    ensures { IsPrefixLen result out.new × (put result out.new ≡ refusal_line_into number out.old) }
{
    if !room_for(b"", out) {
        return 0;
    }
    put_refusal_line(out, number)
}

pub fn written_line(name: &[u8], steps: usize, bytes: usize, out: &mut [u8]) -> usize
    ensures { IsPrefixLen result out.new × (put result out.new ≡ written_line_into name.now steps bytes out.old) }
{
    if !room_for(name, out) {
        return 0;
    }
    put_written_line(out, name, steps as u64, bytes as u64)
}

pub fn unwritten_line(name: &[u8], out: &mut [u8]) -> usize
    ensures { IsPrefixLen result out.new × (put result out.new ≡ unwritten_line_into name.now out.old) }
{
    if !room_for(name, out) {
        return 0;
    }
    put_unwritten_line(out, name)
}
