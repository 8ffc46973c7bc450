// Marking and the model sheet for C and Rust, over numbers and slices: a library of its own.
#![tactic(auto)]

ghost use Rattle.std.specs.Prelude.{◌≡◌, [], ◌∷◌};
ghost use Rattle.sheet_lines.specs.Compare.{marks_number, marks_step};
ghost use Rattle.sheet.specs.Mark.{lent_runs};
ghost use Rattle.capi_sheet.specs.Calls.{fitted, marks_words, mark_called, mark_call_of, sheet_called, sheet_call_of};

use answer::Refusal;
use sheet_lines::Marks;

// The marks' number and the differing step, where there is room for just these two.
fn put_marks(t: &mut [u32], m: Marks)
    ensures { t.new ≡ fitted (marks_words m) t.old }
{
    if t.len() != 2 {
        return;
    }
    t[0] = sheet_lines::marks_number(m);
    t[1] = sheet_lines::marks_step(m);
}

// A count, where there is room for just one word.
fn put_count(t: &mut [u32], n: u32)
    ensures { t.new ≡ fitted (n ∷ []) t.old }
{
    if t.len() != 1 {
        return;
    }
    t[0] = n;
}

pub fn bench_mark(
    card: &[u8],
    kernel: &[u32],
    vector: &mut [u32],
    bytes: &mut [u8],
    sheet: &[u8],
    res: &mut [u32],
) -> u32
    ensures { mark_called result res.new (lent_runs vector.new bytes.new) ≡ mark_call_of card.now kernel.now vector.old bytes.old sheet.now res.old }
{
    let l = match card::read_card(card) {
        Ok(l) => l,
        Err(why) => {
            put_marks(res, Marks::NoMarks);
            return why.number();
        }
    };
    if res.len() != 2 {
        return Refusal::Size.number();
    }
    match sheet::mark(l, kernel, vector, bytes, sheet) {
        Ok(marked) => {
            put_marks(res, marked.marks);
            0
        }
        Err(why) => {
            put_marks(res, Marks::NoMarks);
            why.number()
        }
    }
}

pub fn bench_sheet(
    card: &[u8],
    kernel: &[u32],
    vector: &mut [u32],
    bytes: &mut [u8],
    target: &mut [u8],
    written: &mut [u32],
) -> u32
    ensures { sheet_called result written.new target.new (lent_runs vector.new bytes.new) ≡ sheet_call_of card.now kernel.now vector.old bytes.old target.old written.old }
{
    let l = match card::read_card(card) {
        Ok(l) => l,
        Err(why) => {
            put_count(written, 0);
            return why.number();
        }
    };
    if written.len() != 1 {
        return Refusal::Size.number();
    }
    let modelled = sheet::model(l, kernel, vector, bytes, target);
    put_count(written, modelled.unwrap_or(0));
    answer::number(&modelled)
}
