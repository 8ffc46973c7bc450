// Marking a sheet, and writing the model sheet, from the files' bytes.
#![tactic(auto)]

ghost use Rattle.std.specs.Prelude.{◌≡◌};
ghost use Rattle.std.specs.Result.{result_unwrap_or};
ghost use Rattle.answer.specs.Answer.{number_of};
ghost use Rattle.io.specs.Counts.{IsPrefixLen};
ghost use Rattle.sheet_lines.specs.Compare.{marks_step};
ghost use Rattle.sheet.specs.Mark.{lent_runs, unmarked, marking, modelling};
ghost use Rattle.sheet_files.specs.SheetFiles.{marked_of, modelled_of, lined, line_buffers_ok, mark_files_of};

use answer::Refusal;
use launch_files::{FILE_WORDS, KERNEL_WORDS};
use sheet::Marked;
use sheet_lines::Marks;

// What a refused marking is worth.
const UNMARKED: Marked = Marked {
    marks: Marks::NoMarks,
    steps: 0,
};

// The length of a sheet's line, the refusal's number, and the differing step, 0 where there is none: numbers, since the clause of
// mark_files (`lined`) has a length and a line beside a refusal too.
#[derive(Drop)]
pub struct Line {
    pub size: usize,
    pub number: u32,
    pub step: u32,
}

// What the sheet is worth against the run of the three files.
fn mark_run(
    card: &[u8],
    kernel: &[u8],
    bytes: &mut [u8],
    vector: &mut [u32],
    sheet: &[u8],
) -> Result<Marked, Refusal>
    ensures { marking (number_of result) (result_unwrap_or result unmarked).marks (result_unwrap_or result unmarked).steps (lent_runs vector.new bytes.new) ≡ marked_of card.now kernel.now bytes.old vector.old sheet.now }
{
    let read = launch_files::read_files(card, kernel, bytes);
    read.answer?;
    let mut words = [0u32; KERNEL_WORDS];
    let kernel = launch_files::kernel_words(kernel, &mut words);
    sheet::mark(read.launch, kernel, vector, bytes, sheet)
}

// A whole vector file, and room for every line of the name. Of printout's test only `vector.len() == FILE_WORDS` is the same, which no function makes plainer.
fn buffers_ok(vector: &[u32], name: &[u8], out: &[u8]) -> bool
    ensures { result ≡ line_buffers_ok vector.now name.now out.now }
{
    let room = sheet_text::room_for(name, out);
    (vector.len() == FILE_WORDS) & room
}

// The line of the sheet at the start of `out`. Where a lent buffer is too short its length is 0, the number 1, and nothing changes.
pub fn mark_files(
    card: &[u8],
    kernel: &[u8],
    bytes: &mut [u8],
    vector: &mut [u32],
    sheet: &[u8],
    name: &[u8],
    out: &mut [u8],
) -> Line
    ensures { IsPrefixLen result.size out.new × (lined result.size result.number result.step out.new (lent_runs vector.new bytes.new) ≡ mark_files_of card.now kernel.now bytes.old vector.old sheet.now name.now out.old) }
{
    if !buffers_ok(vector, name, out) {
        return Line {
            size: 0,
            number: Refusal::Size.number(),
            step: 0,
        };
    }
    let got = mark_run(card, kernel, bytes, vector, sheet);
    let number = answer::number(&got);
    let marked = got.unwrap_or(UNMARKED);
    let given = sheet_lines::steps_in(sheet);
    let size = sheet_text::mark_line(name, number, marked.marks, given, marked.steps, out);
    let step = sheet_lines::marks_step(marked.marks);
    Line { size, number, step }
}

// The sheet of the run of the three files at the start of `target`.
pub fn model_files(
    card: &[u8],
    kernel: &[u8],
    bytes: &mut [u8],
    vector: &mut [u32],
    target: &mut [u8],
) -> Result<u32, Refusal>
    ensures { modelling (number_of result) (result_unwrap_or result 0) target.new (lent_runs vector.new bytes.new) ≡ modelled_of card.now kernel.now bytes.old vector.old target.old }
{
    let read = launch_files::read_files(card, kernel, bytes);
    read.answer?;
    let mut words = [0u32; KERNEL_WORDS];
    let kernel = launch_files::kernel_words(kernel, &mut words);
    sheet::model(read.launch, kernel, vector, bytes, target)
}
