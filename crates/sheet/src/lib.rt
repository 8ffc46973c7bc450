// Answer sheets: a run's own sheet written, and a sheet marked against it.
#![tactic(auto)]

ghost use Rattle.std.specs.Prelude.{◌≡◌, ◌&&◌, ◌≤◌, length};
ghost use Rattle.std.specs.Result.{result_unwrap_or};
ghost use Rattle.answer.specs.Answer.{number_of};
ghost use Rattle.memory.specs.Memories.{alone};
ghost use Rattle.warp.specs.WellFormed.{launch_ok_of};
ghost use Rattle.definition.specs.State.{state};
ghost use Rattle.definition.specs.Refuse.{runs_ok_of};
ghost use Rattle.sheet.specs.Mark.{own_start, lent_runs, unmarked, marking, mark_of, modelling, model_of, sheet_room};
ghost use Rattle.sheet.specs.Traces.{Traces};

use answer::Refusal;
use sheet_lines::{HEAD_SIZE, LINE_SIZE, Marks, SHEET_ROOM, STEP_LIMIT};
use warp::{Launch, Warp};

// What a sheet is worth, and how many steps the run has.
#[derive(Clone, Copy)]
pub struct Marked {
    pub marks: Marks,
    pub steps: u32,
}

// ---- the run

// At most 4,096 steps from the warp on, each one's line put into `t`; answers how many were taken. A step is a run of one step: the loop over steps has one caller.
fn trace(start: Warp, kernel: &[u32], vector: &mut [u32], bytes: &mut [u8], t: &mut [u8]) -> usize
    requires { sheet_room ≤ length t.old }
    ensures { Traces kernel.now (state start vector.old (alone bytes.old)) result vector.new bytes.new t.old t.new }
{
    let mut w = start;
    for n in 0..STEP_LIMIT {
        let word = sheet_lines::word_on(kernel, w);
        // not by `machine::step`, whose result is copied about: a class took a fifth longer (docs/SPEED.md)
        let end = machine::run(w, kernel, vector, bytes, 1);
        if end.answer.is_err() {
            return n;
        }
        let u = end.warp;
        sheet_lines::put_line(t, HEAD_SIZE + LINE_SIZE * n, w.pc, word, u.mask, u.depth);
        w = u;
    }
    STEP_LIMIT
}

// A launch's own tests.
fn may_launch(l: Launch, kernel: &[u32], vector: &[u32], bytes: &[u8]) -> bool
    ensures { result ≡ (runs_ok_of l.fixed kernel.now vector.now (alone bytes.now) && launch_ok_of l) }
{
    let none = [0u8; 0];
    let f = l.fixed;
    sizes::runs_ok(f, kernel, vector, bytes, &none) & warp::launch_ok(l)
}

// The run of a launch, which the callers have tested; answers how many steps it took.
fn trace_launch(
    l: Launch,
    kernel: &[u32],
    vector: &mut [u32],
    bytes: &mut [u8],
    t: &mut [u8],
) -> usize
    requires { sheet_room ≤ length t.old }
    ensures { Traces kernel.now (own_start kernel.now l vector.old bytes.old) result vector.new bytes.new t.old t.new }
{
    let launched = launch_release::launch(l, kernel, vector, bytes);
    let w = launched.unwrap_or(warp::zero_warp());
    trace(w, kernel, vector, bytes, t)
}

// ---- marking

// What the sheet is worth against the launch's run, and how many steps that run has.
pub fn mark(
    l: Launch,
    kernel: &[u32],
    vector: &mut [u32],
    bytes: &mut [u8],
    sheet: &[u8],
) -> Result<Marked, Refusal>
    ensures { marking (number_of result) (result_unwrap_or result unmarked).marks (result_unwrap_or result unmarked).steps (lent_runs vector.new bytes.new) ≡ mark_of kernel.now l vector.old bytes.old sheet.now }
{
    if !may_launch(l, kernel, vector, bytes) {
        return Err(Refusal::Size);
    }
    if !sheet_lines::sheet_ok(sheet) {
        return Err(Refusal::BadSheet);
    }
    let mut own = [0u8; SHEET_ROOM];
    let n = trace_launch(l, kernel, vector, bytes, &mut own);
    if n == 0 {
        return Err(Refusal::NoSteps);
    }
    let m = (sheet.len() - HEAD_SIZE) / LINE_SIZE;
    Ok(Marked {
        marks: sheet_lines::compare(&own, n, sheet, m),
        steps: n as u32,
    })
}

// ---- the model sheet

// The run's own sheet at the start of `target`, whose bytes past it stay; answers how many bytes it has.
pub fn model(
    l: Launch,
    kernel: &[u32],
    vector: &mut [u32],
    bytes: &mut [u8],
    target: &mut [u8],
) -> Result<u32, Refusal>
    ensures { modelling (number_of result) (result_unwrap_or result 0) target.new (lent_runs vector.new bytes.new) ≡ model_of kernel.now l vector.old bytes.old target.old }
{
    if !may_launch(l, kernel, vector, bytes) {
        return Err(Refusal::Size);
    }
    if target.len() < SHEET_ROOM {
        return Err(Refusal::Size);
    }
    let n = trace_launch(l, kernel, vector, bytes, target);
    if n == 0 {
        return Err(Refusal::NoSteps);
    }
    sheet_lines::put_head(target, n);
    Ok((HEAD_SIZE + LINE_SIZE * n) as u32)
}
