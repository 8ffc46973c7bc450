// A run on the lent words: the tests, and the one loop over steps.
#![tactic(auto)]

ghost use Rattle.std.specs.Prelude.{◌≡◌, length};
ghost use Rattle.answer.specs.Answer.{number_of};
ghost use Rattle.layout.specs.Words.{moving_count, flat_count};
ghost use Rattle.memory.specs.Memories.{contents};
ghost use Rattle.handlers.specs.Handles.{lists};
ghost use Rattle.exec.specs.Ready.{Started};
ghost use Rattle.drive.specs.Drives.{Drives, RunsWords};

use answer::Refusal;
use layout::WarpWords;

// How a run ended, and how many steps it took.
#[derive(Clone, Copy)]
pub struct Drove {
    pub answer: Result<(), Refusal>,
    pub steps: u32,
}

// At most n steps on a warp's words: the one loop over steps; a single step is a run with a budget of 1.
pub fn drive(
    w: &mut WarpWords,
    kernel: &[u32],
    vector: &mut [u32],
    bytes: &mut [u8],
    local: &mut [u8],
    n: u32,
) -> Drove
    requires { Started kernel.now (lists w.old.fixed w.old.moving w.old.scalars w.old.splits vector.old (contents bytes.old local.old)) }
    ensures { (w.new.fixed ≡ w.old.fixed) × Drives kernel.now n (number_of result.answer) result.steps (lists w.old.fixed w.old.moving w.old.scalars w.old.splits vector.old (contents bytes.old local.old)) (lists w.new.fixed w.new.moving w.new.scalars w.new.splits vector.new (contents bytes.new local.new)) }
{
    // the loop's own, so that PC and mask stay in registers (docs/SPEED.md, rule 3)
    let mut moving = w.moving;
    for steps in 0..n {
        let answer = exec::step(&mut moving, w, kernel, vector, bytes, local);
        if answer.is_err() {
            w.moving = moving;
            return Drove { answer, steps };
        }
    }
    w.moving = moving;
    Drove {
        answer: Ok(()),
        steps: n,
    }
}

// A run on a warp's words: its tests, and at most n steps.
pub fn run_words(
    w: &mut WarpWords,
    kernel: &[u32],
    vector: &mut [u32],
    bytes: &mut [u8],
    local: &mut [u8],
    n: u32,
) -> Drove
    requires { (length w.old.moving ≡ moving_count) × (length w.old.splits ≡ flat_count) }
    ensures { (w.new.fixed ≡ w.old.fixed) × RunsWords kernel.now n (number_of result.answer) result.steps (lists w.old.fixed w.old.moving w.old.scalars w.old.splits vector.old (contents bytes.old local.old)) (lists w.new.fixed w.new.moving w.new.scalars w.new.splits vector.new (contents bytes.new local.new)) }
{
    if !sizes::runs_ok(layout::fixed_in(&w.fixed), kernel, vector, bytes, local) {
        return Drove {
            answer: Err(Refusal::Size),
            steps: 0,
        };
    }
    if !formed::words_ok(w) {
        return Drove {
            answer: Err(Refusal::Malformed),
            steps: 0,
        };
    }
    drive(w, kernel, vector, bytes, local, n)
}
