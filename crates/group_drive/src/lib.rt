// A group's run on its warps' words: that warp's step by the one loop over steps, and the loop over turns.
#![tactic(auto)]

ghost use Rattle.std.specs.Prelude.{◌≡◌, ◌<◌, length};
ghost use Rattle.answer.specs.Answer.{number_of};
ghost use Rattle.memory.specs.Memories.{contents};
ghost use Rattle.group_words.specs.Row.{Ready, Rooms};
ghost use Rattle.group_drive.specs.GroupDrives.{Turns, GroupDrives, GroupRuns};

use answer::Refusal;
use group_words::FILE_WORDS;
use layout::WarpWords;

// How a step of a group ended, and the warp that took it, or whose refusal it is.
#[derive(Clone, Copy)]
pub struct Turned {
    pub answer: Result<(), Refusal>,
    pub warp: usize,
}

// One step of a group, from `turn` on, after 1 and 2 were tested. The warp's own step is a run with a budget of 1: the step keeps its one caller.
fn step_group(
    ws: &mut [WarpWords],
    kernel: &[u32],
    vector: &mut [u32],
    bytes: &mut [u8],
    local: &mut [u8],
    turn: usize,
) -> Turned
    requires { (turn < length ws.old) × Ready kernel.now turn ws.old vector.old (contents bytes.old local.old) }
    ensures { Turns kernel.now turn (number_of result.answer) result.warp ws.old vector.old (contents bytes.old local.old) ws.new vector.new (contents bytes.new local.new) }
{
    let Some(i) = group_words::pick(ws, turn) else {
        return Turned {
            answer: Err(Refusal::Ended),
            warp: 0,
        };
    };
    let a = i * FILE_WORDS;
    let file = &mut vector[a..a + FILE_WORDS];
    let end = drive::drive(&mut ws[i], kernel, file, bytes, local, 1);
    if end.answer.is_ok() {
        group_words::settle(ws, i);
    }
    Turned {
        answer: end.answer,
        warp: i,
    }
}

// How a run of a group ended, the warp that stopped it, the steps that were taken and the turn.
#[derive(Clone, Copy)]
pub struct GroupDrove {
    pub answer: Result<(), Refusal>,
    pub stopped: u32,
    pub steps: u32,
    pub turn: usize,
}

// At most `budget` steps of a group, after 1 and 2 were tested.
fn drive_group(
    ws: &mut [WarpWords],
    kernel: &[u32],
    vector: &mut [u32],
    bytes: &mut [u8],
    local: &mut [u8],
    turn: usize,
    budget: u32,
) -> GroupDrove
    requires { (turn < length ws.old) × Ready kernel.now turn ws.old vector.old (contents bytes.old local.old) }
    ensures { GroupDrives kernel.now turn budget (number_of result.answer) result.stopped result.steps result.turn ws.old vector.old (contents bytes.old local.old) ws.new vector.new (contents bytes.new local.new) }
{
    let mut at = turn;
    for t in 0..budget {
        let r = step_group(ws, kernel, vector, bytes, local, at);
        if r.answer.is_err() {
            return GroupDrove {
                answer: r.answer,
                stopped: r.warp as u32,
                steps: t,
                turn: at,
            };
        }
        at = group_words::next(r.warp, ws.len());
    }
    GroupDrove {
        answer: Ok(()),
        stopped: 0,
        steps: budget,
        turn: at,
    }
}

// ---- the run

// Ended before its first step.
fn no_step(answer: Result<(), Refusal>, turn: usize) -> GroupDrove
    ensures { result ≡ record { answer = answer; stopped = 0; steps = 0; turn = turn } }
{
    GroupDrove {
        answer,
        stopped: 0,
        steps: 0,
        turn,
    }
}

// A run on the words of a group's warps: its tests, and at most `budget` steps.
pub fn run_group(
    ws: &mut [WarpWords],
    kernel: &[u32],
    vector: &mut [u32],
    bytes: &mut [u8],
    local: &mut [u8],
    turn: usize,
    budget: u32,
) -> GroupDrove
    requires { Rooms ws.old }
    ensures { GroupRuns kernel.now turn budget (number_of result.answer) result.stopped result.steps result.turn ws.old vector.old (contents bytes.old local.old) ws.new vector.new (contents bytes.new local.new) }
{
    if !group_words::sizes_ok(ws, kernel, vector, bytes, local) {
        return no_step(Err(Refusal::Size), turn);
    }
    if !group_words::group_ok(ws, turn) {
        return no_step(Err(Refusal::Malformed), turn);
    }
    if ws.len() <= turn {
        if budget == 0 {
            return no_step(Ok(()), turn);
        }
        return no_step(Err(Refusal::Ended), turn);
    }
    drive_group(ws, kernel, vector, bytes, local, turn, budget)
}
