// Runs the machine on the stored cases and writes a line for each. reference/CASES-FORMAT.md says what a case file holds and what a line says.
#![tactic(auto)]

use layout::STATE_WORDS;
use std::fs;
use std::io::Read;
use std::rt::Files;
use test_io::{CARD_ROOM, DATA_ROOM, DIGEST, KERNEL_ROOM, Line, VECTOR_ROOM};

// The longest saved state of a case.
const STATE_ROOM: usize = 256;

// The kinds of case, by their numbers 1 to 7; any other number is a launch.
#[derive(Clone, Copy)]
enum Kind {
    Launch,
    Saved,
    ReadCard,
    Release,
    WriteCard,
    ChecksItself,
    DataOnly,
}

impl From<u8> for Kind {
    fn from(n: u8) -> Kind {
        match n {
            2 => Kind::Saved,
            3 => Kind::ReadCard,
            4 => Kind::Release,
            5 => Kind::WriteCard,
            6 => Kind::ChecksItself,
            7 => Kind::DataOnly,
            _ => Kind::Launch,
        }
    }
}

impl Kind {
    // What the last field says of a run.
    fn digest(self, state: &[u32], vector: &[u32], bytes: &[u8]) -> u32 {
        match self {
            Kind::ChecksItself => state.get(3).copied().unwrap_or(0),
            Kind::DataOnly => test_io::mixed_bytes(DIGEST, bytes),
            _ => test_io::mixed_lent(test_io::mixed_words(DIGEST, state), vector, bytes),
        }
    }
}

// After a refused launch the state is all zeros, which the run refuses in turn: nothing changes. A saved state was launched before.
fn run_case(
    rt: &impl Print,
    file: &mut impl Read,
    number: u32,
    kind: Kind,
    card: &[u8],
    state: &mut [u32],
) {
    let mut kernel = [0u32; KERNEL_ROOM];
    let mut bytes = [0u8; DATA_ROOM];
    let mut vector = [0u32; VECTOR_ROOM];
    let kernel = test_io::read_kernel(file, &mut kernel);
    let bytes = test_io::read_data(file, &mut bytes);
    let vector = test_io::read_vector(file, &mut vector);
    let budget = test_io::next_word(file);
    let mut steps = [0u32; 1];
    let launched = match kind {
        Kind::Saved => 0,
        _ => capi::bench_launch(card, kernel, vector, bytes, state),
    };
    let ran = capi::bench_run(state, kernel, vector, bytes, budget, &mut steps);
    let line = Line {
        number,
        code: if launched == 0 { ran } else { launched },
        steps: steps[0],
        last: kind.digest(state, vector, bytes),
        ..Line::default()
    };
    line.with_state(state).print(rt);
}

fn launch_case(rt: &impl Print, file: &mut impl Read, number: u32, kind: Kind) {
    let mut card = [0u8; CARD_ROOM];
    let card = test_io::read_card(file, &mut card);
    let mut state = [0u32; STATE_WORDS];
    run_case(rt, file, number, kind, card, &mut state);
}

fn state_case(rt: &impl Print, file: &mut impl Read, number: u32) {
    let mut state = [0u32; STATE_ROOM];
    let state = test_io::read_state(file, &mut state);
    run_case(rt, file, number, Kind::Saved, b"", state);
}

fn read_card_case(rt: &impl Print, file: &mut impl Read, number: u32) {
    let mut card = [0u8; CARD_ROOM];
    let read = card::read_card(test_io::read_card(file, &mut card));
    let code = answer::number(&read);
    let l = read.unwrap_or(warp::zero_launch());
    let f = l.fixed;
    let words = [
        f.numt,
        f.numw,
        f.wid,
        f.launchMask,
        f.codeBase,
        f.dataBase,
        l.entry,
        f.knl,
        f.wgid,
        f.lds,
        f.pds,
        f.gidx,
        f.gidy,
        f.gidz,
    ];
    let line = Line {
        number,
        code,
        pc: l.entry,
        mask: f.launchMask,
        last: test_io::mixed_words(DIGEST, &words),
        ..Line::default()
    };
    line.print(rt);
}

fn release_case(rt: &impl Print, file: &mut impl Read, number: u32) {
    let mut state = [0u32; STATE_ROOM];
    let state = test_io::read_state(file, &mut state);
    let code = capi::bench_release(state);
    let line = Line {
        number,
        code,
        last: test_io::mixed_words(DIGEST, state),
        ..Line::default()
    };
    line.with_state(state).print(rt);
}

fn write_card_case(rt: &impl Print, file: &mut impl Read, number: u32) {
    let launch = test_io::read_launch(file);
    let mut target = [165u8; CARD_ROOM];
    let target = test_io::start_of(&mut target, test_io::next_word(file));
    let code = answer::number(&card::write_card(launch, target));
    let line = Line {
        number,
        code,
        last: test_io::mixed_bytes(DIGEST, target),
        ..Line::default()
    };
    line.print(rt);
}

fn next_case(rt: &impl Print, file: &mut impl Read, number: u32) {
    let kind = Kind::from(test_io::next_byte(file));
    // The body's length, which its kind's parts give again.
    test_io::next_word(file);
    match kind {
        Kind::Saved => state_case(rt, file, number),
        Kind::ReadCard => read_card_case(rt, file, number),
        Kind::Release => release_case(rt, file, number),
        Kind::WriteCard => write_card_case(rt, file, number),
        _ => launch_case(rt, file, number, kind),
    }
}

// The lines of a case file's cases, numbered from 0.
fn run_cases(rt: &impl Print, file: &mut impl Read) {
    // The file's letters.
    test_io::next_word(file);
    for i in 0..test_io::next_word(file) {
        next_case(rt, file, i);
    }
}

// No lines where the file cannot be opened.
fn run_file(rt: &(impl Files + Print), path: &str) {
    if let Ok(mut file) = fs::open(rt, path) {
        run_cases(rt, &mut file);
    }
}

fn main(rt: HostRuntime) {
    run_file(&rt, "generated.bin");
    run_file(&rt, "riscv_tests.bin");
    run_file(&rt, "vector_ops.bin");
}
