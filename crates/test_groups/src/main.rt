// Calls a group's launch, step and run on the stored cases and writes a line for each. reference/CASES-FORMAT.md says what a case file holds and what a line says.
#![tactic(auto)]

use std::fs;
use std::io::Read;
use test_io::{DATA_ROOM, DIGEST, KERNEL_ROOM};

// The kinds of case: a launch of a group and its run, a step of a saved group, and the run of one.
#[derive(Clone, Copy)]
enum Kind {
    Launch,
    Step,
    Run,
}

impl From<u8> for Kind {
    fn from(n: u8) -> Kind {
        match n {
            10 => Kind::Launch,
            11 => Kind::Step,
            _ => Kind::Run,
        }
    }
}

// The words of a state that is launched into, of a stopped and of an out before the call.
const WORD_BEFORE: u32 = 2779096485;

// The most bytes of cards and words of a state, a saved group and the vector files of a case.
const CARDS_ROOM: usize = 1650;

const STATE_ROOM: usize = 8195;

const GROUP_ROOM: usize = 7954;

const VECTOR_ROOM: usize = 270336;

// What a group's calls take beside cards and state.
#[derive(Drop)]
struct Lent<'a> {
    kernel: &'a [u32],
    vector: &'a mut [u32],
    bytes: &'a mut [u8],
    local: &'a mut [u8],
}

impl Lent<'_> {
    fn step(&mut self, state: &mut [u32], stopped: &mut [u32]) -> u32 {
        capi_group::bench_group_step(
            state,
            self.kernel,
            self.vector,
            self.bytes,
            self.local,
            stopped,
        )
    }

    fn run(&mut self, state: &mut [u32], budget: u32, out: &mut [u32]) -> u32 {
        capi_group::bench_group_run(
            state,
            self.kernel,
            self.vector,
            self.bytes,
            self.local,
            budget,
            out,
        )
    }

    fn digest(&self, state: &[u32]) -> u32 {
        let group = test_io::mixed_words(DIGEST, state);
        test_io::mixed_bytes(
            test_io::mixed_lent(group, self.vector, self.bytes),
            self.local,
        )
    }
}

fn print_line(
    rt: &impl Print,
    number: u32,
    code: u32,
    steps: u32,
    wid: u32,
    state: &[u32],
    lent: &Lent<'_>,
    answered: &[u32],
) {
    let first = state.first().copied().unwrap_or(0);
    let digest = test_io::mixed_words(lent.digest(state), answered);
    let _ = println!(rt; "{number} {code} {steps} {wid} {first} {digest:08x}");
}

// A group whose launch was refused is not run: the answer is the launch's.
fn launch_case(
    rt: &impl Print,
    file: &mut impl Read,
    number: u32,
    cards: &[u8],
    state: &mut [u32],
    lent: Lent<'_>,
) {
    let state = test_io::start_of(state, test_io::next_word(file));
    let budget = test_io::next_word(file);
    let mut out = [0u32; 2];
    let Lent {
        kernel,
        vector,
        bytes,
        local,
    } = lent;
    let launched = capi_group::bench_group_launch(cards, kernel, vector, bytes, local, state);
    let mut lent = Lent {
        kernel,
        vector,
        bytes,
        local,
    };
    let code = if launched == 0 {
        lent.run(state, budget, &mut out)
    } else {
        launched
    };
    print_line(rt, number, code, out[0], out[1], state, &lent, &out);
}

fn step_case(
    rt: &impl Print,
    file: &mut impl Read,
    number: u32,
    state: &mut [u32],
    lent: &mut Lent<'_>,
) {
    let mut stopped = [WORD_BEFORE; 3];
    let stopped = test_io::start_of(&mut stopped, test_io::next_word(file));
    let code = lent.step(state, stopped);
    let steps = if code == 0 { 1 } else { 0 };
    let [wid] = test_io::words_of::<1>(stopped);
    print_line(rt, number, code, steps, wid, state, lent, stopped);
}

fn run_case(
    rt: &impl Print,
    file: &mut impl Read,
    number: u32,
    state: &mut [u32],
    lent: &mut Lent<'_>,
) {
    let budget = test_io::next_word(file);
    let mut out = [WORD_BEFORE; 3];
    let out = test_io::start_of(&mut out, test_io::next_word(file));
    let code = lent.run(state, budget, out);
    let [steps, wid] = test_io::words_of::<2>(out);
    print_line(rt, number, code, steps, wid, state, lent, out);
}

// What all kinds have after cards or group is read here, the rest by the kind's own function.
fn lend(
    rt: &impl Print,
    file: &mut impl Read,
    number: u32,
    kind: Kind,
    cards: &[u8],
    state: &mut [u32],
    vector: &mut [u32],
) {
    let mut kernel = [0u32; KERNEL_ROOM];
    let mut bytes = [0u8; DATA_ROOM];
    let mut local = [0u8; DATA_ROOM];
    let mut lent = Lent {
        kernel: test_io::read_kernel(file, &mut kernel),
        bytes: test_io::read_data(file, &mut bytes),
        vector: test_io::read_vector(file, vector),
        // Local memory is stored as data is.
        local: test_io::read_data(file, &mut local),
    };
    match kind {
        Kind::Launch => launch_case(rt, file, number, cards, state, lent),
        Kind::Step => step_case(rt, file, number, state, &mut lent),
        Kind::Run => run_case(rt, file, number, state, &mut lent),
    }
}

fn cards_case(rt: &impl Print, file: &mut impl Read, number: u32, vector: &mut [u32]) {
    let mut cards = [0u8; CARDS_ROOM];
    let cards = test_io::read_card(file, &mut cards);
    let mut state = [WORD_BEFORE; STATE_ROOM];
    lend(rt, file, number, Kind::Launch, cards, &mut state, vector);
}

fn group_case(rt: &impl Print, file: &mut impl Read, number: u32, kind: Kind, vector: &mut [u32]) {
    let mut state = [0u32; GROUP_ROOM];
    let state = test_io::read_group(file, &mut state);
    lend(rt, file, number, kind, b"", state, vector);
}

fn next_case(rt: &impl Print, file: &mut impl Read, number: u32, vector: &mut [u32]) {
    let kind = Kind::from(test_io::next_byte(file));
    // The body's length, which its kind's parts give again.
    test_io::next_word(file);
    match kind {
        Kind::Launch => cards_case(rt, file, number, vector),
        _ => group_case(rt, file, number, kind, vector),
    }
}

// The lines of a case file's cases, numbered from 0.
fn run_cases(rt: &impl Print, file: &mut impl Read) {
    // The file's letters.
    test_io::next_word(file);
    let count = test_io::next_word(file);
    // Each case writes all that it lends of it.
    let mut vector = [0u32; VECTOR_ROOM];
    for i in 0..count {
        next_case(rt, file, i, &mut vector);
    }
}

// No lines where the file cannot be opened.
fn main(rt: HostRuntime) {
    if let Ok(mut file) = fs::open(&rt, "groups.bin") {
        run_cases(&rt, &mut file);
    }
}
