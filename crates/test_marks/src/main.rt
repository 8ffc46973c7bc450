// Calls marking and the model sheet on the stored cases and writes a line for each. reference/CASES-FORMAT.md says what a case file holds and what a line says.
#![tactic(auto)]

use std::fs;
use std::io::Read;
use test_io::{CARD_ROOM, DATA_ROOM, DIGEST, KERNEL_ROOM, VECTOR_ROOM};

// The kind of a case that marks a sheet; the others write one.
const MARK: u8 = 8;

// The words and bytes of a result, a written and a target before the call.
const WORD_BEFORE: u32 = 2779096485;

const BYTE_BEFORE: u8 = 165;

// The longest target of a case.
const TARGET_ROOM: usize = 53293;

// What both kinds of call take.
#[derive(Drop)]
struct Lent<'a> {
    card: &'a [u8],
    kernel: &'a [u32],
    vector: &'a mut [u32],
    bytes: &'a mut [u8],
}

impl Lent<'_> {
    fn mark(&mut self, sheet: &[u8], res: &mut [u32]) -> u32 {
        capi_sheet::bench_mark(self.card, self.kernel, self.vector, self.bytes, sheet, res)
    }

    fn write(&mut self, target: &mut [u8], written: &mut [u32]) -> u32 {
        capi_sheet::bench_sheet(
            self.card,
            self.kernel,
            self.vector,
            self.bytes,
            target,
            written,
        )
    }

    fn digest(&self, of_the_rest: u32) -> u32 {
        test_io::mixed_lent(of_the_rest, self.vector, self.bytes)
    }
}

fn mark_case(rt: &impl Print, file: &mut impl Read, number: u32, lent: &mut Lent<'_>) {
    let mut sheet = [0u8; DATA_ROOM];
    // A sheet is stored as a card is.
    let sheet = test_io::read_card(file, &mut sheet);
    let mut result = [WORD_BEFORE; 4];
    let result = test_io::start_of(&mut result, test_io::next_word(file));
    let code = lent.mark(sheet, result);
    let [first, second] = test_io::words_of::<2>(result);
    let digest = lent.digest(test_io::mixed_words(DIGEST, result));
    let _ = println!(rt; "{number} {code} {first} {second} {digest:08x}");
}

fn write_case(rt: &impl Print, file: &mut impl Read, number: u32, lent: &mut Lent<'_>) {
    let mut target = [BYTE_BEFORE; TARGET_ROOM];
    let target = test_io::start_of(&mut target, test_io::next_word(file));
    let mut written = [WORD_BEFORE; 3];
    let written = test_io::start_of(&mut written, test_io::next_word(file));
    let code = lent.write(target, written);
    let [size] = test_io::words_of::<1>(written);
    let of_both = test_io::mixed_bytes(test_io::mixed_words(DIGEST, written), target);
    let digest = lent.digest(of_both);
    let _ = println!(rt; "{number} {code} {size} {digest:08x}");
}

// What both kinds begin with is read here, the rest by the kind's own function.
fn next_case(rt: &impl Print, file: &mut impl Read, number: u32) {
    let kind = test_io::next_byte(file);
    // The body's length, which its kind's parts give again.
    test_io::next_word(file);
    let mut card = [0u8; CARD_ROOM];
    let mut kernel = [0u32; KERNEL_ROOM];
    let mut bytes = [0u8; DATA_ROOM];
    let mut vector = [0u32; VECTOR_ROOM];
    let mut lent = Lent {
        card: test_io::read_card(file, &mut card),
        kernel: test_io::read_kernel(file, &mut kernel),
        bytes: test_io::read_data(file, &mut bytes),
        vector: test_io::read_vector(file, &mut vector),
    };
    if kind == MARK {
        mark_case(rt, file, number, &mut lent);
    } else {
        write_case(rt, file, number, &mut lent);
    }
}

// The lines of a case file's cases, numbered from 0.
fn run_cases(rt: &impl Print, file: &mut impl Read) {
    // The file's letters.
    test_io::next_word(file);
    for i in 0..test_io::next_word(file) {
        next_case(rt, file, i);
    }
}

// No lines where the file cannot be opened.
fn main(rt: HostRuntime) {
    if let Ok(mut file) = fs::open(&rt, "marks.bin") {
        run_cases(&rt, &mut file);
    }
}
