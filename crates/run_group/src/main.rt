// The group program: the four files of the folder that it is run in, and the lines to standard output.
#![tactic(auto)]

use files::{DATA_BUFFER, KERNEL_BUFFER};
use group_print::{CARDS_BYTES, ROOM};

// A byte to spare, by which a file that is too large is noticed.
const CARDS_BUFFER: usize = CARDS_BYTES + 1;

fn main(rt: HostRuntime) {
    let mut cards = [0u8; CARDS_BUFFER];
    let mut kernel = [0u8; KERNEL_BUFFER];
    let mut bytes = [0u8; DATA_BUFFER];
    let mut local = [0u8; DATA_BUFFER];
    let mut out = [0u8; ROOM];
    let cards = files::read_file(&rt, b"cards.bin", &mut cards);
    let kernel = files::read_file(&rt, b"kernel.bin", &mut kernel);
    let bytes = files::read_file(&rt, b"data.bin", &mut bytes);
    let local = files::read_file(&rt, b"local.bin", &mut local);
    let n = group_print::print_group(cards, kernel, bytes, local, &mut out);
    files::print_bytes(&rt, &out[..n]);
}
