// The bench program's work: three files' bytes in, the printout's bytes out.
#![tactic(auto)]

ghost use Rattle.std.specs.Prelude.{◌≡◌, ◌≤◌, length};
ghost use Rattle.io.specs.Counts.{IsPrefixLen};
ghost use Rattle.lines.specs.Lines.{room_needed};
ghost use Rattle.printout.specs.Printout.{kernel_report, report_of, printed, put_into, buffers_ok_of, print_files_of};

use launch_files::{BUDGET, FILE_WORDS, KERNEL_WORDS};
use warp::Launch;

// The bytes that hold every printout.
pub const ROOM: usize = 107;

// The printout of a launch and a run, the kernel in words.
fn print_kernel(
    l: Launch,
    kernel: &[u32],
    vector: &mut [u32],
    bytes: &mut [u8],
    out: &mut [u8],
) -> usize
    requires { room_needed ≤ length out.old }
    ensures { (printed result out.new vector.new bytes.new ≡ put_into out.old (kernel_report kernel.now l vector.old bytes.old)) × (result ≤ room_needed) }
{
    let w = match launch_release::launch(l, kernel, vector, bytes) {
        Ok(w) => w,
        Err(why) => return lines::put_code_line(out, why.number()),
    };
    let ran = machine::run(w, kernel, vector, bytes, BUDGET);
    let u = ran.warp;
    lines::put_five_lines(
        out,
        answer::number(&ran.answer),
        ran.steps as u64,
        u.pc,
        u.mask,
        u.depth as u64,
    )
}

// The printout of the three files' bytes, where there is room for it.
fn print_card(
    card: &[u8],
    kernel: &[u8],
    bytes: &mut [u8],
    vector: &mut [u32],
    out: &mut [u8],
) -> usize
    requires { room_needed ≤ length out.old }
    ensures { (printed result out.new vector.new bytes.new ≡ put_into out.old (report_of card.now kernel.now vector.old bytes.old)) × (result ≤ room_needed) }
{
    let read = launch_files::read_files(card, kernel, bytes);
    if let Err(why) = read.answer {
        return lines::put_code_line(out, why.number());
    }
    let mut words = [0u32; KERNEL_WORDS];
    let kernel = launch_files::kernel_words(kernel, &mut words);
    print_kernel(read.launch, kernel, vector, bytes, out)
}

// A whole vector file, and room for every printout.
fn buffers_ok(vector: &[u32], out: &[u8]) -> bool
    ensures { result ≡ buffers_ok_of vector.now out.now }
{
    (vector.len() == FILE_WORDS) & (ROOM <= out.len())
}

// The printout of the three files' bytes, at the start of `out`; answers how long it is. Where a lent buffer is too short that is 0, and nothing changes.
pub fn print_files(
    card: &[u8],
    kernel: &[u8],
    bytes: &mut [u8],
    vector: &mut [u32],
    out: &mut [u8],
) -> usize
    ensures { IsPrefixLen result out.new × (printed result out.new vector.new bytes.new ≡ print_files_of card.now kernel.now bytes.old vector.old out.old) }
{
    if !buffers_ok(vector, out) {
        return 0;
    }
    print_card(card, kernel, bytes, vector, out)
}
