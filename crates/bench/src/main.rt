// The bench program: the three files of the folder that it is run in, and the printout to standard output.
#![tactic(auto)]

fn main(rt: HostRuntime) {
    files::run_files(&rt, b"card.bin", b"kernel.bin", b"data.bin");
}
