// The bench program's work on the examples, on wrong, missing, empty and oversized files, and on the largest that are taken; each folder is a case.
#![tactic(auto)]

macro_rules! cases {
    ($rt:expr; $($folder:literal),+) => {
        $(files::run_files(
            $rt,
            concat!($folder, "/card.bin").as_bytes(),
            concat!($folder, "/kernel.bin").as_bytes(),
            concat!($folder, "/data.bin").as_bytes(),
        );)+
    };
}

// The folders of examples/.
fn examples(rt: &HostRuntime) {
    cases!(rt; "end", "split", "loop31", "open31", "store", "outside", "private", "crossing", "extended", "x64", "race", "agree", "masked",
        "masked_v0");
}

// Cards that are missing, or whose length, version or total is wrong.
fn malformed_cards(rt: &HostRuntime) {
    cases!(rt; "no-files", "no-card", "empty-card", "short-card", "long-card", "card-length", "card-version");
}

// Cards with a value out of range.
fn cards_out_of_range(rt: &HostRuntime) {
    cases!(rt; "no-lanes", "wide-mask", "odd-entry");
}

// Kernels that are missing, empty, no whole words, the longest, too long, and of an unknown word.
fn kernels(rt: &HostRuntime) {
    cases!(rt; "no-kernel", "empty-kernel", "odd-kernel", "full-kernel", "long-kernel", "unknown-word");
}

// The largest data file, and two that are too large.
fn data_files(rt: &HostRuntime) {
    cases!(rt; "full-data", "large-data", "larger-data");
}

fn main(rt: HostRuntime) {
    examples(&rt);
    malformed_cards(&rt);
    cards_out_of_range(&rt);
    kernels(&rt);
    data_files(&rt);
}
