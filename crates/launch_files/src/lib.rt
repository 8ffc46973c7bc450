// The three files of a launch: their tests, the card's launch and the kernel file's words.
#![tactic(auto)]

ghost use Rattle.std.specs.Prelude.{◌≡◌, ◌/◌, ◌≤◌, length, take};
ghost use Rattle.answer.specs.Answer.{number_of};
ghost use Rattle.card.specs.Card.{reading};
ghost use Rattle.launch_files.specs.LaunchFiles.{kernel_words_of, files_ok_of, read_files_of};

use answer::Refusal;
use warp::Launch;

// The programs' own limits: the bytes of a kernel file and of a data file, and the steps of a run.
pub const KERNEL_BYTES: usize = 65536;

pub const DATA_BYTES: usize = 65536;

pub const BUDGET: u32 = 65536;

pub const KERNEL_WORDS: usize = KERNEL_BYTES / 4;

// A whole vector file.
pub const FILE_WORDS: usize = 8192;

// The words of a kernel file at the start of `words`.
pub fn put_words(kernel: &[u8], words: &mut [u32])
    requires { length kernel.now / 4 ≤ length words.old }
    ensures { take (length kernel.now / 4) words.new ≡ kernel_words_of kernel.now }
{
    let n = kernel.len() / 4;
    for i in 0..n {
        words[i] = access::word_at(kernel, 4 * i);
    }
}

// Just these words, where they were put.
pub fn kernel_words<'a>(kernel: &[u8], words: &'a mut [u32]) -> &'a [u32]
    requires { length kernel.now / 4 ≤ length words.old }
    ensures { result.now ≡ kernel_words_of kernel.now }
{
    put_words(kernel, words);
    &words[..kernel.len() / 4]
}

// A kernel file of whole words, and both files within the limits.
pub fn files_ok(kernel: &[u8], bytes: &[u8]) -> bool
    ensures { result ≡ files_ok_of kernel.now bytes.now }
{
    (kernel.len() % 4 == 0) & ((kernel.len() <= KERNEL_BYTES) & (bytes.len() <= DATA_BYTES))
}

// What reading the files leaves: the answer, and the card's launch, where their sizes are refused too; zeros where the card is refused.
#[derive(Clone, Copy)]
pub struct ReadFiles {
    pub answer: Result<(), Refusal>,
    pub launch: Launch,
}

// The card tested and read, then the sizes of the other files tested.
pub fn read_files(card: &[u8], kernel: &[u8], bytes: &[u8]) -> ReadFiles
    ensures { reading (number_of result.answer) result.launch ≡ read_files_of card.now kernel.now bytes.now }
{
    let launch = match card::read_card(card) {
        Ok(l) => l,
        Err(why) => {
            return ReadFiles {
                answer: Err(why),
                launch: warp::zero_launch(),
            };
        }
    };
    if !files_ok(kernel, bytes) {
        return ReadFiles {
            answer: Err(Refusal::Size),
            launch,
        };
    }
    ReadFiles {
        answer: Ok(()),
        launch,
    }
}
