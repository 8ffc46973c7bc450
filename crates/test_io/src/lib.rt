// The parts of a stored case read, digests, and the line written for a case. reference/CASES-FORMAT.md says what a case file holds and what a line says.
#![tactic(auto)]

ghost use Rattle.std.specs.Prelude.{◌≡◌, ◌≤◌, cond, eqb, length, get_or, replicate};
ghost use Rattle.layout.specs.Words.{state_words};

use layout::STATE_WORDS;
use std::io::Read;
use std::ops::Range;
use warp::{Fixed, Launch};

// Where the open splits, the PC and the mask stand among a saved state's words.
const OPEN_AT: usize = 219;

const PC_AT: usize = 220;

const MASK_AT: usize = 221;

// Room for one word or byte more than a kernel and data may have, for the longest vector file of a case, and for what else all tests read.
pub const KERNEL_ROOM: usize = 16385;

pub const DATA_ROOM: usize = 65537;

pub const VECTOR_ROOM: usize = 8224;

pub const CARD_ROOM: usize = 100;

// Where a digest starts.
pub const DIGEST: u32 = 2166136261;

// ---- the input: numbers are big-endian, and all that follows its end or a read that fails is 0

pub fn next_byte(file: &mut impl Read) -> u8 {
    let mut b = [0u8; 1];
    let _ = file.read_exact(&mut b);
    b[0]
}

pub fn next_word(file: &mut impl Read) -> u32 {
    let mut b = [0u8; 4];
    let _ = file.read_exact(&mut b);
    u32::from_be_bytes(b)
}

// ---- runs of words and bytes

// The first n words or bytes of a buffer, all where it has no more.
pub fn start_of<T>(buffer: &mut [T], n: u32) -> &mut [T]
    ensures { length result.now ≤ length buffer.old }
{
    let n = buffer.len().min(n as usize);
    &mut buffer[..n]
}

fn put<T: Copy>(to: &mut [T], i: u32, x: T) {
    if let Some(place) = to.get_mut(i as usize) {
        *place = x;
    }
}

// What `next` makes of each place of a run. What is past the buffer's end is made and dropped.
fn put_run<T: Copy, F: FnMut(u32) -> T>(to: &mut [T], run: Range<u32>, mut next: F)
    requires { F.IsAlwaysCallable next }
{
    for i in run {
        put(to, i, next(i));
    }
}

// Words that a state or a group names by the index that `index` reads; the others stay.
fn put_named<R: Read, F: Fn(&mut R) -> u32>(file: &mut R, to: &mut [u32], index: F)
    requires { F.IsAlwaysCallable index }
{
    for _ in 0..next_word(file) {
        let i = index(file);
        put(to, i, next_word(file));
    }
}

// ---- generated words and bytes

fn next_random(x: u32) -> u32 {
    x.wrapping_mul(1664525).wrapping_add(1013904223)
}

fn edge(i: u32) -> u32 {
    match i {
        0 => 0,
        1 => 1,
        2 => 4294967295,
        3 => 2147483648,
        4 => 2147483647,
        5 => 2,
        6 => 4294967294,
        _ => 31,
    }
}

// A word of a vector file by its register, a random number, and the file's base and mask.
fn vector_word(register: u32, x: u32, base: u32, mask: u32) -> u32 {
    match register % 4 {
        0 => x,
        1 => x / 268435456,
        2 => base.wrapping_add(x / 256 & mask),
        _ => edge(x / 536870912),
    }
}

// ---- the parts of a case, each read into its buffer; the answer is the buffer's start that holds it

pub fn read_card<'b>(file: &mut impl Read, card: &'b mut [u8]) -> &'b mut [u8]
    ensures { length result.now ≤ length card.old }
{
    let n = next_word(file);
    put_run(card, 0..n, |_| next_byte(file));
    start_of(card, n)
}

pub fn read_kernel<'b>(file: &mut impl Read, kernel: &'b mut [u32]) -> &'b mut [u32]
    ensures { length result.now ≤ length kernel.old }
{
    let n = next_word(file);
    let named = next_word(file);
    put_run(kernel, 0..named, |_| next_word(file));
    let rest = next_word(file);
    put_run(kernel, named..n, |_| rest);
    start_of(kernel, n)
}

pub fn read_data<'b>(file: &mut impl Read, bytes: &'b mut [u8]) -> &'b mut [u8]
    ensures { length result.now ≤ length bytes.old }
{
    let n = next_word(file);
    let named = next_word(file);
    put_run(bytes, 0..named, |_| next_byte(file));
    let mut x = next_word(file);
    put_run(bytes, named..n, |_| {
        x = next_random(x);
        (x / 16777216) as u8
    });
    start_of(bytes, n)
}

pub fn read_vector<'b>(file: &mut impl Read, vector: &'b mut [u32]) -> &'b mut [u32]
    ensures { length result.now ≤ length vector.old }
{
    let n = next_word(file);
    let mut x = next_word(file);
    let base = next_word(file);
    let mask = next_word(file);
    put_run(vector, 0..n, |i| {
        x = next_random(x);
        vector_word(i / 32, x, base, mask)
    });
    start_of(vector, n)
}

// The index of a word that a state names is a byte, that of a group's word is a word.
pub fn read_state<'b>(file: &mut impl Read, state: &'b mut [u32]) -> &'b mut [u32]
    ensures { length result.now ≤ length state.old }
{
    let n = next_word(file);
    put_named(file, state, |file| u32::from(next_byte(file)));
    start_of(state, n)
}

pub fn read_group<'b>(file: &mut impl Read, state: &'b mut [u32]) -> &'b mut [u32]
    ensures { length result.now ≤ length state.old }
{
    let n = next_word(file);
    put_named(file, state, |file| next_word(file));
    start_of(state, n)
}

pub fn read_launch(file: &mut impl Read) -> Launch {
    let numt = next_word(file);
    let numw = next_word(file);
    let wid = next_word(file);
    let launchMask = next_word(file);
    let codeBase = next_word(file);
    let dataBase = next_word(file);
    let entry = next_word(file);
    let fixed = Fixed {
        numt,
        numw,
        wid,
        launchMask,
        codeBase,
        dataBase,
        knl: next_word(file),
        wgid: next_word(file),
        lds: next_word(file),
        pds: next_word(file),
        gidx: next_word(file),
        gidy: next_word(file),
        gidz: next_word(file),
    };
    Launch { fixed, entry }
}

// ---- digests

pub fn mixed_bytes(h: u32, bytes: &[u8]) -> u32 {
    bytes
        .iter()
        .fold(h, |sum, b| (sum ^ u32::from(*b)).wrapping_mul(16777619))
}

pub fn mixed_words(h: u32, words: &[u32]) -> u32 {
    words
        .iter()
        .fold(h, |sum, w| mixed_bytes(sum, &w.to_le_bytes()))
}

// What a run leaves in vector file and data, the end of most digests.
pub fn mixed_lent(h: u32, vector: &[u32], bytes: &[u8]) -> u32 {
    mixed_bytes(mixed_words(h, vector), bytes)
}

// ---- a call's words and a case's line

// The words of a call's answer, all 0 if it has not just N.
pub fn words_of<const N: usize>(words: &[u32]) -> [u32; N]
    ensures { result ≡ cond (eqb (length words.now) N) words.now (replicate N 0) }
{
    words.try_into().unwrap_or([0; N])
}

// The line of a warp's case.
#[derive(Clone, Copy, Default)]
pub struct Line {
    pub number: u32,
    pub code: u32,
    pub steps: u32,
    pub pc: u32,
    pub mask: u32,
    pub splits: u32,
    pub last: u32,
}

impl Line {
    // With what a saved state says; as it is where that is no saved state.
    pub fn with_state(self, state: &[u32]) -> Line
        ensures { result ≡ cond (eqb (length state.now) state_words) (record { number = self.number; code = self.code; steps = self.steps; pc = get_or state.now 220 0; mask = get_or state.now 221 0; splits = get_or state.now 219 0; last = self.last }) self }
    {
        if state.len() != STATE_WORDS {
            return self;
        }
        Line {
            pc: state[PC_AT],
            mask: state[MASK_AT],
            splits: state[OPEN_AT],
            ..self
        }
    }

    // What a write that fails should have written is lost.
    pub fn print(self, rt: &impl Print) {
        let Line {
            number,
            code,
            steps,
            pc,
            mask,
            splits,
            last,
        } = self;
        let _ = println!(rt; "{number} {code} {steps} {pc:08x} {mask:08x} {splits} {last:08x}");
    }
}
