// Files by name or by argument, and the printout of three to standard output. What the printout says is `printout`'s.
#![tactic(auto)]

ghost use Rattle.std.specs.Prelude.{◌≤◌, length};

use launch_files::{DATA_BYTES, FILE_WORDS, KERNEL_BYTES};
use printout::ROOM;
use std::env::FillError;
use std::fs::OpenOptions;
use std::io::{Read, Write};
use std::rt::{Env, Files};
use std::{fs, str};

// A byte to spare, by which a file that is too large is noticed.
pub const CARD_BUFFER: usize = 51;

pub const KERNEL_BUFFER: usize = KERNEL_BYTES + 1;

pub const DATA_BUFFER: usize = DATA_BYTES + 1;

// The longest path that the system takes, and a byte to spare.
pub const PATH_BUFFER: usize = 4096;

// Reads until the buffer is full, the input ends or a read fails; the answer, here and below, is the buffer's start that holds what was read.
fn read_full<'b>(mut file: impl Read + Drop, buffer: &'b mut [u8]) -> &'b mut [u8]
    ensures { length result.now ≤ length buffer.old }
{
    // By hand, since `io::copy` goes on after a read that a signal interrupts, and reads 8 KiB at a time.
    let mut done = 0;
    while done < buffer.len() {
        match file.read(&mut buffer[done..]) {
            Ok(0) | Err(_) => break,
            Ok(n) => done += n,
        }
    }
    &mut buffer[..done]
}

// A file's first bytes, as many as `buffer` holds: none where it cannot be opened, and those before the read that fails where one does.
pub fn read_file<'b>(rt: &impl Files, path: &[u8], buffer: &'b mut [u8]) -> &'b mut [u8]
    ensures { length result.now ≤ length buffer.old }
{
    // A name that is not text is one that std cannot open.
    let Ok(name) = str::from_utf8(path) else {
        return &mut [];
    };
    match fs::open(rt, name) {
        Ok(file) => read_full(file, buffer),
        Err(_) => &mut [],
    }
}

// The program's argument i, argument 0 its name: none of it where it is missing or longer than `buffer`. It need not be text.
pub fn argument<'b>(rt: &impl Env, i: usize, buffer: &'b mut [u8]) -> &'b mut [u8]
    ensures { length result.now ≤ length buffer.old }
{
    let n = rt.arg(i, buffer).unwrap_or(0);
    &mut buffer[..n]
}

// How many arguments the program was started with, its own name among them.
pub fn argument_count(rt: &impl Env) -> usize {
    for i in 0..usize::MAX {
        if let Err(FillError::NotPresent) = rt.arg(i, &mut []) {
            return i;
        }
    }
    usize::MAX
}

// The same as `read_file` of the file that the program's argument i names.
pub fn read_argument<'b>(rt: &(impl Files + Env), i: usize, buffer: &'b mut [u8]) -> &'b mut [u8]
    ensures { length result.now ≤ length buffer.old }
{
    let mut path = [0u8; PATH_BUFFER];
    read_file(rt, argument(rt, i, &mut path), buffer)
}

// Bytes to standard output. What a write that fails should have written is lost.
pub fn print_bytes(rt: &impl Print, bytes: &[u8]) {
    let _ = rt.write_all(bytes);
}

// Descriptor 3's file. A link's bits say how the descriptor is open, and opening it opens the file anew.
const TOLD: &str = "/dev/fd/3";

fn is_writable(rt: &impl Files, link: &str) -> bool {
    match fs::symlink_metadata(rt, link) {
        Ok(found) => !found.permissions().readonly(),
        Err(_) => false,
    }
}

// A byte to descriptor 3, by which a script learns that a sheet was refused or not written; nothing where that is not open to be written.
pub fn tell_failure(rt: &impl Files) {
    if !is_writable(rt, TOLD) {
        return;
    }
    // To read too, since the open of a pipe to write alone waits where nobody reads it.
    let mut how = OpenOptions::new();
    how.read(true).append(true);
    if let Ok(mut told) = how.open(rt, TOLD) {
        let _ = told.write_all(b"r");
    }
}

// The printout of three files by name.
pub fn run_files(rt: &(impl Files + Print), card: &[u8], kernel: &[u8], bytes: &[u8]) {
    let mut card_buffer = [0u8; CARD_BUFFER];
    let mut kernel_buffer = [0u8; KERNEL_BUFFER];
    let mut memory = [0u8; DATA_BUFFER];
    let mut vector = [0u32; FILE_WORDS];
    let mut out = [0u8; ROOM];
    let card = read_file(rt, card, &mut card_buffer);
    let kernel = read_file(rt, kernel, &mut kernel_buffer);
    let bytes = read_file(rt, bytes, &mut memory);
    let n = printout::print_files(card, kernel, bytes, &mut vector, &mut out);
    print_bytes(rt, &out[..n]);
}
