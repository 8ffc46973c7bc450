// The program that makes a model sheet. Its arguments: the paths of card, kernel and data, and where the sheet is to go; without that, a table is printed.
#![tactic(auto)]

use files::{CARD_BUFFER, DATA_BUFFER, KERNEL_BUFFER, PATH_BUFFER};
use launch_files::FILE_WORDS;
use sheet_lines::SHEET_ROOM;
use sheet_table::TABLE_ROOM;
use sheet_text::LINE_ROOM;
use std::fs::OpenFile;
use std::io::{ErrorKind, Write};
use std::rt::{Env, Files};
use std::{fs, str};

const CARD: usize = 1;

const KERNEL: usize = 2;

const DATA: usize = 3;

const TARGET: usize = 4;

const LINE_BUFFER: usize = PATH_BUFFER + LINE_ROOM;

// The exit status says nothing of a failure: it is told on descriptor 3.
fn print_refusal(rt: &(impl Files + Print), number: u32) {
    let mut out = [0u8; LINE_ROOM];
    let n = sheet_text::refusal_line(number, &mut out);
    files::print_bytes(rt, &out[..n]);
    files::tell_failure(rt);
}

fn print_table(rt: &impl Print, sheet: &[u8]) {
    let mut out = [0u8; TABLE_ROOM];
    let n = sheet_table::table(sheet, &mut out);
    files::print_bytes(rt, &out[..n]);
}

// std tells nothing of a close that fails, so the bytes are brought to the file before it; what keeps none, as a pipe, refuses that.
fn is_kept(file: &impl OpenFile) -> bool {
    match file.sync_all() {
        Ok(()) => true,
        Err(e) => matches!(e.kind(), ErrorKind::InvalidInput | ErrorKind::Unsupported),
    }
}

// Whether the file holds the bytes. A name that is not text is one that std cannot open.
fn write_file(rt: &impl Files, path: &[u8], bytes: &[u8]) -> bool {
    let Ok(name) = str::from_utf8(path) else {
        return false;
    };
    match fs::create(rt, name) {
        Ok(mut file) => file.write_all(bytes).is_ok() && is_kept(&file),
        Err(_) => false,
    }
}

fn write_sheet(rt: &(impl Files + Env + Print), sheet: &[u8]) {
    let mut name = [0u8; PATH_BUFFER];
    let mut out = [0u8; LINE_BUFFER];
    let name = files::argument(rt, TARGET, &mut name);
    if write_file(rt, name, sheet) {
        let steps = sheet_lines::steps_in(sheet);
        let size = sheet_text::written_line(name, steps, sheet.len(), &mut out);
        files::print_bytes(rt, &out[..size]);
    } else {
        let size = sheet_text::unwritten_line(name, &mut out);
        files::print_bytes(rt, &out[..size]);
        files::tell_failure(rt);
    }
}

fn main(rt: HostRuntime) {
    let mut card = [0u8; CARD_BUFFER];
    let mut kernel = [0u8; KERNEL_BUFFER];
    let mut memory = [0u8; DATA_BUFFER];
    let mut vector = [0u32; FILE_WORDS];
    let mut target = [0u8; SHEET_ROOM];
    let card = files::read_argument(&rt, CARD, &mut card);
    let kernel = files::read_argument(&rt, KERNEL, &mut kernel);
    let bytes = files::read_argument(&rt, DATA, &mut memory);
    let written = match sheet_files::model_files(card, kernel, bytes, &mut vector, &mut target) {
        Ok(written) => written as usize,
        Err(why) => {
            print_refusal(&rt, why.number());
            return;
        }
    };
    let n = target.len().min(written);
    if TARGET < files::argument_count(&rt) {
        write_sheet(&rt, &target[..n]);
    } else {
        print_table(&rt, &target[..n]);
    }
}
