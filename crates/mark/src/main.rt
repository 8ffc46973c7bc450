// The marking program. Its arguments: `plain` or `show`, the paths of card, kernel and data, and those of one or more sheets.
#![tactic(auto)]

use files::{CARD_BUFFER, DATA_BUFFER, KERNEL_BUFFER, PATH_BUFFER};
use launch_files::FILE_WORDS;
use sheet_lines::SHEET_ROOM;
use sheet_table::STEPS_ROOM;
use sheet_text::LINE_ROOM;
use std::rt::{Env, Files};

const MODE: usize = 1;

const CARD: usize = 2;

const KERNEL: usize = 3;

const DATA: usize = 4;

const FIRST_SHEET: usize = 5;

// A byte to spare, by which a sheet that is too large is noticed.
const SHEET_BUFFER: usize = SHEET_ROOM + 1;

const LINE_BUFFER: usize = PATH_BUFFER + LINE_ROOM;

// The three lines of the differing step. The data is read anew, since marking changed it.
fn show_step(rt: &(impl Files + Env + Print), card: &[u8], kernel: &[u8], sheet: &[u8], step: u32) {
    let mut memory = [0u8; DATA_BUFFER];
    let mut vector = [0u32; FILE_WORDS];
    let mut target = [0u8; SHEET_ROOM];
    let mut out = [0u8; STEPS_ROOM];
    let bytes = files::read_argument(rt, DATA, &mut memory);
    let own = sheet_files::model_files(card, kernel, bytes, &mut vector, &mut target);
    let n = target.len().min(own.unwrap_or(0) as usize);
    let m = sheet_table::step_lines(&target[..n], sheet, step as usize, &mut out);
    files::print_bytes(rt, &out[..m]);
}

// The line of the sheet that argument i names, against the three files. The exit status says nothing of it: a refused sheet is told on descriptor 3.
fn mark_sheet(rt: &(impl Files + Env + Print), i: usize, show: bool) {
    let mut name_buffer = [0u8; PATH_BUFFER];
    let mut card_buffer = [0u8; CARD_BUFFER];
    let mut kernel_buffer = [0u8; KERNEL_BUFFER];
    let mut memory = [0u8; DATA_BUFFER];
    let mut sheet_buffer = [0u8; SHEET_BUFFER];
    let mut vector = [0u32; FILE_WORDS];
    let mut out = [0u8; LINE_BUFFER];
    let name = files::argument(rt, i, &mut name_buffer);
    let card = files::read_argument(rt, CARD, &mut card_buffer);
    let kernel = files::read_argument(rt, KERNEL, &mut kernel_buffer);
    let bytes = files::read_argument(rt, DATA, &mut memory);
    let sheet = files::read_argument(rt, i, &mut sheet_buffer);
    let line = sheet_files::mark_files(card, kernel, bytes, &mut vector, sheet, name, &mut out);
    let size = line.size;
    files::print_bytes(rt, &out[..size]);
    if line.number != 0 {
        files::tell_failure(rt);
    }
    if show && line.step != 0 {
        show_step(rt, card, kernel, sheet, line.step);
    }
}

fn main(rt: HostRuntime) {
    let mut mode = [0u8; 8];
    let show = matches!(&*files::argument(&rt, MODE, &mut mode), b"show");
    for i in FIRST_SHEET..files::argument_count(&rt) {
        mark_sheet(&rt, i, show);
    }
}
