// A plant's files: sets a controller and a memory up by the console lines of a file, replays a trace on them, and tells each
// record and its answer in words.
#![tactic(auto)]

use crate::fault::{say_argument, say_at, say_bad, say_path};
use language::sizes::MEMORY_BYTES;
use setup::Fault;
use std::env::{Env, FillError};
use std::fs;
use std::fs::Files;
use std::io::{Error, Read, Write};
use store::Controller;

mod fault;
mod play;

// The longest path is one byte shorter.
const PATH_BYTES: usize = 4096;

// Numbers of errors, as the system has them: an argument that is missing, one that is too long, and one that is no text.
const EINVAL: i32 = 22;

const ENAMETOOLONG: i32 = 36;

const EILSEQ: i32 = 84;

// Whether there is an argument i.
fn is_given(rt: &impl Env, i: usize) -> bool {
    let mut byte = [0u8; 1];
    !matches!(rt.arg(i, &mut byte), Err(FillError::NotPresent))
}

// Opens the file of a path, or says why it cannot.
fn open_path<R: Files + Eprint>(rt: &R, path: &[u8]) -> Option<R::File> {
    let Ok(name) = std::str::from_utf8(path) else {
        say_argument(rt, Error::from_raw_os_error(EILSEQ));
        return None;
    };
    match fs::open(rt, name) {
        Ok(file) => Some(file),
        Err(error) => {
            say_path(rt, name, error);
            None
        }
    }
}

// Opens the file that argument i names, or says why it cannot.
fn open<R: Env + Files + Eprint>(rt: &R, i: usize) -> Option<R::File> {
    let mut path = [0u8; PATH_BYTES];
    let error = match rt.arg(i, &mut path) {
        Ok(n) => return open_path(rt, &path[..n]),
        Err(FillError::NotPresent) => EINVAL,
        Err(FillError::TooLong) => ENAMETOOLONG,
    };
    say_argument(rt, Error::from_raw_os_error(error));
    None
}

// Says why no set-up is made.
fn say_fault(rt: &impl Eprint, fault: Fault) {
    match fault {
        Fault::Bad(line) => say_bad(rt, line),
        Fault::Unread { line, error } => say_at(rt, "playback: setup, line", line, error),
        Fault::Unwritten { line, error } => say_at(
            rt,
            "playback: standard output, setup line",
            line,
            error,
        ),
    }
}

fn run(rt: &impl Eprint, output: &mut impl Write, setup: &mut impl Read, trace: &mut impl Read) {
    let mut memory = [0u8; MEMORY_BYTES];
    let fresh = Controller::new(0, 0);
    let mut controller = fresh.controller;
    match setup::run(setup, output, &mut controller.words, &mut memory) {
        Ok(lent) => play::run(rt, trace, output, &mut controller.words, &mut memory, lent),
        Err(stopped) => say_fault(rt, stopped.fault),
    }
}

fn main(rt: HostRuntime) {
    if !is_given(&rt, 2) || is_given(&rt, 3) {
        let _ = eprintln!(rt; "usage: playback SETUP TRACE");
        return;
    }
    let Some(mut setup) = open(&rt, 1) else {
        return;
    };
    let Some(mut trace) = open(&rt, 2) else {
        return;
    };
    run(&rt, &mut rt.stdout(), &mut setup, &mut trace);
}
