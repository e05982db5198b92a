// Prints the line of a plan file: the file that the argument names, or standard input where there is none or it is `-`; with `--with-shortest` standard
// input is a plan file with the shortest allowed window first, with `--with-rule` one with that, the rule and the lost ticks first. With `--ask` it answers a
// stream of queries on standard input: docs/ASK.md. With `--replay` it replays a trace on standard input, with `--replay-for` one team's, with `--replay-on`
// one on a board with its settings.
#![tactic(auto)]

mod ask;
mod asked;
mod entries;
mod failure;
mod input;
mod lines;
mod plan_file;
mod stream;
mod summary_entries;
mod trace_file;

use crate::trace_file::Before;
use plan::check::Form;
use std::env::{Env, FillError};

// What the one argument asks for: one of the words, or the file that it names.
fn answer(rt: &HostRuntime, word: &[u8]) {
    match word {
        b"-" => plan_file::check_input(rt, Form::Plain),
        b"--with-shortest" => plan_file::check_input(rt, Form::WithShortest),
        b"--with-rule" => plan_file::check_input(rt, Form::WithRule),
        b"--ask" => ask::answer_stream(rt),
        b"--replay" => trace_file::replay(rt, Before::Nothing),
        b"--replay-for" => trace_file::replay(rt, Before::Owner),
        b"--replay-on" => trace_file::replay(rt, Before::Settings),
        path => plan_file::check_named(rt, path),
    }
}

// There is room for the longest path.
const PATH: usize = 4096;

fn main(rt: HostRuntime) {
    let mut word = [0u8; PATH];
    if !matches!(rt.arg(2, &mut word), Err(FillError::NotPresent)) {
        let _ = eprintln!(rt; "palikudyom: one plan file at a time");
        return;
    }
    match rt.arg(1, &mut word) {
        Ok(length) => answer(&rt, &word[..length]),
        Err(FillError::NotPresent) => plan_file::check_input(&rt, Form::Plain),
        Err(FillError::TooLong) => {
            let _ = eprintln!(rt; "palikudyom: the file's name: File name too long");
        }
    }
}
