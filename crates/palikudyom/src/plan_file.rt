// The line of a plan file.
use crate::{failure, input, lines};
use plan::check::{Form, buffer, check_plan};
use std::fs::File;
use std::io::Read;
use std::{io, str};

// The buffer is enough for any answer: what a longer file has after it is not read.
fn check(rt: &HostRuntime, input: &mut impl Read, name: &[u8], form: Form) {
    let mut bytes = buffer();
    match input::read_on(input, &mut bytes) {
        Ok(n) => {
            if let Err(error) = lines::verdict(rt, check_plan(&bytes[..n], form)) {
                failure::tell(rt, b"standard output", error);
            }
        }
        Err(error) => failure::tell(rt, name, error),
    }
}

pub(crate) fn check_input(rt: &HostRuntime, form: Form) {
    check(rt, &mut rt.stdin(), b"standard input", form);
}

// Paths of std are text.
fn open(rt: &HostRuntime, path: &[u8]) -> io::Result<File> {
    match str::from_utf8(path) {
        Ok(path) => File::open(rt, path),
        Err(_) => Err(io::Error::new(io::ErrorKind::InvalidInput, "the name is not UTF-8")),
    }
}

pub(crate) fn check_named(rt: &HostRuntime, path: &[u8]) {
    match open(rt, path) {
        Ok(mut file) => check(rt, &mut file, path, Form::Plain),
        Err(error) => failure::tell(rt, path, error),
    }
}
