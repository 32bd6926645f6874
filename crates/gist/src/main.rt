//! The program: `gist serve` answers the lines of standard input on standard output, `gist replay` carries out its lines as
//! events, and `gist storm` lets many clients work at one desk at once.
#![tactic(auto)]

mod help;
mod options;
mod program;
mod words;

use program::command;
use std::alloc::Global;
use std::io::ErrorKind;
use std::process::ExitCode;
use std::{env, io};

/// The words that the program was given; `None` if one of them isn't UTF-8.
fn given_words(rt: &HostRuntime, alloc: Global) -> io::Result<Option<Vec<String>>> {
    match env::args(rt) {
        Ok(words) => Ok(Some(words.collect(alloc)?)),
        Err(error) => {
            if error.kind() == ErrorKind::InvalidData {
                return Ok(None);
            }
            Err(error)
        }
    }
}

fn main(rt: HostRuntime) -> io::Result<ExitCode> {
    let alloc = rt.alloc();
    let Some(given) = given_words(&rt, alloc)? else {
        let _ = eprintln!(rt; "error: invalid UTF-8 was detected in one or more arguments");
        return Ok(ExitCode::from(2));
    };
    let mut words = Vec::with_capacity(alloc, given.len())?;
    for word in &given {
        words.push(word.as_str())?;
    }
    let mut reader = rt.reader();
    let mut writer = io::writer(&rt);
    let mut errors = rt.stderr();
    let status = command(
        &rt,
        alloc,
        words.as_slice(),
        &mut reader,
        &mut writer,
        &mut errors,
    );
    Ok(ExitCode::from(status))
}
