//! `fusion`: a proved exact decoder for quantum error correction.

#![tactic(auto)]

use fb_ports::{OsFiles, OsSink, put_all};
use fb_run::{Cause, OpenGate, UsageKind, run, say};
use std::env;
use std::io::ErrorKind;
use std::process::ExitCode;

/// Why there are no words to run.
#[derive(Clone, Copy)]
enum NoWords {
    /// Some word isn't UTF-8.
    NotText,
    NoMemory,
}

/// What an error of reading the command line means.
fn no_words(kind: ErrorKind) -> NoWords {
    match kind {
        ErrorKind::InvalidData => NoWords::NotText,
        _ => NoWords::NoMemory,
    }
}

fn main(rt: HostRuntime) -> ExitCode {
    let mut err = OsSink::new(rt.stderr());
    let words = match env::args(&rt) {
        Ok(args) => match args.collect::<Vec<String>>(rt.alloc()) {
            Ok(words) => Ok(words),
            Err(_) => Err(NoWords::NoMemory),
        },
        Err(error) => Err(no_words(error.kind())),
    };
    let words = match words {
        Ok(words) => words,
        Err(NoWords::NotText) => {
            let _ = put_all(&mut err, b"fusion: usage\n");
            return ExitCode::from(Cause::Usage(UsageKind::Parse).status());
        }
        Err(NoWords::NoMemory) => {
            say(Cause::NoMemory, &mut err);
            return ExitCode::from(Cause::NoMemory.status());
        }
    };
    let mut files = OsFiles::new(&rt);
    let mut out = OsSink::new(rt.stdout());
    let ended = run(
        &rt,
        rt.alloc(),
        &words,
        &mut files,
        &mut out,
        &mut err,
        &OpenGate,
    );
    ExitCode::from(ended.status)
}
