//! The program: reads a deck on standard input, runs its script or all of it in threads, draws its
//! script's run, explores every order of it, or makes its packages, and prints.
//!
//! In reading order:
//! - `console`: does what the words of the command line ask for, and reports its faults
#![tactic(auto)]

mod console;

use console::obey;
use rp_base::Fault;
use rp_command_line::{command, given_words, refuse_unread};
use rp_output::{Streams, fail};
use std::io::BufWriter;
use std::process::ExitCode;

fn main(rt: HostRuntime) -> ExitCode {
    let mut errors = rt.stderr();
    let Ok(writer) = BufWriter::new(rt.alloc(), rt.stdout()) else {
        return ExitCode::from(fail(&mut errors, Fault::OutOfMemory).status);
    };
    let mut streams = Streams {
        reader: rt.stdin(),
        writer,
        errors,
    };
    let ending = match given_words(&rt) {
        Ok(words) => obey(&rt, rt.alloc(), words.as_slice(), &mut streams),
        Err(error) => refuse_unread(&error, command(rt.alloc()), &mut streams),
    };
    ExitCode::from(ending.status)
}
