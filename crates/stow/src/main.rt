//! The program `stow`: the arguments and the streams of the system, handed to `stow_program`.
#![tactic(auto)]

use std::alloc::Global;
use std::io::BufReader;
use std::process::ExitCode;
use stow_program::program::program;
use stow_program::stow_workers::counted::Counted;
use stow_run::failure::MEMORY;
use stow_run::folder::System;

/// The most bytes of the input that the system is asked for at once. What serves them takes smaller pieces of these.
const READ_AHEAD: usize = 65_536;

fn main(rt: HostRuntime) -> ExitCode {
    let mut output = rt.stdout();
    let Ok(mut input) = BufReader::with_capacity(rt.alloc(), READ_AHEAD, rt.stdin()) else {
        return ExitCode::from(MEMORY);
    };
    match words(&rt) {
        Ok(words) => ExitCode::from(program(
            &rt,
            rt.alloc(),
            &System { rt: &rt },
            words.as_slice(),
            &mut Counted::new(&mut input),
            &mut Counted::new(&mut output),
            &mut rt.stderr(),
        )),
        Err(_) => ExitCode::from(MEMORY),
    }
}

/// The words of the command line, the program's own name first.
fn words(rt: &HostRuntime) -> std::io::Result<Vec<String>> {
    let alloc: Global = rt.alloc();
    let words = std::env::args(rt)?.collect(alloc)?;
    Ok(words)
}
