// The programs of a replicated xDS control plane, over the process's own words and streams.
#![tactic(auto)]

use std::io::{ErrorKind, IsTerminal};
use std::process::ExitCode;
use std::rt::Env;
use std::{env, io};
use xds_commands::run;
use xds_frames::{Counted, write_whole};
use xds_program::run::{WRONG_WORDS, tell};
use xds_resource::Refusal;

fn main(rt: HostRuntime) -> ExitCode {
    let mut errors = Counted::new(rt.stderr());
    let terminal = if rt.stderr().is_terminal() {
        Some(rt.stderr())
    } else {
        None
    };
    let status = match arguments(&rt) {
        Ok(words) => run(
            &rt,
            words.as_slice(),
            rt.stdin(),
            &mut Counted::new(rt.stdout()),
            &mut errors,
            terminal,
            Some(rt.stderr()),
        ),
        Err(error) if error.kind() == ErrorKind::InvalidData => {
            let _ = write_whole(&mut errors, b"error: a word is not UTF-8\n");
            WRONG_WORDS
        }
        Err(_) => tell(Refusal::OutOfMemory, &mut errors),
    };
    ExitCode::from(status)
}

// The words of the command line, the program's name first.
fn arguments<R: Env + AllocGlobal>(rt: &R) -> io::Result<Vec<String>> {
    Ok(env::args(rt)?.collect(rt.alloc())?)
}
