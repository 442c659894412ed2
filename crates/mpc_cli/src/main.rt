//! The program: controllers made and run, from files.
#![tactic(auto)]

use command_line::{Status, status_line, status_number};
use command_run::run;
use io_edge::{HostStore, StdSink, Words};
use std::env;
use std::io::Print;
use std::process::ExitCode;

/// The exit status where the runtime doesn't give the arguments.
const NO_ARGUMENTS: u8 = 99;

fn main(rt: HostRuntime) -> ExitCode {
    let Ok(all) = env::args(&rt) else {
        return ExitCode::from(NO_ARGUMENTS);
    };
    let status = match Words::after_name(rt.alloc(), all) {
        Ok(words) => {
            let mut store = HostStore::new(&rt);
            let mut out = StdSink::new(&rt);
            run(rt.alloc(), &words, &mut store, &mut out)
        }
        Err(_) => Status::Memory,
    };
    // The exit status tells of the answer too, so a line that can't be made or printed changes nothing.
    if let Ok(line) = status_line(rt.alloc(), &status) {
        let _ = rt.stderr().write_all(&line);
    }
    ExitCode::from(status_number(&status))
}
