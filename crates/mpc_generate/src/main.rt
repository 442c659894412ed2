//! `generate` alone, of fewer crates than the whole program: controllers made from files, of designs of versions 1 and 2.
#![tactic(auto)]

use command_generate::generate;
use command_line::{Command, Status, command_of, status_line, status_number};
use io_edge::{HostStore, Words};
use std::env;
use std::process::ExitCode;

/// The exit status where the runtime doesn't give the arguments.
const NO_ARGUMENTS: u8 = 99;

fn main(rt: HostRuntime) -> ExitCode {
    let Ok(all) = env::args(&rt) else {
        return ExitCode::from(NO_ARGUMENTS);
    };
    let status = match Words::after_name(rt.alloc(), all) {
        Ok(words) => match command_of(&words) {
            Some(Command::Generate) => {
                let mut store = HostStore::new(&rt);
                generate(rt.alloc(), &words, &mut store)
            }
            _ => Status::Usage,
        },
        Err(_) => Status::Memory,
    };
    // The exit status tells of the answer too, so a line that can't be made or printed changes nothing.
    if let Ok(line) = status_line(rt.alloc(), &status) {
        let _ = rt.stderr().write_all(&line);
    }
    ExitCode::from(status_number(&status))
}
