// The program: writes the text of a made script on standard output.
#![tactic(auto)]

mod printing;
mod words;

use printing::{Status, print_script};
use std::env;
use std::io::ErrorKind;
use std::process::ExitCode;
use vm_outside::StdSink;

fn main(rt: HostRuntime) -> ExitCode {
    let alloc = rt.alloc();
    let no_memory = ExitCode::from(Status::NoMemory.number());
    let mut words = Vec::new(alloc);
    match env::args(&rt) {
        Ok(given) => {
            for word in given.skip(1) {
                if words.push(word).is_err() {
                    return no_memory;
                }
            }
        }
        Err(error) if error.kind() == ErrorKind::OutOfMemory => return no_memory,
        // A word isn't UTF-8. Then the words ask for no script, as no words ask for none.
        Err(_) => {}
    }
    let mut out = StdSink::new(rt.stdout());
    let status = print_script(alloc, &words, &mut out);
    ExitCode::from(status.number())
}
