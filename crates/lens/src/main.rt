// The program: the real source and sink around the top call.
#![tactic(auto)]

use std::env;
use std::io::ErrorKind;
use std::process::ExitCode;
use vm_lens::{Status, lens_main};
use vm_outside::{StdSink, StdSource};

fn main(rt: HostRuntime) -> ExitCode {
    let alloc = rt.alloc();
    let no_memory = ExitCode::from(Status::NoMemory.number());
    let mut words = Vec::new(alloc);
    match env::args(&rt) {
        Ok(given) => {
            for word in given.skip(1) {
                if words.push(word).is_err() {
                    return no_memory;
                }
            }
        }
        Err(error) if error.kind() == ErrorKind::OutOfMemory => return no_memory,
        // A word isn't UTF-8. Then the words are no command, as no words are none.
        Err(_) => {}
    }
    let mut source = StdSource::new(rt.stdin());
    let mut sink = StdSink::new(rt.stdout());
    let outcome = lens_main(alloc, &words, &mut source, &mut sink);
    ExitCode::from(outcome.status.number())
}
