//! The program `edgeql`: the words of its command line, the files that they name, standard output and standard error.
//! Takes the words behind its name; gives an exit status, with the answer on standard output or one line on standard error.
//! Contract: none of its own: it lends `run_words` of `edge_run` a `FileShelf`, two `StreamSink`s and the open gate.
//! No crate stands on it.
#![tactic(auto)]

use edge_run::{Outcome, memory_line, run_words};
use ev_io::{FileShelf, OpenGate, Sink, StreamSink};
use ev_value::{List, Text};
use std::alloc::AllocError;
use std::env;
use std::io::ErrorKind;
use std::process::ExitCode;
use std::rt::Env;

/// The words behind the program's own name. A word that is not UTF-8 makes a faulty command line: then there are none.
fn words<R: Env + AllocGlobal>(rt: &R) -> Result<List<Text>, AllocError> {
    let mut words = List::new(rt.alloc());
    let args = match env::args(rt) {
        Ok(args) => args,
        Err(error) if error.kind() == ErrorKind::OutOfMemory => return Err(AllocError),
        Err(_) => return Ok(words),
    };
    for word in args.skip(1) {
        words.push(Text::new(word))?;
    }
    Ok(words)
}

fn main(rt: HostRuntime) -> ExitCode {
    let mut shelf = FileShelf::new(&rt);
    let mut out = StreamSink::new(rt.stdout());
    let mut err = StreamSink::new(rt.stderr());
    let outcome = match words(&rt) {
        Ok(words) => run_words(
            rt.alloc(),
            words.as_slice(),
            &mut shelf,
            &mut out,
            &mut err,
            &OpenGate,
        ),
        Err(_) => {
            let _ = err.put(memory_line().as_bytes());
            Outcome::Memory
        }
    };
    ExitCode::from(outcome.status())
}
