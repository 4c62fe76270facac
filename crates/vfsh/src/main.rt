//! The program: a shell over files in memory, between the system's two ends.
//!
//! Its words are those of the run, and so is its status, as `shell_top` lists both. Before a run can begin it
//! ends as one whose words are refused, where a word is not UTF-8, or as one without memory.
#![tactic(auto)]

ghost use Rattle.std.specs.Prelude.{◌≡◌};
ghost use Rattle.std.specs.Process.{exit_status};
ghost use Rattle.shell_top.specs.Status.{code_of};

mod again;
mod ends;
#[cfg(test)]
mod runs;
#[cfg(test)]
mod tests;

use ends::{StdinSource, StdoutSink};
use mem_vfs::MemVfs;
use shell_top::{Status, vfsh_run};
use std::env;
use std::io::ErrorKind;
use std::process::ExitCode;
use std::rt::Env;
use vfs_trait::Vfs;

fn main(rt: HostRuntime) -> ExitCode {
    let Ok(device) = MemVfs::new(rt.alloc()) else {
        return end(&rt, Status::Memory);
    };
    let Ok(boxed) = Box::new(rt.alloc(), device) else {
        return end(&rt, Status::Memory);
    };
    let mut stack: Box<dyn Vfs> = boxed;
    let words = match words_of(&rt) {
        Ok(words) => words,
        Err(status) => return end(&rt, status),
    };
    let mut input = StdinSource::new(rt.stdin());
    let mut output = StdoutSink::new(rt.stdout());
    let status = vfsh_run(
        rt.alloc(),
        words.as_slice(),
        &mut stack,
        &mut input,
        &mut output,
    );
    end(&rt, status)
}

/// How a run that ended so ends the program. Standard error is told where the words are refused.
fn end(rt: &impl Eprint, status: Status) -> ExitCode
    ensures { exit_status result ≡ code_of status }
{
    if status == Status::Words {
        let _written = eprintln!(rt; "vfsh: words refused");
    }
    ExitCode::from(status.code())
}

/// The words behind the program's own, or the status where there are none to be had.
fn words_of<R: Env + AllocGlobal>(rt: &R) -> Result<Vec<String>, Status> {
    match env::args(rt) {
        Ok(words) => words
            .skip(1)
            .collect(rt.alloc())
            .map_err(|_| Status::Memory),
        Err(error) if error.kind() == ErrorKind::OutOfMemory => Err(Status::Memory),
        Err(_) => Err(Status::Words),
    }
}
