//! The top of the shell: the words, the lines, the rows, and the run that joins them.
#![tactic(auto)]

ghost use Rattle.shell_top.specs.Faults.{FaultsCounted};

mod line;
mod reply;
mod rows;
mod run;
mod session;
mod status;
mod top;
mod words;

pub use shell_lang::{
    ListSink, ListSource, ReadFailed, Sink, SinkFault, Source, SureSink, SureSource,
};
pub use status::Status;
pub use top::vfsh_run;

/// Each `fault` reply of a run has a failed call of its own, as far as the count goes.
pub fn faults_are_counted()
    ensures { FaultsCounted }
{}
