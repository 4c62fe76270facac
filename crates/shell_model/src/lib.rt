//! What the shell means: the machine of one database and eight connections, its steps and its runs. Here are the definitions, with the
//! law that levels are refused by the lock rule; the other laws are those of shell_laws, and there is no code that does it.
#![tactic(auto)]

ghost use Rattle.shell_model.specs.State.{RefusedByRule};

/// A level is refused just where the lock rule refuses it.
pub fn refused_by_rule()
    ensures { RefusedByRule }
{}
