//! What steps and whole runs of the shell have in common, as laws: which replies the state fixes and where the others may come, what
//! stands after a step, and that what the machine is left to choose changes no reply that has to come.
#![tactic(auto)]

ghost use Rattle.shell_laws.specs.Agree.{RunsAgree, TextsAgree};
ghost use Rattle.shell_laws.specs.Free.{FreeReplies, FreeStates};
ghost use Rattle.shell_laws.specs.Laws.{RepliesAreDetermined, ReferenceIsAllowed, PutsShow, GetsTell, OneDraft, DraftsAreHidden, OneReplyALine, DraftsStay, LaterGet, StaysSettled, StepsAreBlocks, StepsArePrintable};

use shell_lang::{one_command, one_cut};

/// Replies other than the free ones are determined by the state.
pub fn replies_are_determined()
    ensures { RepliesAreDetermined }
{}

/// There is a reply that is due where nothing fails and memory is there, and the machine may give it.
pub fn reference_is_allowed()
    ensures { ReferenceIsAllowed }
{}

/// After an acknowledged put the row is there.
pub fn puts_show()
    ensures { PutsShow }
{}

/// A get tells the row that its connection sees.
pub fn gets_tell()
    ensures { GetsTell }
{}

/// No two connections have drafts.
pub fn one_draft()
    ensures { OneDraft }
{}

/// Nobody sees another's draft.
pub fn drafts_are_hidden()
    ensures { DraftsAreHidden }
{}

/// A step leaves the draft of another connection, unless the session stops or opens anew.
pub fn drafts_stay()
    ensures { DraftsStay }
{}

/// A run gives one reply to each line.
pub fn one_reply_a_line()
    ensures { OneReplyALine }
{}

/// A row that was put outside a transaction is told later, as long as no line has changed the kept book.
pub fn later_get()
    ensures { LaterGet }
{}

/// What holds in every state of a run.
pub fn stays_settled()
    ensures { StaysSettled }
{}

/// Each reply of a step is a block of a run over any device.
pub fn steps_are_blocks()
    ensures { StepsAreBlocks }
{}

/// Each reply of a step can be written.
pub fn steps_are_printable()
    ensures { StepsArePrintable }
{}

/// Just where want of memory and a fault of the device may be answered.
pub fn free_replies()
    ensures { FreeReplies }
{}

/// What such replies leave: want of memory changes nothing, and the others stop the session.
pub fn free_states()
    ensures { FreeStates }
{}

/// Two runs of the same lines, over books of the same tables, in which nothing fails and no memory is wanted give the same replies.
pub fn runs_agree()
    ensures { RunsAgree }
{}

/// And from the same bytes they give the same text.
pub fn texts_agree()
    ensures { TextsAgree }
{
    one_command();
    one_cut();
}
