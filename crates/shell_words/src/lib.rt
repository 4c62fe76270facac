//! What the words of the command line name: the databases of a session with their page size and the layers of their stack, a folder,
//! and a load. Here are the definitions and two laws; the code that reads the words is elsewhere.
#![tactic(auto)]

ghost use Rattle.shell_words.specs.Plan.{OnePlan, OneWord};

/// One word that is a database's name names it, with nothing else, and one that is none names nothing.
pub fn one_word()
    ensures { OneWord }
{}

/// Words name one plan at most, and one folder, load and key beside it.
pub fn one_plan()
    ensures { OnePlan }
{}
