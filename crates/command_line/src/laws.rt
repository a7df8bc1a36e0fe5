//! The laws of what words ask for. The functions do nothing, and their contracts are the laws.

ghost use Rattle.command_line.specs.Laws.{CommandsAreKept, WordsAreKnown};

#[tactic(auto, using(crate::proofs::KnownLemmas::known))]
/// What `work A`, `check A B`, `check --background C A B`, `check --givens G A B`, `prove A`, `prove --complete A`,
/// `prove --givens G A` and `assess A ..` ask for, where no name of a file begins with a hyphen and C names a colour: the task
/// that they name, on these files, with each other option as it is where it is not given; or memory runs out.
pub fn words_are_known()
    ensures { WordsAreKnown }
{}

#[tactic(auto, using(crate::proofs::HelpLemmas::kept))]
/// Words that begin with the name of a command ask for what it does, and for help only if that is all that they ask for.
pub fn commands_are_kept()
    ensures { CommandsAreKept }
{}
