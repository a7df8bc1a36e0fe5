//! The laws of sessions. Each function does nothing, and its contract is the law.

ghost use Rattle.session.specs.Laws.{SessionsAreTrue, SessionsStayAudited};

#[tactic(auto, using(crate::proofs::MachineLemmas::sessions))]
/// After any lines, an audited bench is still audited. Its history and its allowance are those of the machine after the
/// commands whose answer was not `refused: Memory`, each text is one that the definitions allow, and the count of engine
/// calls has not fallen. So each verdict that was printed was true of the picture at that time.
pub fn sessions_stay_audited()
    ensures { SessionsStayAudited }
{}

#[tactic(auto, using(crate::proofs::TruthLemmas::truths))]
/// What a session prints on an audited bench is true of the document that the lines before it lead to. The clause `truth` of
/// `run_session` promises the same.
pub fn sessions_are_true()
    ensures { SessionsAreTrue }
{}
