//! Laws of lists of calls, of strokes, of verdicts after a certificate and of other pictures. Each function does
//! nothing, and its contract is the law.

ghost use Rattle.live_audit.specs.Laws.{
  CertifiedVerdictsSearchNothing,
  ListsStayAudited,
  OthersAreColoured,
  StrokesEvaluateFew,
};

#[tactic(auto, using(crate::proofs::CallLemmas::lists))]
/// After any list of edits, undos and redos, verdicts, allowances and certificates, accepted or refused, the state is
/// audited, history and allowance are the machine's, and each answer was right. Each verdict was true of the picture that
/// was then present, and each certificate fits it. The engine's calls never fall.
pub fn lists_stay_audited()
    ensures { ListsStayAudited }
{}

#[tactic(auto, using(crate::proofs::StrokeLemmas::strokes))]
/// An accepted stroke takes at most one evaluation for each dirty line, and one for each cell that each new step narrows.
pub fn strokes_evaluate_few()
    ensures { StrokesEvaluateFew }
{}

/// A verdict that is asked right after a certificate's call that was not refused is decided, and searches nothing: no line
/// is evaluated, whatever the allowance.
pub fn certified_verdicts_search_nothing()
    ensures { CertifiedVerdictsSearchNothing }
{}

#[tactic(auto, using(crate::proofs::RenumberLemmas::others, clues::proofs::LawLemmas::of_lines))]
/// Another picture for a document, as a verdict shows one, has colours of the document's palette alone.
pub fn others_are_coloured()
    ensures { OthersAreColoured }
{}
