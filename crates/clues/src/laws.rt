//! Laws of clue books and of what an edit changes. Each function does nothing, and its contract is the law.

ghost use Rattle.clues.specs.Laws.{
  BooksAreTheirClues,
  CluesAreOfLines,
  ImagesAreLines,
  InsertedLinesAgree,
  MovesGoBack,
  UntouchedCluesStand,
};

#[tactic(auto, using(crate::proofs::LawLemmas::of_lines))]
/// The clues of a picture have one for each of its lines, which is the clue of the line's cells.
pub fn clues_are_of_lines()
    ensures { CluesAreOfLines }
{}

#[tactic(auto, using(crate::proofs::LawLemmas::same_books))]
/// Two clue books of the same size with the same clue for each line are equal.
pub fn books_are_their_clues()
    ensures { BooksAreTheirClues }
{}

#[tactic(auto, using(crate::proofs::LawLemmas::images))]
/// Images are distinct lines of the new picture along the same axis, and each untouched line is an image.
pub fn images_are_lines()
    ensures { ImagesAreLines }
{}

#[tactic(auto, using(crate::proofs::LawLemmas::going_back))]
/// The reversed moves take each image back to its line.
pub fn moves_go_back()
    ensures { MovesGoBack }
{}

#[tactic(auto, using(crate::proofs::LawLemmas::standing))]
/// If untouched lines have the cells of the old lines that they were, the old clue book can be refreshed, and the
/// clues that are copied are right for the new picture.
pub fn untouched_clues_stand()
    ensures { UntouchedCluesStand }
{}

#[tactic(auto, using(crate::proofs::LawLemmas::insertions))]
/// A picture with a line inserted is the old one but for that line, whatever cells the line gets.
pub fn inserted_lines_agree()
    ensures { InsertedLinesAgree }
{}
