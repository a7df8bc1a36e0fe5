//! Where an edit moves the lines along one axis.

ghost use Rattle.std.specs.Prelude.{◌≡◌, ◌<◌, ◌↔◌, IsTrue};
ghost use Rattle.clues.specs.Places.{ChangesLength, IsNewAt, exchanged, new_place, old_place, reversed};

use picture::MAX_SIDE;

/// Where an edit moves the lines along one axis.
#[derive(Clone, Copy, Debug, PartialEq, Eq)]
pub enum Places {
    /// Each line keeps its place.
    Kept,
    /// A line is inserted at this place, from 0; the places of the lines from there on increase by one.
    Inserted(u8),
    /// The line at this place is deleted; the places of the lines after it decrease by one.
    Deleted(u8),
    /// The lines at these places are exchanged.
    Swapped(u8, u8),
}

impl Places {
    // The new place of the line at an old place, if it is still there.
    pub(crate) fn new_place(self, at: u8) -> Option<u8>
        requires { at < MAX_SIDE }
        ensures { result ≡ new_place self at }
    {
        match self {
            Places::Kept => Some(at),
            Places::Inserted(place) => Some(if at < place { at } else { at + 1 }),
            Places::Deleted(place) if at == place => None,
            Places::Deleted(place) => Some(if at < place { at } else { at - 1 }),
            Places::Swapped(first, second) => Some(exchanged(first, second, at)),
        }
    }

    // The old place of the line at a new place, if it was there before.
    pub(crate) fn old_place(self, at: u8) -> Option<u8>
        requires { at < MAX_SIDE }
        ensures { result ≡ old_place self at }
    {
        self.reversed().new_place(at)
    }

    // Whether a line is inserted at the place.
    pub(crate) fn is_new(self, at: u8) -> bool
        ensures { IsTrue result ↔ IsNewAt self at }
    {
        matches!(self, Places::Inserted(place) if place == at)
    }

    // Whether the lines that cross these change their length.
    pub(crate) fn changes_length(self) -> bool
        ensures { IsTrue result ↔ ChangesLength self }
    {
        matches!(self, Places::Inserted(_) | Places::Deleted(_))
    }

    // What moves the lines back to their old places.
    fn reversed(self) -> Places
        ensures { result ≡ reversed self }
    {
        match self {
            Places::Inserted(place) => Places::Deleted(place),
            Places::Deleted(place) => Places::Inserted(place),
            Places::Kept | Places::Swapped(..) => self,
        }
    }
}

// The new place of the line at a place when two lines are exchanged.
fn exchanged(first: u8, second: u8, at: u8) -> u8
    ensures { result ≡ exchanged first second at }
{
    if at == first {
        second
    } else if at == second {
        first
    } else {
        at
    }
}
