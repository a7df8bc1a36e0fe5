//! The files that arguments name.

ghost use Rattle.std.specs.Prelude.{◌≡◌, ◌<◌, ◌++◌, ℕ, List, [], ◌∷◌, MatchResult};
ghost use Rattle.std.specs.Io.{ReadsAtMost};
ghost use Rattle.std.specs.Io.KnownBytes.{ReadConsumes};
ghost use Rattle.program.specs.Files.{FailsBy, Held, IsAbsent, IsOpened, Unknown, ReadsFile};

use crate::input::read_input;
use answers::ProgramFault;
use std::alloc::Global;
use std::io;
use std::io::Read;

/// Opens files by their names, and reads. `held` says what each name holds; for the files of the system that is unknown.
pub trait Files {
    type File: Read + Drop;

    // What each name holds.
    ghost held: { Self → List ℕ → Held } = { λ _ _. Unknown };

    // The names that were opened so far, in order.
    ghost opened: { Self → List (List ℕ) };

    // How often so far a file could not be opened, or a read failed.
    ghost faults: { Self → ℕ };

    /// Opens the file of a name, to be read from its first byte.
    fn open(&mut self, path: &str) -> io::Result<Self::File>
        ensures holds { MatchResult result
            (λ file. IsOpened (held self.old path.now) (Self.File.remaining file))
            (λ _. IsAbsent (held self.old path.now)) }
        ensures keeps { (name : List ℕ) → held self.new name ≡ held self.old name }
        ensures opens { opened self.new ≡ opened self.old ++ path.now ∷ [] }
        ensures cause { MatchResult result (λ _. faults self.new ≡ faults self.old)
            (λ _. faults self.old < faults self.new) };

    /// Makes one read of a file that was opened, or of the standard input.
    fn read_from<R: Read>(&mut self, reader: &mut R, buffer: &mut [u8]) -> io::Result<usize>
        ensures bound { ReadsAtMost result buffer.new }
        ensures bytes { ReadConsumes (R.remaining reader.old) (R.remaining reader.new)
            result buffer.new }
        ensures keeps { (name : List ℕ) → held self.new name ≡ held self.old name }
        ensures opens { opened self.new ≡ opened self.old }
        ensures cause { MatchResult result (λ _. faults self.new ≡ faults self.old)
            (λ _. faults self.old < faults self.new) };
}

/// Reads all bytes of a file, at most 16,777,216. `Read` where it cannot be opened, else the errors of `read_input`.
pub fn read_file<F: Files>(
    alloc: Global,
    files: &mut F,
    path: &str,
) -> Result<Vec<u8>, ProgramFault>
    ensures reads { ReadsFile (F.held files.old path.now) result }
    ensures keeps { (name : List ℕ) → F.held files.new name ≡ F.held files.old name }
    ensures opens { F.opened files.new ≡ F.opened files.old ++ path.now ∷ [] }
    ensures cause { FailsBy (F.faults files.old) (F.faults files.new) result }
{
    let mut file = files.open(path).map_err(|_| ProgramFault::Read)?;
    read_input(alloc, files, &mut file)
}
