//! Each allocation, or growth of memory, may be refused. `rt test` refuses none, and `test_refused.py` runs the first test of
//! each module again and again, each time with another one refused. A refused call says so and leaves what it borrowed as it
//! was, and it succeeds when it is made again. Since only one growth is refused in a run, the second try never is.

use std::fmt::Debug;
use std::process::Abort;

mod made;
mod of_benches;
mod of_books;
mod of_certificates;
mod of_edits;
mod of_lemmas;
mod of_searches;
mod of_steps;
mod shown;

// Whether an allocation may be refused in this run.
#[derive(Clone, Copy, PartialEq, Eq)]
enum Memory {
    Refused,
    Ample,
}

// Panics where a value is not the expected one. The comparison is proved here once, and not in each test.
fn equal<T: PartialEq + Debug + Drop>(rt: &impl Abort, what: &str, got: T, want: T) {
    assert_eq!(rt; got, want, "{what}");
}

// Panics where a call failed other than by running out of memory, or though no allocation is refused.
fn refused<F: PartialEq + Debug + Drop>(rt: &impl Abort, memory: Memory, got: F, want: F) {
    assert!(rt; memory == Memory::Refused);
    equal(rt, "a fault", got, want);
}

// What the first try gives, or, where it was refused with this error, the second one. Where no allocation is refused,
// both succeed.
fn first_of<T: Drop, F: PartialEq + Debug + Drop>(
    rt: &impl Abort,
    memory: Memory,
    fault: F,
    first: Result<T, F>,
    second: Result<T, F>,
) -> T {
    match first {
        Ok(value) => {
            assert!(rt; memory == Memory::Refused || second.is_ok());
            value
        }
        Err(got) => {
            refused(rt, memory, got, fault);
            second.expect(rt, "only one growth is refused")
        }
    }
}
