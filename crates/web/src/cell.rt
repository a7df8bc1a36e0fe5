//! The cell in which a host keeps the pointer of a desk.

ghost use Rattle.std.specs.Prelude.{◌≡◌, None, Option, MatchOption, Some};
ghost use Rattle.std.specs.Coded.{coded_option};
ghost use denote.RawPtr.{null_ptr};
ghost use Rattle.web.specs.declared.desk.Desk.{Desk};
ghost use Rattle.web.specs.Held.{cell_owns, desk_coded};

use crate::held::Held;
use std::alloc::Global;
use std::marker::Model;

/// A pointer, as C sees it, and the desk that it points to, if any. Where there is none, it may be any pointer.
#[repr(C)]
#[derive(Drop)]
pub struct DeskCell {
    ptr: *mut u8,
    alloc: Global,
    pub ghost desk: { Option Desk } by { coded_option desk_coded },
}

impl Model for DeskCell {
    ghost also_owns = { λ c. cell_owns c.alloc c.ptr c.desk };
}

impl DeskCell {
    /// A cell with this desk.
    pub fn of(held: Held) -> DeskCell
        ensures { result.desk ≡ Some held.desk }
    {
        let Held { ptr, alloc } = held;
        DeskCell { ptr, alloc }
    }

    /// Takes the desk out, or None where the pointer is null.
    pub fn into_held(self) -> Option<Held>
        requires { self.desk ≡ None → self.ptr ≡ null_ptr }
        ensures { MatchOption result (self.ptr ≡ null_ptr) (λ held. self.desk ≡ Some held.desk) }
    {
        let DeskCell { ptr, alloc } = self;
        if ptr.is_null() {
            return None;
        }
        Some(Held { ptr, alloc })
    }
}
