//! The remaining parts of a qualified name, in a list that the links of a path share.

ghost use Rattle.std.specs.Prelude.{◌≡◌, ◌<◌, ◌≤◌, ◌^◌, ◌==◌, length, IfOk};
ghost use Rattle.std.specs.Rc.{rc_slice_items};
ghost use Rattle.symbols_paths.specs.Views.{strings_view};
ghost use Rattle.symbols_paths.specs.inner.Views.{borrowed_strings_view};

use std::alloc::{AllocError, Global};
use std::rc::RcSlice;

/// The remaining parts of a qualified name: those of the list from `first` on. The list is stored
/// once, however many links have some of it.
#[derive(Drop)]
pub(crate) struct SharedParts {
    list: RcSlice<String>,
    first: usize,
    ghost within: { first ≤ length (rc_slice_items list) },
    ghost few: { length (rc_slice_items list) < 2 ^ 64 },
}

/// Returns copies of texts.
fn copied_strings(alloc: Global, texts: &[&str]) -> Result<Vec<String>, AllocError>
    ensures { IfOk result (λ copies. strings_view copies.items ≡ borrowed_strings_view texts.now) }
{
    let mut copies = Vec::with_capacity(alloc, texts.len())?;
    for text in texts {
        copies.push(String::from_str(alloc, text)?)?;
    }
    Ok(copies)
}

impl SharedParts {
    ghost use Rattle.symbols_paths.specs.inner.Views.{later_parts};
    ghost use Rattle.symbols_paths.specs.inner.PathBuilders.{remaining_parts};

    /// Copies these parts into a list; all of them remain.
    pub(crate) fn new(alloc: Global, parts: &[&str]) -> Result<SharedParts, AllocError>
        ensures { IfOk result (λ shared. remaining_parts shared ≡ borrowed_strings_view parts.now) }
    {
        let list = RcSlice::from_vec(copied_strings(alloc, parts)?)?;
        Ok(SharedParts { list, first: 0 })
    }

    /// Returns whether no part remains.
    pub(crate) fn is_empty(&self) -> bool
        ensures { result ≡ (length (remaining_parts self.now) == 0) }
    {
        self.first == self.list.len()
    }

    /// Returns the remaining parts.
    pub(crate) fn texts(&self) -> &[String]
        ensures view { strings_view result.now ≡ remaining_parts self.now }
        ensures len { length result.now ≡ length (remaining_parts self.now) }
    {
        &self.list.as_slice()[self.first..]
    }

    /// Returns the same remaining parts, of the same shared list.
    pub(crate) fn same(&self) -> Result<SharedParts, AllocError>
        ensures { IfOk result (λ same. remaining_parts same ≡ remaining_parts self.now) }
    {
        Ok(SharedParts {
            list: self.list.clone()?,
            first: self.first,
        })
    }

    /// Returns the remaining parts without the first, of the same shared list.
    pub(crate) fn after_first_part(&self) -> Result<SharedParts, AllocError>
        requires { 0 < length (remaining_parts self.now) }
        ensures { IfOk result
            (λ remaining. remaining_parts remaining ≡ later_parts (remaining_parts self.now)) }
    {
        Ok(SharedParts {
            list: self.list.clone()?,
            first: self.first + 1,
        })
    }
}
