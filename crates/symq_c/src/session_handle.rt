//! The state of a session as an opaque pointer for C.

ghost use Rattle.std.specs.Prelude.{◌≡◌, true, Option, None, Some};
ghost use Rattle.std.specs.Option.{is_some};
ghost use Rattle.symq_c.specs.declared.session_state.SessionState.{SessionState};
ghost use Rattle.symq_c.specs.Handles.{session_handle_owns};

use crate::parts::HandleParts;
use crate::session_state::SessionState;
use std::alloc::Global;
use std::marker::Model;

/// An owning pointer to the state of a session, or null. The caller only passes it back.
#[repr(C)]
#[derive(Drop)]
pub struct SessionHandle {
    at: *mut u8,
    alloc: Global,
    pub ghost state: { Option SessionState },
}

impl Model for SessionHandle {
    ghost also_owns = { λ h. session_handle_owns h.alloc h.at h.state };
}

unsafe impl Send for SessionHandle {}

impl SessionHandle {
    /// Returns a handle without a state.
    pub(crate) fn none(alloc: Global) -> SessionHandle
        ensures { result.state ≡ None }
    {
        SessionHandle {
            at: std::ptr::null_mut(),
            alloc,
        }
    }

    /// Returns a handle that owns the memory of these parts.
    pub(crate) fn of_parts(parts: HandleParts<SessionState, Global>) -> SessionHandle
        ensures { result.state ≡ Some parts.value }
    {
        let HandleParts { at, alloc } = parts;
        SessionHandle {
            at: at as *mut u8,
            alloc,
        }
    }

    /// Returns the parts for a box. The handle has to have a state.
    pub(crate) fn into_parts(self) -> HandleParts<SessionState, Global>
        requires { is_some self.state ≡ true }
        ensures { self.state ≡ Some result.value }
    {
        let SessionHandle { at, alloc } = self;
        HandleParts {
            at: at as *mut SessionState,
            alloc,
        }
    }
}
