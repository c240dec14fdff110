//! The session that a C caller holds.

ghost use Rattle.std.specs.Prelude.{◌≡◌, None, Some, IfSome};
ghost use Rattle.std.specs.Option.{is_some};

use crate::parts::HandleParts;
use crate::session_handle::SessionHandle;
use crate::session_state::SessionState;
use std::alloc::Global;

/// A session. If it is open, it holds a graph.
#[repr(C)]
pub struct Session {
    is_open: bool,
    session_handle: SessionHandle,
    ghost tied: { is_open ≡ is_some session_handle.state },
}

impl Session {
    /// Returns a closed session.
    pub(crate) fn closed(alloc: Global) -> Session
        ensures { result.session_handle.state ≡ None }
    {
        Session {
            is_open: false,
            session_handle: SessionHandle::none(alloc),
        }
    }

    /// Returns an open session with this state.
    pub(crate) fn of(state: Box<SessionState>) -> Session
        ensures { result.session_handle.state ≡ Some state.value }
    {
        Session {
            is_open: true,
            session_handle: SessionHandle::of_parts(HandleParts::of(state)),
        }
    }

    /// Returns the state; `None` if the session is closed.
    fn into_state(self) -> Option<Box<SessionState>>
        ensures none { result ≡ None → self.session_handle.state ≡ None }
        ensures some { IfSome result (λ state. self.session_handle.state ≡ Some state.value) }
    {
        let Session {
            is_open,
            session_handle,
        } = self;
        if is_open {
            Some(session_handle.into_parts().into_box())
        } else {
            None
        }
    }

    /// Takes the state out and closes the session; `None` if it is closed already.
    pub(crate) fn take(&mut self, alloc: Global) -> Option<Box<SessionState>>
        ensures none { result ≡ None → self.old.session_handle.state ≡ None }
        ensures some { IfSome result (λ state. self.old.session_handle.state ≡ Some state.value) }
        ensures closed { self.new.session_handle.state ≡ None }
    {
        std::mem::replace(self, Session::closed(alloc)).into_state()
    }
}

impl Drop for Session {
    fn drop(self) {
        drop(self.into_state());
    }
}
