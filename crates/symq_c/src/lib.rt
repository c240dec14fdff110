//! A C interface: answers query lines over the text of a graph. Only bytes, numbers and sessions
//! cross it. A session retains a graph between calls. All other memory that a call allocates is
//! freed before it returns.
//!
//! `symq.h` declares the functions for C.
#![tactic(auto)]

mod answer_calls;
mod graph_of_text;
mod keyed_calls;
pub mod laws;
mod module_of_text;
mod out_buffer;
mod parts;
mod put_calls;
mod put_text;
mod session;
mod session_calls;
mod session_handle;
mod session_state;
