//! Reads the text of a module graph into a raw graph, which isn't checked yet.
//!
//! Marks name the source of a rule. '(as deno_graph)' is a rule of Deno's crate of this name.
//! '(extension)' is a rule of this library.
#![tactic(auto)]

mod ends;
mod entries;
mod faults;
mod fields;
mod graph;
mod kinds;
mod lookup;
mod member_keywords;
mod needs_no_escape;
mod nodes;
mod numbers;
mod query_list;
mod short_numbers;
mod stream;
mod values;
mod whole;

pub use faults::FormatFault;
pub use lookup::{as_list, as_text};
pub use numbers::as_u32;
pub use query_list::{ListTail, QueryList, read_query_list};
pub use values::read_value;
pub use whole::read_graph;
