//! The errors that end the program, with their exit statuses and lines for standard error.

ghost use Rattle.std.specs.Prelude.{◌≡◌, ◌++◌, IfOk, codes, string_bytes};
ghost use Rattle.symq_core.specs.ExitStatus.{exit_error_status};
ghost use Rattle.symq_core.specs.ExitLines.{out_of_memory_line, format_fault_line, engine_fault_line};
ghost use Rattle.symq_core.specs.ExitLines.{tree_fault_and_node_numbers_text, tree_fault_numbers_text};
ghost use Rattle.symq_core.specs.ExitLines.{graph_fault_line, exit_error_line};

use crate::fault::EngineFault;
use std::alloc::{AllocError, Global};
use symbols_graph::tree::NodeId;
use symbols_graph::{GraphFault, TreeFault};
use symq_reader::FormatFault;

/// The reason why the program ends early (extension). Checks run in this order: the arguments, the
/// file, its format, the graph, and then the lines.
#[derive(Debug, Drop, PartialEq, Eq)]
pub enum ExitError {
    /// The arguments are neither `GRAPH` nor `--strict GRAPH`.
    Usage,
    /// The graph's file can't be read.
    NotRead,
    /// The file is no graph.
    Format(FormatFault),
    /// The graph is refused.
    Graph(GraphFault),
    /// Input, output or an allocation failed.
    Engine(EngineFault),
}

impl ExitError {
    /// Returns the exit status: 2 usage error, 3 unreadable file, 4 no graph, 5 refused graph, 6
    /// failed input or output, 7 out of memory.
    pub fn status(&self) -> u8
        ensures { result ≡ exit_error_status self.now }
    {
        match self {
            ExitError::Usage => 2,
            ExitError::NotRead => 3,
            ExitError::Format(FormatFault::OutOfMemory)
            | ExitError::Graph(GraphFault::OutOfMemory)
            | ExitError::Engine(EngineFault::OutOfMemory) => 7,
            ExitError::Format(_) => 4,
            ExitError::Graph(_) => 5,
            ExitError::Engine(_) => 6,
        }
    }

    /// Returns the line for standard error, without a line end. For a refused graph it has the
    /// number of the fault and what the fault names, separated by single spaces. It fails only if
    /// an allocation failed.
    pub fn line(&self, alloc: Global) -> Result<String, AllocError>
        ensures { IfOk result (λ line. string_bytes line ≡ exit_error_line self.now) }
    {
        match self {
            ExitError::Usage => String::from_str(alloc, "usage: symq [--strict] GRAPH"),
            ExitError::NotRead => String::from_str(alloc, "symq: cannot read graph"),
            ExitError::Format(fault) => format_fault_line(alloc, *fault),
            ExitError::Graph(fault) => graph_fault_line(alloc, fault),
            ExitError::Engine(fault) => engine_fault_line(alloc, *fault),
        }
    }
}

/// Returns the line for a failed allocation.
fn out_of_memory_line(alloc: Global) -> Result<String, AllocError>
    ensures { IfOk result (λ line. string_bytes line ≡ out_of_memory_line) }
{
    String::from_str(alloc, "symq: out of memory")
}

/// Returns the line for a text that is no graph.
fn format_fault_line(alloc: Global, fault: FormatFault) -> Result<String, AllocError>
    ensures { IfOk result (λ line. string_bytes line ≡ format_fault_line fault) }
{
    match fault {
        FormatFault::OutOfMemory => out_of_memory_line(alloc),
        FormatFault::NotJson => String::from_str(alloc, "symq: not a graph: json"),
        FormatFault::BadForm => String::from_str(alloc, "symq: not a graph: form"),
    }
}

/// Returns the line for an error while lines are answered.
fn engine_fault_line(alloc: Global, fault: EngineFault) -> Result<String, AllocError>
    ensures { IfOk result (λ line. string_bytes line ≡ engine_fault_line fault) }
{
    match fault {
        EngineFault::OutOfMemory => out_of_memory_line(alloc),
        EngineFault::InputFailed => String::from_str(alloc, "symq: input failed"),
        EngineFault::OutputFailed => String::from_str(alloc, "symq: output failed"),
        EngineFault::InputTooLong => String::from_str(alloc, "symq: input too long"),
    }
}

/// Returns the line for a refused graph: the number of the fault, and what it names.
fn graph_fault_line(alloc: Global, fault: &GraphFault) -> Result<String, AllocError>
    ensures { IfOk result (λ line. string_bytes line ≡ graph_fault_line fault.now) }
{
    match fault {
        GraphFault::OutOfMemory => out_of_memory_line(alloc),
        GraphFault::TooManyModules => String::from_str(alloc, "symq: graph refused: 2"),
        GraphFault::DuplicateSpecifier(specifier) => {
            format!(in alloc; "symq: graph refused: 3 {specifier}")
        }
        GraphFault::DuplicateRedirect(from) => format!(in alloc; "symq: graph refused: 4 {from}"),
        GraphFault::RedirectToRedirect(from) => format!(in alloc; "symq: graph refused: 5 {from}"),
        GraphFault::DuplicateResolution(referrer, text) => {
            format!(in alloc; "symq: graph refused: 6 {referrer} {text}")
        }
        GraphFault::Tree(specifier, fault) => tree_line(alloc, specifier, *fault),
    }
}

/// Returns the line for a graph that is refused because of the tree of a module.
fn tree_line(alloc: Global, specifier: &str, fault: TreeFault) -> Result<String, AllocError>
    ensures { IfOk result (λ line. string_bytes line
        ≡ codes "symq: graph refused: 7 "
        ++ (specifier.now ++ (codes " " ++ tree_fault_numbers_text fault))) }
{
    let rest = tree_fault_text(alloc, fault)?;
    format!(in alloc; "symq: graph refused: 7 {specifier} {rest}")
}

/// Returns the number of a tree's fault and, if the fault names a node, the node's number.
fn tree_fault_text(alloc: Global, fault: TreeFault) -> Result<String, AllocError>
    ensures { IfOk result (λ text. string_bytes text ≡ tree_fault_numbers_text fault) }
{
    match fault {
        TreeFault::NoProgram => String::from_str(alloc, "1"),
        TreeFault::TooManyNodes => String::from_str(alloc, "2"),
        TreeFault::BadChild(node) => tree_fault_node_text(alloc, 3, node),
        TreeFault::SharedChild(node) => tree_fault_node_text(alloc, 4, node),
        TreeFault::BadRange(node) => tree_fault_node_text(alloc, 5, node),
        TreeFault::BadShape(node) => tree_fault_node_text(alloc, 6, node),
        TreeFault::TooDeep(node) => tree_fault_node_text(alloc, 7, node),
    }
}

/// Returns the number of a fault and the number of a node, separated by a space.
fn tree_fault_node_text(alloc: Global, fault_number: u8, node: NodeId) -> Result<String, AllocError>
    ensures { IfOk result (λ text. string_bytes text
        ≡ tree_fault_and_node_numbers_text fault_number node) }
{
    let number = node.index();
    format!(in alloc; "{fault_number} {number}")
}
