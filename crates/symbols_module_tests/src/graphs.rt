//! Tests small graphs: their contents, and what they resolve.

use std::alloc::{AllocError, Global};
use symbols_graph::tree::{Item, Kind, Node, SourceRange, Tree};
use symbols_graph::{
    GraphFault, GraphModule, LookupCounter, ModuleGraph, RawGraph, RawModule, RawModuleKind,
    RawResolution, TreeFault,
};
use symbols_test_support::graphs::{resolution, text};
use symbols_test_support::holds;
use symbols_test_support::lifetimes::{Checked, with_graph};

/// Resolutions: the referrer, the specifier in it, and the specifier that it resolves to.
const RESOLUTIONS: [(&str, &str, &str); 4] = [
    ("a", "t", "b"),
    ("b", "t", "c"),
    ("a", "u", "gone"),
    ("absent", "t", "a"),
];

fn resolutions(alloc: Global) -> Result<Vec<RawResolution>, AllocError> {
    let mut resolutions = Vec::new(alloc);
    for (referrer, queried, specifier) in RESOLUTIONS {
        resolutions.push(resolution(alloc, referrer, queried, specifier)?)?;
    }
    Ok(resolutions)
}

/// Returns a redirect of `r` to `a`.
fn redirects(alloc: Global) -> Result<Vec<(String, String)>, AllocError> {
    let mut redirects = Vec::new(alloc);
    redirects.push((text(alloc, "r")?, text(alloc, "a")?))?;
    Ok(redirects)
}

/// Returns a graph with these resolutions and this redirect.
fn resolving(alloc: Global) -> Result<ModuleGraph, GraphFault> {
    let redirects = redirects(alloc)?;
    let resolutions = resolutions(alloc)?;
    let raw = RawGraph {
        modules: Vec::new(alloc),
        redirects,
        resolutions,
    };
    ModuleGraph::new(alloc, raw)
}

/// Queries: a referrer, a specifier, the expected result, and a name.
const QUERIED: [(&str, &str, &str, &str); 6] = [
    ("a", "t", "b", "t in a"),
    ("b", "t", "c", "t in b"),
    ("a", "u", "gone", "u in a"),
    ("absent", "t", "a", "t in absent"),
    ("b", "u", "none", "u in b"),
    ("r", "t", "none", "t in r"),
];

fn resolves(graph: &ModuleGraph) -> Checked {
    let mut lookups = LookupCounter::new();
    for (referrer, queried, expected, name) in QUERIED {
        if graph
            .resolve_dependency(queried, referrer, &mut lookups)
            .unwrap_or("none")
            != expected
        {
            return Err(name);
        }
    }
    holds!(
        lookups.count() == QUERIED.len() as u128,
        "each look-up is counted"
    );
    Ok(())
}

#[test]
fn resolves_by_referrer_and_text(rt: HostRuntime) -> Checked {
    with_graph(resolving(rt.alloc()).ok(), resolves)
}

/// Returns an ECMAScript module without text, with the tree of an empty program.
fn script(alloc: Global) -> Result<RawModuleKind, AllocError> {
    let types = text(alloc, "types")?;
    let mut nodes = Vec::new(alloc);
    nodes.push(Node {
        kind: Kind::Item(Item::Program {
            body: Vec::new(alloc),
        }),
        range: SourceRange { start: 0, end: 0 },
    })?;
    Ok(RawModuleKind::Esm {
        text: String::new(alloc),
        tree: Some(Tree {
            declaration: false,
            nodes,
        }),
        types: Some(types),
    })
}

/// Returns the graph of a single module `m` of this kind.
fn graph(alloc: Global, kind: RawModuleKind) -> Result<ModuleGraph, GraphFault> {
    let specifier = text(alloc, "m")?;
    let mut modules = Vec::new(alloc);
    modules.push(RawModule { specifier, kind })?;
    let raw = RawGraph {
        modules,
        redirects: Vec::new(alloc),
        resolutions: Vec::new(alloc),
    };
    ModuleGraph::new(alloc, raw)
}

/// The text of a module, whether it has a tree, the module of its types, and whether it is JSON.
type Shown<'a> = (&'a str, bool, Option<&'a str>, bool);

fn shown(module: &GraphModule) -> Shown<'_> {
    (
        module.text(),
        module.tree().is_some(),
        module.types_dependency(),
        module.is_json(),
    )
}

/// Returns whether the single module of a graph has these properties.
fn shows(graph: Result<ModuleGraph, GraphFault>, expected: Shown<'_>) -> bool {
    match graph {
        Ok(graph) => graph.get("m").map(shown) == Some(expected),
        Err(_) => false,
    }
}

#[test]
fn shows_what_a_module_is(rt: HostRuntime) -> Checked {
    let alloc = rt.alloc();
    let external = graph(alloc, RawModuleKind::External);
    holds!(
        shows(external, ("", false, None, false)),
        "a module of another kind"
    );
    let Ok(script) = script(alloc) else {
        return Err("no memory");
    };
    let script = graph(alloc, script);
    holds!(
        shows(script, ("", true, Some("types"), false)),
        "a module with a tree"
    );
    let Ok(text) = text(alloc, "[]") else {
        return Err("no memory");
    };
    let json = graph(alloc, RawModuleKind::Json { text });
    holds!(shows(json, ("[]", false, None, true)), "a module of JSON");
    Ok(())
}

/// Returns a fault of each kind whose message no program prints.
fn fault(alloc: Global, index: usize) -> Result<GraphFault, AllocError> {
    Ok(match index {
        0 => GraphFault::DuplicateSpecifier(text(alloc, "b")?),
        1 => GraphFault::DuplicateRedirect(text(alloc, "s")?),
        2 => GraphFault::RedirectToRedirect(text(alloc, "t")?),
        3 => GraphFault::DuplicateResolution(text(alloc, "a")?, text(alloc, "t")?),
        _ => GraphFault::Tree(text(alloc, "bad")?, TreeFault::NoProgram),
    })
}

/// The message of each fault.
const SAID: [&str; 5] = [
    "duplicate specifier b",
    "duplicate redirect s",
    "redirect to redirect t",
    "duplicate resolution a t",
    "tree of bad: no program",
];

/// Returns whether the fault with this index has this message.
fn says(alloc: Global, index: usize, expected: &str) -> Result<bool, AllocError> {
    let fault = fault(alloc, index)?;
    let said = fault.to_string(alloc)?;
    Ok(said.as_str() == expected)
}

#[test]
fn says_what_is_refused(rt: HostRuntime) -> Checked {
    for (index, expected) in SAID.iter().enumerate() {
        if says(rt.alloc(), index, *expected) != Ok(true) {
            return Err(*expected);
        }
    }
    Ok(())
}
