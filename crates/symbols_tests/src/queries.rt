//! Tests every query by one call, in order, in reverse and repeated, answers with two items, the
//! inputs of a query, and the state after a fault.

use crate::lifetimes::{of_limited, of_root};
use deno_symbols::deps::{ResolveDepsMode, SymbolNodeDep};
use deno_symbols::ids::SymbolId;
use deno_symbols::info::SymbolsFault;
use deno_symbols::queries::{
    Answer, AnswerQueries, DepEntryBySpecifier, ExportsBySpecifier, Found, PathBySpecifier,
    PathEndBySpecifier, Query, QueryInput,
};
use deno_symbols::root::{Limits, RootSymbol};
use std::alloc::{AllocError, Global};
use std::borrow::CowStr;
use symbols_test_support::holds;
use symbols_test_support::lifetimes::Checked;
use symbols_test_support::trees::id;

/// `a` has `export *` from `b`, which exports `n` locally, its symbol 1.
const GRAPH: &str = r#"{"modules": [
{"specifier": "a", "kind": "esm", "text": "", "tree": {"nodes": [
    {"kind": "Program", "range": [0, 0], "body": [1]},
    {"kind": "ExportAll", "range": [0, 0], "src": "b"}
]}},
{"specifier": "b", "kind": "esm", "text": "", "tree": {"nodes": [
    {"kind": "Program", "range": [0, 0], "body": [1]},
    {"kind": "ExportDecl", "range": [0, 0], "decl": 2},
    {"kind": "VarDecl", "range": [0, 0], "decls": [3]},
    {"kind": "VarDeclarator", "range": [0, 0], "name": 4},
    {"kind": "BindingIdent", "range": [0, 0], "sym": ["n", 1]}
]}}
],
"resolutions": [["a", "b", "b"]]}"#;

fn first() -> SymbolId {
    SymbolId::from_number(1)
}

/// The form of each query, and its module.
const FORMS: [(&str, &str); 11] = [
    ("a module", "b"),
    ("exports", "a"),
    ("a symbol", "b"),
    ("a name", "b"),
    ("what a symbol refers to", "b"),
    ("paths", "b"),
    ("definitions", "b"),
    ("leaves", "b"),
    ("a reference", "a"),
    ("public names", "a"),
    ("no module", "absent"),
];

/// Returns the reference `import("b").n`.
fn reference(alloc: Global) -> Result<SymbolNodeDep<'static>, AllocError> {
    let mut parts = Vec::new(alloc);
    parts.push(CowStr::Borrowed("n"))?;
    Ok(SymbolNodeDep::ImportType("b", parts))
}

/// Returns the query of a form.
fn query(
    alloc: Global,
    index: usize,
    specifier: &'static str,
) -> Result<Query<'static>, AllocError> {
    Ok(match index {
        1 => Query::Exports(specifier),
        2 => Query::Symbol(specifier, id(alloc, "n", 1)?),
        3 => Query::Name(specifier, first()),
        4 => Query::Deps(specifier, first(), ResolveDepsMode::TypesAndExpressions),
        5 => Query::Paths(specifier, first()),
        6 => Query::Definitions(specifier, first()),
        7 => Query::Leaves(specifier, first()),
        8 => Query::Resolve(specifier, reference(alloc)?),
        9 => Query::Names(specifier),
        _ => Query::Module(specifier),
    })
}

/// Returns a query of each form, and one on a specifier that resolves to no module.
fn queries(alloc: Global) -> Result<Vec<Query<'static>>, AllocError> {
    let mut queries = Vec::new(alloc);
    for (index, (_, specifier)) in FORMS.iter().enumerate() {
        queries.push(query(alloc, index, *specifier)?)?;
    }
    Ok(queries)
}

/// Returns the index of the query that has an answer of this form.
fn index_of(answer: &Answer<'_>) -> usize {
    match answer {
        Answer::Module(_) => 0,
        Answer::Exports(_) => 1,
        Answer::Symbol(_) => 2,
        Answer::Name(_) => 3,
        Answer::Deps(_) => 4,
        Answer::Paths(_) => 5,
        Answer::Definitions(_) => 6,
        Answer::Leaves(_) => 7,
        Answer::Resolve(_) => 8,
        Answer::Names(_) => 9,
        Answer::NoModule => 10,
    }
}

/// Returns whether `n` of `b` is the only export, by the one statement of `a`.
fn exports_n(named: &ExportsBySpecifier<'_>) -> bool {
    let [export] = named.exports.as_slice() else {
        return false;
    };
    let Some(statement) = export.chain.first() else {
        return false;
    };
    named.unresolved.is_empty()
        && export.name.as_str() == "n"
        && export.module == "b"
        && export.symbol == first()
        && statement.referrer == "a"
        && statement.specifier == "b"
}

/// Returns whether an answer has the expected contents for `n` and its module.
fn returns_of_n(answer: &Answer<'_>) -> bool {
    match answer {
        Answer::Module(specifier) => *specifier == "b",
        Answer::Exports(named) => exports_n(named),
        Answer::Symbol(symbol) => *symbol == Some(first()),
        Answer::Name(Some(name)) => name.as_str() == "n",
        Answer::Name(None) => false,
        Answer::Deps(deps) => deps.len() == 1,
        Answer::Paths(paths) => match paths.first() {
            Some(PathBySpecifier::Definition(definition)) => definition.module == "b",
            _ => false,
        },
        Answer::Definitions(definitions) => match definitions.first() {
            Some(definition) => definition.decl.symbol == first(),
            None => false,
        },
        Answer::Leaves(leaves) => match leaves.first() {
            Some(PathEndBySpecifier::Definition(definition)) => definition.module == "b",
            _ => false,
        },
        Answer::Resolve(entries) => match entries.first() {
            Some(DepEntryBySpecifier::Path(PathBySpecifier::Definition(definition))) =>
                definition.module == "b",
            _ => false,
        },
        Answer::Names(names) => match names.as_slice() {
            [name] => name.name.as_str() == "n" && name.member.is_none(),
            _ => false,
        },
        Answer::NoModule => true,
    }
}

/// Returns whether the answer to the query with this index is as expected.
fn is_right(index: usize, answer: &Answer<'_>) -> bool {
    index_of(answer) == index && returns_of_n(answer)
}

/// Returns the form of the query with this index.
fn form(index: usize) -> &'static str {
    match FORMS.get(index) {
        Some((form, _)) => *form,
        None => "one query more",
    }
}

/// Returns whether the answer to a query alone is as expected.
fn answers_rightly(root: &mut RootSymbol<'_>, index: usize, query: &Query) -> bool {
    match root.answer(query) {
        Ok(given) => is_right(index, &given),
        Err(_) => false,
    }
}

/// Checks the answers to single queries, from the last to the first.
fn answers_backwards(root: &mut RootSymbol<'_>, queries: &[Query]) -> Checked {
    for (index, query) in queries.iter().enumerate().rev() {
        if !answers_rightly(root, index, query) {
            return Err(form(index));
        }
    }
    Ok(())
}

/// Checks the number of answers, and each answer.
fn are_right(answers: &[Answer<'_>], count: usize) -> Checked {
    holds!(answers.len() == count, "how many answers there are");
    for (index, given) in answers.iter().enumerate() {
        if !is_right(index, given) {
            return Err(form(index));
        }
    }
    Ok(())
}

/// Checks the answer to each query once all were answered already.
fn answers_again(root: &mut RootSymbol<'_>, queries: &[Query]) -> Checked {
    holds!(
        answers_backwards(root, queries).is_ok(),
        "the answers backwards"
    );
    match root.run(queries) {
        Ok(answers) => are_right(&answers, queries.len()),
        Err(_) => Err("no answers"),
    }
}

fn each_backwards(root: &mut RootSymbol<'_>) -> Checked {
    match queries(root.alloc()) {
        Ok(queries) => answers_backwards(root, &queries),
        Err(_) => Err("no memory"),
    }
}

#[test]
fn answers_each_form_backwards(rt: HostRuntime) -> Checked {
    of_root(rt.alloc(), GRAPH, each_backwards)
}

fn each_again(root: &mut RootSymbol<'_>) -> Checked {
    match queries(root.alloc()) {
        Ok(queries) => answers_again(root, &queries),
        Err(_) => Err("no memory"),
    }
}

#[test]
fn answers_each_form_in_any_order(rt: HostRuntime) -> Checked {
    of_root(rt.alloc(), GRAPH, each_again)
}

/// Returns whether an input is a module of this specifier.
fn is_module(input: &QueryInput<'_>, specifier: &str) -> bool {
    input.specifier.as_str() == specifier && matches!(input.found, Found::Module)
}

/// Checks that the exports of `a` rest on both modules, and that these are stored then.
fn returns_inputs(root: &mut RootSymbol<'_>) -> Checked {
    let Ok(inputs) = root.inputs(&Query::Exports("a")) else {
        return Err("no inputs");
    };
    let [first, second] = inputs.as_slice() else {
        return Err("how many inputs there are");
    };
    holds!(is_module(first, "a"), "the first input");
    holds!(is_module(second, "b"), "the second input");
    holds!(root.has_analyzed("a"), "a is stored");
    holds!(root.has_analyzed("b"), "b is stored");
    Ok(())
}

#[test]
fn returns_the_inputs_of_exports(rt: HostRuntime) -> Checked {
    of_root(rt.alloc(), GRAPH, returns_inputs)
}

/// The module `m` of the text `export var n: T, n: U, o;`.
const TWICE: &str =
    r#"{"modules": [{"specifier": "m", "kind": "esm", "text": "", "tree": {"nodes": [
    {"kind": "Program", "range": [0, 0], "body": [1]},
    {"kind": "ExportDecl", "range": [0, 0], "decl": 2},
    {"kind": "VarDecl", "range": [0, 0], "decls": [3, 8, 13]},
    {"kind": "VarDeclarator", "range": [0, 0], "name": 4},
    {"kind": "BindingIdent", "range": [0, 0], "sym": ["n", 1], "type_ann": 5},
    {"kind": "TsTypeAnn", "range": [0, 0], "ty": 6},
    {"kind": "Type", "range": [0, 0], "children": [7]},
    {"kind": "Ident", "range": [0, 0], "sym": ["T", 1]},
    {"kind": "VarDeclarator", "range": [0, 0], "name": 9},
    {"kind": "BindingIdent", "range": [0, 0], "sym": ["n", 1], "type_ann": 10},
    {"kind": "TsTypeAnn", "range": [0, 0], "ty": 11},
    {"kind": "Type", "range": [0, 0], "children": [12]},
    {"kind": "Ident", "range": [0, 0], "sym": ["U", 1]},
    {"kind": "VarDeclarator", "range": [0, 0], "name": 14},
    {"kind": "BindingIdent", "range": [0, 0], "sym": ["o", 1]}
]}}]}"#;

/// Returns whether an answer has two exports or names, two declarations with one dependency each,
/// or two definitions.
fn returns_two(answer: &Answer<'_>) -> bool {
    match answer {
        Answer::Exports(named) => named.exports.len() == 2,
        Answer::Deps(deps) => match deps.as_slice() {
            [first, second] => first.len() == 1 && second.len() == 1,
            _ => false,
        },
        Answer::Definitions(definitions) => definitions.len() == 2,
        Answer::Names(names) => match names.as_slice() {
            [first, second] => first.name.as_str() == "n" && second.name.as_str() == "o",
            _ => false,
        },
        _ => false,
    }
}

fn answers_two(root: &mut RootSymbol<'_>, query: &Query) -> bool {
    match root.answer(query) {
        Ok(given) => returns_two(&given),
        Err(_) => false,
    }
}

/// Returns the query of a form, on the module `m`.
fn query_of_m(alloc: Global, index: usize) -> Result<Query<'static>, AllocError> {
    query(alloc, index, "m")
}

/// Checks that the answer to the query with this index has two items.
fn returns_two_at(root: &mut RootSymbol<'_>, index: usize) -> Checked {
    let Ok(query) = query_of_m(root.alloc(), index) else {
        return Err("no memory");
    };
    if answers_two(root, &query) {
        Ok(())
    } else {
        Err(form(index))
    }
}

fn returns_two_each(root: &mut RootSymbol<'_>) -> Checked {
    returns_two_at(root, 1)?;
    returns_two_at(root, 4)?;
    returns_two_at(root, 6)?;
    returns_two_at(root, 9)
}

#[test]
fn returns_more_than_the_first(rt: HostRuntime) -> Checked {
    of_root(rt.alloc(), TWICE, returns_two_each)
}

/// Checks that the second module is refused, and that the first is stored.
fn fails_with(root: &mut RootSymbol<'_>, queries: &[Query]) -> Checked {
    holds!(
        matches!(root.run(queries), Err(SymbolsFault::TooManyModules)),
        "the fault"
    );
    holds!(root.has_analyzed("b"), "b is stored");
    holds!(!root.has_analyzed("a"), "a isn't stored");
    Ok(())
}

fn fails_within_a_limit(root: &mut RootSymbol<'_>) -> Checked {
    match queries(root.alloc()) {
        Ok(queries) => fails_with(root, &queries),
        Err(_) => Err("no memory"),
    }
}

#[test]
fn fails_at_the_first_fault(rt: HostRuntime) -> Checked {
    let limits = Limits {
        modules: 1,
        symbols: u32::MAX,
    };
    of_limited(rt.alloc(), GRAPH, limits, fails_within_a_limit)
}

/// Returns a query of a form with a symbol, here symbol 9 of `b`, which has two.
fn unknown(index: usize, specifier: &'static str) -> Query<'static> {
    let ninth = SymbolId::from_number(9);
    match index {
        3 => Query::Name(specifier, ninth),
        4 => Query::Deps(specifier, ninth, ResolveDepsMode::TypesAndExpressions),
        5 => Query::Paths(specifier, ninth),
        6 => Query::Definitions(specifier, ninth),
        _ => Query::Leaves(specifier, ninth),
    }
}

/// Checks that each form with a symbol reports an unknown one, and that only the queried module is
/// stored.
fn returns_unknown_symbols(root: &mut RootSymbol<'_>) -> Checked {
    for index in 3..8 {
        let query = unknown(index, "b");
        if !matches!(root.answer(&query), Err(SymbolsFault::UnknownSymbol)) {
            return Err(form(index));
        }
    }
    holds!(root.has_analyzed("b"), "b is stored");
    holds!(!root.has_analyzed("a"), "a isn't stored");
    Ok(())
}

#[test]
fn returns_unknown_symbols_by_each_form(rt: HostRuntime) -> Checked {
    of_root(rt.alloc(), GRAPH, returns_unknown_symbols)
}

/// Checks that an unknown symbol stores the queried module alone, although it has a statement
/// `export *`.
fn returns_an_unknown_symbol_of_a_web(root: &mut RootSymbol<'_>) -> Checked {
    let query = Query::Name("a", SymbolId::from_number(99));
    let is_unknown = matches!(root.answer(&query), Err(SymbolsFault::UnknownSymbol));
    holds!(root.has_analyzed("a"), "a is stored");
    holds!(!root.has_analyzed("b"), "b isn't stored");
    holds!(is_unknown, "the fault, where a is stored");
    Ok(())
}

#[test]
fn stores_the_queried_module_alone_for_an_unknown_symbol(rt: HostRuntime) -> Checked {
    of_root(rt.alloc(), GRAPH, returns_an_unknown_symbol_of_a_web)
}

/// Checks that a question on a module stores it alone, although it has a statement `export *`.
fn stores_the_module(root: &mut RootSymbol<'_>) -> Checked {
    holds!(root.answer(&Query::Module("a")).is_ok(), "an answer");
    holds!(root.has_analyzed("a"), "a is stored");
    holds!(!root.has_analyzed("b"), "b isn't stored");
    Ok(())
}

#[test]
fn stores_the_queried_module_alone(rt: HostRuntime) -> Checked {
    of_root(rt.alloc(), GRAPH, stores_the_module)
}

/// Checks that a search for definitions stores no module that it doesn't reach.
fn stores_the_reached(root: &mut RootSymbol<'_>) -> Checked {
    holds!(
        root.answer(&Query::Paths("b", first())).is_ok(),
        "an answer"
    );
    holds!(root.has_analyzed("b"), "b is stored");
    holds!(!root.has_analyzed("a"), "a isn't stored");
    Ok(())
}

#[test]
fn stores_what_a_search_reaches(rt: HostRuntime) -> Checked {
    of_root(rt.alloc(), GRAPH, stores_the_reached)
}

/// Checks that a search for definitions follows no `export *` of the module where it begins.
fn stores_the_start(root: &mut RootSymbol<'_>) -> Checked {
    let module_symbol = SymbolId::from_number(0);
    holds!(
        root.answer(&Query::Paths("a", module_symbol)).is_ok(),
        "an answer"
    );
    holds!(root.has_analyzed("a"), "a is stored");
    holds!(!root.has_analyzed("b"), "b isn't stored");
    Ok(())
}

#[test]
fn follows_no_star_of_the_start(rt: HostRuntime) -> Checked {
    of_root(rt.alloc(), GRAPH, stores_the_start)
}

/// Returns a query with a symbol that the module `b` doesn't have, and then one on `a`.
fn unknown_and_known(alloc: Global) -> Result<Vec<Query<'static>>, AllocError> {
    let mut queries = Vec::new(alloc);
    queries.push(Query::Name("b", SymbolId::from_number(99)))?;
    queries.push(Query::Module("a"))?;
    Ok(queries)
}

/// Checks that nothing is stored for the query after the failing one.
fn stores_nothing_after(root: &mut RootSymbol<'_>) -> Checked {
    let Ok(queries) = unknown_and_known(root.alloc()) else {
        return Err("no memory");
    };
    holds!(
        matches!(root.run(&queries), Err(SymbolsFault::UnknownSymbol)),
        "the fault"
    );
    holds!(root.has_analyzed("b"), "b is stored");
    holds!(!root.has_analyzed("a"), "a isn't stored");
    Ok(())
}

#[test]
fn stores_nothing_after_a_fault(rt: HostRuntime) -> Checked {
    of_root(rt.alloc(), GRAPH, stores_nothing_after)
}

/// Returns a query on the module `b`, and then one with a symbol that `a` doesn't have.
fn known_and_unknown(alloc: Global) -> Result<Vec<Query<'static>>, AllocError> {
    let mut queries = Vec::new(alloc);
    queries.push(Query::Module("b"))?;
    queries.push(Query::Name("a", SymbolId::from_number(99)))?;
    Ok(queries)
}

/// Checks that the query before the failing one is answered, so its modules are stored.
fn stores_before(root: &mut RootSymbol<'_>) -> Checked {
    let Ok(queries) = known_and_unknown(root.alloc()) else {
        return Err("no memory");
    };
    holds!(
        matches!(root.run(&queries), Err(SymbolsFault::UnknownSymbol)),
        "the fault"
    );
    holds!(root.has_analyzed("b"), "b is stored");
    holds!(root.has_analyzed("a"), "a is stored");
    Ok(())
}

#[test]
fn stores_what_comes_before_a_fault(rt: HostRuntime) -> Checked {
    of_root(rt.alloc(), GRAPH, stores_before)
}
