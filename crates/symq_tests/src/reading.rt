//! Tests fields, and values of lines, that no run of a program shows.

use crate::Checked;
use deno_symbols::check::{RawModule, RawModuleKind};
use deno_symbols::tree::{Accessibility, Kind, Member, MethodKind};
use json::Scratch;
use std::alloc::{AllocError, Global};
use symq_reader::{FormatFault, read_graph, read_query_list, read_value};

/// Returns the text of a graph with one module, whose tree has this node alone.
fn graph_text(alloc: Global, kind: &str, fields: &str) -> Result<String, AllocError> {
    format!(in alloc;
        r#"{{"modules":[{{"specifier":"","kind":"esm","text":"","tree":
            {{"nodes":[{{"kind":"{kind}","range":[0,0],{fields}}}]}}}}]}}"#
    )
}

/// Returns the kind of the only node of the only module of a graph.
fn only_kind(modules: &[RawModule]) -> Option<&Kind> {
    let [module] = modules else {
        return None;
    };
    let RawModuleKind::Esm {
        tree: Some(tree),
        ..
    } = &module.kind
    else {
        return None;
    };
    match tree.nodes.as_slice() {
        [node] => Some(&node.kind),
        _ => None,
    }
}

/// Runs a check on the kind of the only node, with these fields.
fn of_kind<R, F: FnOnce(&Kind) -> Option<R> + Drop>(
    alloc: Global,
    kind: &str,
    fields: &str,
    returned: F,
) -> Option<R>
    requires { F.IsAlwaysCallable returned }
{
    let text = graph_text(alloc, kind, fields).ok()?;
    let graph = read_graph(alloc, text.as_bytes()).ok()?;
    returned(only_kind(graph.modules.as_slice())?)
}

/// Fields of a property, and its accessibility.
const PROPERTIES: [(&str, Option<Accessibility>); 5] = [
    (r#""param":1"#, None),
    (r#""param":1,"accessibility":null"#, None),
    (
        r#""param":1,"accessibility":"public""#,
        Some(Accessibility::Public),
    ),
    (
        r#""param":1,"accessibility":"protected""#,
        Some(Accessibility::Protected),
    ),
    (
        r#""param":1,"accessibility":"private""#,
        Some(Accessibility::Private),
    ),
];

fn accessibility(kind: &Kind) -> Option<Option<Accessibility>> {
    match kind {
        Kind::Member(Member::TsParamProp { accessibility, .. }) => Some(*accessibility),
        _ => None,
    }
}

#[test]
fn reads_accessibilities(rt: HostRuntime) -> Checked {
    for (fields, expected) in PROPERTIES {
        if of_kind(rt.alloc(), "TsParamProp", fields, accessibility) != Some(expected) {
            return Err(fields);
        }
    }
    Ok(())
}

/// Fields of a method, its kind, and whether it is static.
const METHODS: [(&str, MethodKind, bool); 4] = [
    (
        r#""key":1,"function":2,"method_kind":"method""#,
        MethodKind::Method,
        false,
    ),
    (
        r#""key":1,"function":2,"method_kind":"getter","is_static":null"#,
        MethodKind::Getter,
        false,
    ),
    (
        r#""key":1,"function":2,"method_kind":"setter","is_static":false"#,
        MethodKind::Setter,
        false,
    ),
    (
        r#""key":1,"function":2,"method_kind":"method","is_static":true"#,
        MethodKind::Method,
        true,
    ),
];

fn method(kind: &Kind) -> Option<(MethodKind, bool)> {
    match kind {
        Kind::Member(
            Member::ClassMethod {
                kind,
                is_static,
                ..
            },
        ) => Some((*kind, *is_static)),
        _ => None,
    }
}

#[test]
fn reads_methods(rt: HostRuntime) -> Checked {
    for (fields, kind, is_static) in METHODS {
        if of_kind(rt.alloc(), "ClassMethod", fields, method) != Some((kind, is_static)) {
            return Err(fields);
        }
    }
    Ok(())
}

/// Returns the reason why a text is no graph, if it is none.
fn fault_of(alloc: Global, text: &str) -> Option<FormatFault> {
    read_graph(alloc, text.as_bytes()).err()
}

#[test]
fn names_what_is_no_graph(rt: HostRuntime) -> Checked {
    for (text, expected) in [
        ("{}", None),
        ("{", Some(FormatFault::NotJson)),
        ("[]", Some(FormatFault::BadForm)),
    ] {
        if fault_of(rt.alloc(), text) != expected {
            return Err(text);
        }
    }
    Ok(())
}

/// Returns whether a text has a value; `None` if an allocation failed.
fn is_value(alloc: Global, text: &str) -> Option<bool> {
    let mut scratch = Scratch::new(alloc);
    match read_value(alloc, text.as_bytes(), &mut scratch) {
        Ok(found) => Some(found.is_some()),
        Err(_) => None,
    }
}

#[test]
fn takes_whole_numbers_alone(rt: HostRuntime) -> Checked {
    for (text, expected) in [
        ("[18446744073709551615]", true),
        ("[18446744073709551616]", false),
        ("[1.5]", false),
        ("[1e0]", false),
        ("[-1]", false),
    ] {
        if is_value(rt.alloc(), text) != Some(expected) {
            return Err(text);
        }
    }
    Ok(())
}

/// Checks that a number out of range has no value.
#[test]
fn takes_no_number_without_a_value(rt: HostRuntime) -> Checked {
    holds!(
        is_value(rt.alloc(), "[1e999]") == Some(false),
        "a number past all bounds"
    );
    Ok(())
}

#[test]
fn reads_lists_of_the_query_form() -> Checked {
    for (text, expected) in [
        (r#"["module","a"]"#, true),
        (r#"["exports", "file:///a/module/of/a/folder.ts"]"#, true),
        (r#"["name","a",0]"#, true),
        (r#"["paths", "a", 123456789]"#, true),
        (r#"["deps","a",7,"all"]"#, true),
        (r#"["deps", "é", 10, "types"]"#, true),
        (r#"["definitions", "a", 1]"#, true),
        (r#"["symbol","a","b",0]"#, true),
        (r#"["symbol", "a", "é", 123456789]"#, true),
        (r#"["twelve bytes","a"]"#, true),
        (r#"["thirteen byte","a"]"#, false),
        (r#"["modulé","a"]"#, false),
        ("[\"mod\tule\",\"a\"]", false),
        (r#"["deps","a",7,"typés"]"#, false),
        (r#"["name","a",01]"#, false),
        (r#"["name","a",1234567890]"#, false),
        (r#"["name" ,"a",1]"#, false),
        (r#"["name","\u0061",1]"#, false),
        (r#"["name","a",1] "#, false),
        (r#"["name","a","b"]"#, false),
        (r#"["symbol","a","\u0062",1]"#, false),
        (r#"["symbol","a","b",1,2]"#, false),
    ] {
        if read_query_list(text.as_bytes()).is_some() != expected {
            return Err(text);
        }
    }
    Ok(())
}
