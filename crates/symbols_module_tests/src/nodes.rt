//! Tests nodes of declarations in trees whose nodes have no kinds, or that no table covers. Runs of
//! `symq_tables` test most of what they return.

use std::alloc::{AllocError, Global};
use std::borrow::CowStr;
use symbols_deps::{ResolveDeps, ResolveDepsMode};
use symbols_graph::tree::{Decl, Expr, Kind, Member, NodeId, NodeRef, Pat, Tree};
use symbols_nodes::nodes::{ExportDeclRef, SymbolNode, SymbolNodeRef};
use symbols_test_support::lifetimes::{CheckResult, Checked};
use symbols_test_support::trees::{id, list, push};
use symbols_test_support::{holds, there};

/// Returns a tree of three nodes without specific kinds.
fn tree(alloc: Global) -> Result<Tree, AllocError> {
    let mut nodes = Vec::new(alloc);
    for _ in 0..3 {
        let children = Vec::new(alloc);
        push(&mut nodes, Kind::Pat(Pat::Other { children }))?;
    }
    Ok(Tree {
        declaration: false,
        nodes,
    })
}

/// Runs a check on a tree.
fn of_tree<R: CheckResult, F: FnOnce(&Tree) -> R + Drop>(
    tree: Result<Tree, AllocError>,
    returned: F,
) -> R
    requires { F.IsAlwaysCallable returned }
{
    let Ok(tree) = tree else {
        return R::nothing();
    };
    returned(&tree)
}

/// Returns the number of the node of a function definition.
fn number_in(definition: SymbolNode<'_>) -> Option<NodeId> {
    match definition.maybe_ref() {
        Some(SymbolNodeRef::FnDecl(node)) => Some(node.node_id()),
        _ => None,
    }
}

fn number_of(tree: &Tree, number: u32) -> Option<NodeId> {
    let node = NodeRef::new(tree, NodeId(number)).map(SymbolNodeRef::FnDecl);
    number_in(SymbolNode { node })
}

fn shows(tree: &Tree) -> Checked {
    holds!(
        number_of(tree, 2) == Some(NodeId(2)),
        "the number of node 2"
    );
    holds!(number_of(tree, 3) == None, "there is no node 3");
    Ok(())
}

#[test]
fn shows_the_node_of_a_definition(rt: HostRuntime) -> Checked {
    of_tree(tree(rt.alloc()), shows)
}

/// Returns the number of nodes in the tree of a definition.
fn nodes_around(node: NodeRef<'_>) -> Option<usize> {
    let node = Some(SymbolNodeRef::Module(node));
    let (_, source) = SymbolNode { node }.maybe_ref_and_source()?;
    Some(source.nodes.len())
}

/// Checks what every declaration after `export` returns, of whichever kind.
fn returns_by_itself(exported: ExportDeclRef<'_>) -> Checked {
    holds!(
        exported.has_export_keyword(),
        "what is exported has the word"
    );
    holds!(exported.is_decl(), "what is exported is a declaration");
    holds!(!exported.is_member(), "what is exported is no member");
    holds!(
        !exported.is_private_member(),
        "what is exported is no private member"
    );
    holds!(!exported.is_ctor(), "what is exported is no constructor");
    holds!(!exported.is_module(), "what is exported is no module");
    Ok(())
}

/// Checks what a node returns by its form alone.
fn returns(tree: &Tree) -> Checked {
    let node = there!(NodeRef::new(tree, NodeId(1)), "node 1");
    let class = SymbolNodeRef::ClassDecl(node);
    holds!(class.is_class(), "a class is a class");
    holds!(class.is_decl(), "a class is a declaration");
    holds!(!class.is_member(), "a class is no member");
    let interface = SymbolNodeRef::TsInterface(node);
    holds!(interface.is_interface(), "an interface is an interface");
    holds!(!interface.is_module(), "an interface is no module");
    holds!(
        interface.namespaces() == (false, true),
        "an interface is a type alone"
    );
    let exported = ExportDeclRef::TsModule(node);
    let namespace = SymbolNodeRef::ExportDecl(node, exported);
    holds!(namespace.is_ts_namespace(), "a namespace is a namespace");
    holds!(
        namespace.has_export_keyword(),
        "a namespace that is exported has the word"
    );
    holds!(!namespace.is_var(), "a namespace is no variable");
    returns_by_itself(exported)?;
    let constructor = SymbolNodeRef::Constructor(node);
    holds!(constructor.is_ctor(), "a constructor is a constructor");
    holds!(constructor.is_member(), "a constructor is a member");
    holds!(
        !constructor.is_private_member(),
        "a constructor is no private member"
    );
    holds!(nodes_around(node) == Some(3), "how many nodes the tree has");
    Ok(())
}

#[test]
fn returns_what_a_node_is(rt: HostRuntime) -> Checked {
    of_tree(tree(rt.alloc()), returns)
}

/// Returns the tree of `declare module "m";`, which no table of a module has.
fn tree_of_a_named_module(alloc: Global) -> Result<Tree, AllocError> {
    let value = String::from_str(alloc, "m")?;
    let module = Decl::TsModuleDecl {
        id: NodeId(1),
        declare: true,
        body: None,
    };
    let mut nodes = Vec::new(alloc);
    push(&mut nodes, Kind::Decl(module))?;
    push(&mut nodes, Kind::Expr(Expr::Str { value }))?;
    Ok(Tree {
        declaration: true,
        nodes,
    })
}

/// Returns whether it is the name `m`, borrowed from a tree.
fn is_m(name: Result<Option<CowStr<'_>>, AllocError>) -> bool {
    matches!(name, Ok(Some(CowStr::Borrowed(text))) if text == "m")
}

/// Checks what a module that a string names returns.
fn is_named(alloc: Global, tree: &Tree) -> Checked {
    let node = there!(NodeRef::new(tree, NodeId(0)), "node 0");
    let module = SymbolNodeRef::TsNamespace(node);
    let definition = SymbolNode { node: Some(module) };
    holds!(is_m(definition.maybe_name(alloc)), "the name of the module");
    let exported = ExportDeclRef::TsModule(node);
    holds!(
        is_m(exported.maybe_name(alloc)),
        "the name of the module where it is exported"
    );
    holds!(module.is_ts_namespace(), "it is a namespace");
    holds!(!module.has_body(), "it has no body");
    Ok(())
}

#[test]
fn names_a_module_by_its_text(rt: HostRuntime) -> Checked {
    let alloc = rt.alloc();
    of_tree(tree_of_a_named_module(alloc), |tree| is_named(alloc, tree))
}

/// Returns the tree of a parameter property whose name is the type `a`, which no checked tree has.
fn tree_of_a_typed_property(alloc: Global) -> Result<Tree, AllocError> {
    let property = Member::TsParamProp {
        param: NodeId(1),
        accessibility: None,
    };
    let mut nodes = Vec::new(alloc);
    push(&mut nodes, Kind::Member(property))?;
    let children = list(alloc, &[2])?;
    push(&mut nodes, Kind::Pat(Pat::Plain { children }))?;
    let sym = id(alloc, "a", 1)?;
    push(&mut nodes, Kind::Expr(Expr::Ident { sym }))?;
    Ok(Tree {
        declaration: false,
        nodes,
    })
}

/// Returns whether the node has this number of dependencies, those in expressions included.
fn depends_on(alloc: Global, node: SymbolNodeRef<'_>, expected: usize) -> bool {
    match node.deps(alloc, ResolveDepsMode::TypesAndExpressions) {
        Ok(deps) => deps.len() == expected,
        Err(_) => false,
    }
}

/// Checks that edges depend on the form under which a node is reached. A type has none as a
/// property. A name at which the search begins is no reference.
fn goes_by_forms(alloc: Global, tree: &Tree) -> Checked {
    let property = there!(NodeRef::new(tree, NodeId(0)), "node 0");
    let ty = there!(NodeRef::new(tree, NodeId(1)), "node 1");
    let name = there!(NodeRef::new(tree, NodeId(2)), "node 2");
    holds!(
        depends_on(alloc, SymbolNodeRef::ClassParamProp(property), 0),
        "a type that is a property"
    );
    holds!(
        depends_on(alloc, SymbolNodeRef::ClassParamProp(ty), 1),
        "a type where the walk begins"
    );
    holds!(
        depends_on(alloc, SymbolNodeRef::TsInterface(name), 0),
        "a name where the walk begins"
    );
    Ok(())
}

#[test]
fn depends_by_forms(rt: HostRuntime) -> Checked {
    let alloc = rt.alloc();
    of_tree(
        tree_of_a_typed_property(alloc),
        |tree| goes_by_forms(alloc, tree),
    )
}
