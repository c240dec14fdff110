//! Tests of declaration nodes: members, and private members.

ghost use Rattle.std.specs.Prelude.{◌≡◌, true, false};
ghost use Rattle.symbols_ast.specs.NodeRefs.{node_view, kind_of};
ghost use Rattle.symbols_nodes.specs.NodeViews.{symbol_node_view};
ghost use Rattle.symbols_nodes.specs.NodeMembers.{is_member_or_expando_node, is_decl, accessibility_of};
ghost use Rattle.symbols_nodes.specs.NodeMembers.{has_private_modifier, has_private_name, is_private_member};

use crate::nodes::refs::{ExportDeclRef, SymbolNodeRef};
use symbols_ast::tree::{Accessibility, Expr, Kind, Member, NodeRef};

/// Returns the accessibility modifier of a class member, if one is written.
fn accessibility_of(kind: &Kind) -> Option<Accessibility>
    ensures { result ≡ accessibility_of kind.now }
{
    match kind {
        Kind::Member(
            Member::Constructor { accessibility, .. }
            | Member::TsParamProp { accessibility, .. }
            | Member::ClassMethod { accessibility, .. }
            | Member::ClassProp { accessibility, .. }
            | Member::AutoAccessor { accessibility, .. },
        ) => *accessibility,
        _ => None,
    }
}

/// Returns whether the node has the modifier `private`.
fn has_private_modifier(node: NodeRef<'_>) -> bool
    ensures { result ≡ has_private_modifier (node_view node.entry) }
{
    matches!(accessibility_of(node.kind()), Some(Accessibility::Private))
}

/// Returns whether the node's key is a private name, written with `#`.
fn has_private_name(node: NodeRef<'_>) -> bool
    ensures { result ≡ has_private_name (node_view node.entry) }
{
    match node.key() {
        Some(key) => matches!(key.kind(), Kind::Expr(Expr::PrivateName { .. })),
        None => false,
    }
}

impl ExportDeclRef<'_> {
    /// Returns false: no exported declaration is a member (own name: deno_graph has it on the
    /// node).
    pub fn is_member(&self) -> bool
        ensures { result ≡ false }
    {
        false
    }

    /// Returns true: each is a declaration (own name: deno_graph has it on the node).
    pub fn is_decl(&self) -> bool
        ensures { result ≡ true }
    {
        true
    }

    /// Returns false: no exported declaration is a member (own name: deno_graph has it on the
    /// node).
    pub fn is_private_member(&self) -> bool
        ensures { result ≡ false }
    {
        false
    }
}

impl SymbolNodeRef<'_> {
    /// Returns whether the node is a member of a class or interface, or an expando property (as
    /// deno_graph).
    pub fn is_member(&self) -> bool
        ensures { result ≡ is_member_or_expando_node (symbol_node_view self.now) }
    {
        matches!(
            self,
            SymbolNodeRef::AutoAccessor(_)
                | SymbolNodeRef::ClassMethod(_)
                | SymbolNodeRef::ClassProp(_)
                | SymbolNodeRef::ClassParamProp(_)
                | SymbolNodeRef::Constructor(_)
                | SymbolNodeRef::ExpandoProperty(_)
                | SymbolNodeRef::TsIndexSignature(_)
                | SymbolNodeRef::TsCallSignatureDecl(_)
                | SymbolNodeRef::TsConstructSignatureDecl(_)
                | SymbolNodeRef::TsPropertySignature(_)
                | SymbolNodeRef::TsGetterSignature(_)
                | SymbolNodeRef::TsSetterSignature(_)
                | SymbolNodeRef::TsMethodSignature(_)
        )
    }

    /// Returns whether the node is neither the module nor a member (as deno_graph).
    pub fn is_decl(&self) -> bool
        ensures { result ≡ is_decl (symbol_node_view self.now) }
    {
        !self.is_module() && !self.is_member()
    }

    /// Returns whether the node is a class member with the modifier `private`, or an auto-accessor
    /// with a private name (as deno_graph). Methods and properties with private names are no
    /// declarations.
    pub fn is_private_member(&self) -> bool
        ensures { result ≡ is_private_member (symbol_node_view self.now) }
    {
        match self {
            SymbolNodeRef::AutoAccessor(node) => {
                has_private_modifier(*node) || has_private_name(*node)
            }
            SymbolNodeRef::ClassMethod(node)
            | SymbolNodeRef::ClassProp(node)
            | SymbolNodeRef::ClassParamProp(node)
            | SymbolNodeRef::Constructor(node) => has_private_modifier(*node),
            _ => false,
        }
    }
}
