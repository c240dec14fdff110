//! Rules for edges from a node to the children of a field. A form says how the child is entered. A
//! mark is the namespace in which references below it are looked up. A guard is a condition on the
//! mode.

ghost use Rattle.std.specs.Prelude.{◌≡◌, ◌||◌, not};
ghost use Rattle.symbols_ast.specs.declared.tree.categories.Category.TheVariants as Category;
ghost use Rattle.symbols_ast.specs.Kinds.{category_allows_kind, kind_name};
ghost use Rattle.symbols_deps.specs.Dependencies.{is_computed_key, is_rest_pattern};
ghost use Rattle.symbols_deps.specs.Dependencies.{signature_context_if};
ghost use Rattle.symbols_deps.specs.Dependencies.{pattern_context_of, value_namespace_if};
ghost use Rattle.symbols_deps.specs.Dependencies.{edge_namespace, is_guard_for_expressions_mode};
ghost use Rattle.symbols_deps.specs.EdgeRules.{default_edge_rules, edge_rules_with_pattern_context};
ghost use Rattle.symbols_deps.specs.EdgeRules.{edge_rules_with_namespace_rule, edge_rules_with_guard};
ghost use Rattle.symbols_deps.specs.EdgeRules.{edge_rules_marking_namespace};
ghost use Rattle.symbols_deps.specs.EdgeTable.{is_type_assertion};
ghost use Rattle.symbols_nodes.specs.References.{visits_expressions};

use symbols_ast::tree::{Expr, Kind, Pat, Ty};
use symbols_nodes::deps::{ReferenceNamespace, ResolveDepsMode};

/// The form in which a node is entered. It decides which of the node's children are visited.
#[derive(Clone, Copy)]
pub(crate) enum PatternContext {
    Usual,
    /// As a pattern of a signature.
    Signature,
    /// As a parameter property of a constructor.
    Property,
}

/// The rule that chooses the form of a child.
#[derive(Clone, Copy)]
pub(crate) enum PatternContextRule {
    Usual,
    Signature,
    /// The signature form for the kinds that may be in a signature, else the usual form.
    SignatureKinds,
    /// The signature form for a `RestPat`, else the usual form.
    SignatureRest,
    Property,
}

/// The rule that chooses the mark: the namespace in which references at the child and below are
/// looked up. Without a mark the namespace of the parent applies.
#[derive(Clone, Copy)]
pub(crate) enum NamespaceRule {
    Unmarked,
    Marked(ReferenceNamespace),
    /// A computed key is a value; any other child has no mark.
    ValueIfComputed,
    /// A type is marked as a type, a computed key as a value; any other child has no mark.
    ByKind,
}

/// The condition on the mode under which an edge is followed.
#[derive(Clone, Copy)]
pub(crate) enum EdgeGuard {
    Open,
    Expressions,
    /// To a child that asserts a type in both modes, to any other only with expressions.
    Initializer,
}

/// The rules of the edges of one field.
#[derive(Clone, Copy)]
pub(crate) struct EdgeRuleSet {
    pub(crate) form: PatternContextRule,
    pub(crate) mark: NamespaceRule,
    pub(crate) guard: EdgeGuard,
}

impl EdgeRuleSet {
    /// Returns the default rules: both modes, no mark, the usual form.
    pub(crate) fn open() -> EdgeRuleSet
        ensures { result ≡ default_edge_rules }
    {
        EdgeRuleSet {
            form: PatternContextRule::Usual,
            mark: NamespaceRule::Unmarked,
            guard: EdgeGuard::Open,
        }
    }

    /// Returns the default rules with this mark.
    pub(crate) fn marking(namespace: ReferenceNamespace) -> EdgeRuleSet
        ensures { result ≡ edge_rules_marking_namespace namespace }
    {
        EdgeRuleSet::open().with_namespace_rule(NamespaceRule::Marked(namespace))
    }

    pub(crate) fn with_pattern_context(self, form: PatternContextRule) -> EdgeRuleSet
        ensures { result ≡ edge_rules_with_pattern_context form self }
    {
        EdgeRuleSet { form, ..self }
    }

    pub(crate) fn with_namespace_rule(self, mark: NamespaceRule) -> EdgeRuleSet
        ensures { result ≡ edge_rules_with_namespace_rule mark self }
    {
        EdgeRuleSet { mark, ..self }
    }

    pub(crate) fn with_guard(self, guard: EdgeGuard) -> EdgeRuleSet
        ensures { result ≡ edge_rules_with_guard guard self }
    {
        EdgeRuleSet { guard, ..self }
    }

    /// Returns whether the edge to a child of a kind is followed in the mode.
    #[inline(always)]
    pub(crate) fn is_step_followed_in_mode(self, mode: ResolveDepsMode, kind: &Kind) -> bool
        ensures { result
            ≡ (visits_expressions mode || not (is_guard_for_expressions_mode self.guard kind.now)) }
    {
        mode.visit_exprs() || !self.guard.needs_expressions(kind)
    }
}

fn is_computed_key(kind: &Kind) -> bool
    ensures { result ≡ is_computed_key kind.now }
{
    matches!(kind, Kind::Expr(Expr::Computed { .. }))
}

fn is_rest_pattern(kind: &Kind) -> bool
    ensures { result ≡ is_rest_pattern kind.now }
{
    matches!(kind, Kind::Pat(Pat::RestPat { .. }))
}

/// Returns whether the kind is a type.
fn is_type(kind: &Kind) -> bool
    ensures { result ≡ category_allows_kind Category.Type (kind_name kind.now) }
{
    matches!(
        kind,
        Kind::Pat(Pat::Plain { .. }) | Kind::Ty(Ty::TsTypeQuery { .. } | Ty::TsImportType { .. })
    )
}

/// Returns whether the kind is a pattern that may be in a signature.
fn is_signature_pattern(kind: &Kind) -> bool
    ensures { result ≡ category_allows_kind Category.Signature (kind_name kind.now) }
{
    matches!(
        kind,
        Kind::Pat(
            Pat::BindingIdent { .. }
                | Pat::ArrayPat { .. }
                | Pat::ObjectPat { .. }
                | Pat::RestPat { .. }
        )
    )
}

/// Returns whether an expression asserts a type: `e as T` or `<T>e`.
pub(crate) fn is_type_assertion(kind: &Kind) -> bool
    ensures { result ≡ is_type_assertion kind.now }
{
    matches!(
        kind,
        Kind::Ty(Ty::TsAsExpr { .. } | Ty::TsTypeAssertion { .. })
    )
}

fn signature_context_if(condition: bool) -> PatternContext
    ensures { result ≡ signature_context_if condition }
{
    if condition {
        PatternContext::Signature
    } else {
        PatternContext::Usual
    }
}

fn value_namespace_if(condition: bool) -> Option<ReferenceNamespace>
    ensures { result ≡ value_namespace_if condition }
{
    if condition {
        Some(ReferenceNamespace::Value)
    } else {
        None
    }
}

impl PatternContextRule {
    /// Returns the form in which a child of a kind is entered.
    #[inline(always)]
    pub(crate) fn pattern_context_of(self, kind: &Kind) -> PatternContext
        ensures { result ≡ pattern_context_of self kind.now }
    {
        match self {
            PatternContextRule::Usual => PatternContext::Usual,
            PatternContextRule::Signature => PatternContext::Signature,
            PatternContextRule::SignatureKinds => signature_context_if(is_signature_pattern(kind)),
            PatternContextRule::SignatureRest => signature_context_if(is_rest_pattern(kind)),
            PatternContextRule::Property => PatternContext::Property,
        }
    }
}

impl NamespaceRule {
    /// Returns the mark for a child of a kind, if it has one.
    #[inline(always)]
    pub(crate) fn edge_namespace(self, kind: &Kind) -> Option<ReferenceNamespace>
        ensures { result ≡ edge_namespace self kind.now }
    {
        match self {
            NamespaceRule::Unmarked => None,
            NamespaceRule::Marked(namespace) => Some(namespace),
            NamespaceRule::ValueIfComputed => value_namespace_if(is_computed_key(kind)),
            NamespaceRule::ByKind => {
                if is_type(kind) {
                    Some(ReferenceNamespace::Type)
                } else {
                    value_namespace_if(is_computed_key(kind))
                }
            }
        }
    }
}

impl EdgeGuard {
    /// Returns whether the edge to a child of a kind is followed only with expressions.
    #[inline(always)]
    pub(crate) fn needs_expressions(self, kind: &Kind) -> bool
        ensures { result ≡ is_guard_for_expressions_mode self kind.now }
    {
        match self {
            EdgeGuard::Open => false,
            EdgeGuard::Expressions => true,
            EdgeGuard::Initializer => !is_type_assertion(kind),
        }
    }
}
