//! Properties of class members besides their kinds: accessibility and the kind of a method.

/// The accessibility modifier of a class member.
#[derive(Clone, Copy, Debug, PartialEq, Eq, Hash)]
pub enum Accessibility {
    Public,
    Protected,
    Private,
}

/// The kind of a `ClassMethod`: a method, a getter or a setter.
#[derive(Clone, Copy, Debug, PartialEq, Eq, Hash)]
pub enum MethodKind {
    Method,
    Getter,
    Setter,
}
