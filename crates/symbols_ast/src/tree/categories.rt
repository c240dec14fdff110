// Generated from tools/kinds/kinds.txt by tools/kinds.py --write. Do not edit.
//! Categories: which kinds may stand at a place.

ghost use Rattle.std.specs.Prelude.{◌≡◌};
ghost use Rattle.symbols_ast.specs.Kinds.{category_allows_kind, is_declaration, is_statement, is_expression};
ghost use Rattle.symbols_ast.specs.Kinds.{is_property_key, is_ts_entity_name, is_signature_pattern, is_pattern};
ghost use Rattle.symbols_ast.specs.Kinds.{is_type, is_member, is_type_element, is_import_or_export, is_item};
ghost use Rattle.symbols_ast.specs.Kinds.{is_exportable_declaration, is_neither_program_nor_import_export};
ghost use Rattle.symbols_ast.specs.Kinds.{is_constructor_param, is_accessor_key, is_type_query_expr, is_assign_left};

use crate::tree::names::KindName;

/// Which kinds may stand at a place.
#[derive(Clone, Copy, Debug, PartialEq, Eq)]
pub enum Category {
    /// Items: of the body of a module or of a namespace.
    Item,
    /// Specifiers of an import.
    ImportSpecifier,
    /// A name.
    Ident,
    /// Declarations that `export` may stand before: all but `using`.
    ExportedDeclaration,
    /// Specifiers of an export.
    ExportSpecifier,
    /// A name that is exported.
    ExportOrig,
    /// A declaration after `export default`.
    DefaultDeclaration,
    /// Expressions.
    Expression,
    /// A name, or a name with dots.
    Entity,
    /// A class without its name.
    Class,
    /// Type parameters.
    TypeParams,
    /// Type arguments.
    TypeArgs,
    /// A type that a class implements or an interface extends.
    ExprWithTypeArgs,
    /// Members of a class.
    Member,
    /// A function without its name.
    Function,
    /// Patterns.
    Pattern,
    /// A type annotation.
    Annotation,
    /// All but the program and what stands in a body of items alone.
    Any,
    /// A variable of a statement.
    VarDeclarator,
    /// Elements of an interface.
    Element,
    /// Types.
    Type,
    /// A member of an enum.
    EnumMember,
    /// The name of a namespace, or the text of a module.
    ModuleName,
    /// The body of a namespace.
    ModuleBody,
    /// Parameters of a constructor.
    ConstructorParam,
    /// The pattern of a parameter property.
    ParamPropPattern,
    /// Keys of members and of pattern properties.
    Key,
    /// Keys of accessors.
    AccessorKey,
    /// Patterns of a signature.
    Signature,
    /// A type parameter.
    TypeParam,
    /// A name after `typeof`.
    QueryName,
    /// A property that is asked for.
    MemberProp,
    /// The left of an assignment.
    AssignLeft,
    /// Properties of an object pattern.
    ObjectPatProp,
    /// A name that a pattern binds.
    BindingIdent,
}

impl KindName {
    fn is_declaration(self) -> bool
        ensures { result ≡ is_declaration self }
    {
        matches!(
            self,
            KindName::ClassDecl
                | KindName::FnDecl
                | KindName::VarDecl
                | KindName::UsingDecl
                | KindName::TsInterfaceDecl
                | KindName::TsTypeAliasDecl
                | KindName::TsEnumDecl
                | KindName::TsModuleDecl
        )
    }

    fn is_statement(self) -> bool
        ensures { result ≡ is_statement self }
    {
        self.is_declaration() || matches!(self, KindName::ExprStmt | KindName::Other)
    }

    fn is_expression(self) -> bool
        ensures { result ≡ is_expression self }
    {
        matches!(
            self,
            KindName::Ident
                | KindName::Member
                | KindName::Str
                | KindName::Num
                | KindName::BigInt
                | KindName::Assign
                | KindName::FnExpr
                | KindName::ClassExpr
                | KindName::Arrow
                | KindName::TsAsExpr
                | KindName::TsTypeAssertion
                | KindName::Other
        )
    }

    fn is_property_key(self) -> bool
        ensures { result ≡ is_property_key self }
    {
        matches!(
            self,
            KindName::IdentName
                | KindName::Str
                | KindName::Num
                | KindName::BigInt
                | KindName::Computed
        )
    }

    fn is_ts_entity_name(self) -> bool
        ensures { result ≡ is_ts_entity_name self }
    {
        matches!(self, KindName::Ident | KindName::TsQualifiedName)
    }

    fn is_signature_pattern(self) -> bool
        ensures { result ≡ is_signature_pattern self }
    {
        matches!(
            self,
            KindName::BindingIdent | KindName::ArrayPat | KindName::ObjectPat | KindName::RestPat
        )
    }

    fn is_pattern(self) -> bool
        ensures { result ≡ is_pattern self }
    {
        self.is_signature_pattern()
            || matches!(
                self,
                KindName::AssignPat | KindName::ExprPat | KindName::Other
            )
    }

    fn is_type(self) -> bool
        ensures { result ≡ is_type self }
    {
        matches!(
            self,
            KindName::Plain | KindName::TsTypeQuery | KindName::TsImportType
        )
    }

    fn is_member(self) -> bool
        ensures { result ≡ is_member self }
    {
        matches!(
            self,
            KindName::Constructor
                | KindName::ClassMethod
                | KindName::ClassProp
                | KindName::TsIndexSignature
                | KindName::AutoAccessor
                | KindName::Other
        )
    }

    fn is_type_element(self) -> bool
        ensures { result ≡ is_type_element self }
    {
        matches!(
            self,
            KindName::TsCallSignatureDecl
                | KindName::TsConstructSignatureDecl
                | KindName::TsPropertySignature
                | KindName::TsGetterSignature
                | KindName::TsSetterSignature
                | KindName::TsMethodSignature
                | KindName::TsIndexSignature
        )
    }

    fn is_import_or_export(self) -> bool
        ensures { result ≡ is_import_or_export self }
    {
        matches!(
            self,
            KindName::Import
                | KindName::ExportDecl
                | KindName::ExportNamed
                | KindName::ExportDefaultDecl
                | KindName::ExportDefaultExpr
                | KindName::ExportAll
                | KindName::TsImportEqualsDecl
                | KindName::TsExportAssignment
        )
    }

    fn is_item(self) -> bool
        ensures { result ≡ is_item self }
    {
        self.is_statement() || self.is_import_or_export()
    }

    fn is_exportable_declaration(self) -> bool
        ensures { result ≡ is_exportable_declaration self }
    {
        self.is_declaration() && !matches!(self, KindName::UsingDecl)
    }

    fn is_neither_program_nor_import_export(self) -> bool
        ensures { result ≡ is_neither_program_nor_import_export self }
    {
        !self.is_import_or_export() && !matches!(self, KindName::Program)
    }

    fn is_constructor_param(self) -> bool
        ensures { result ≡ is_constructor_param self }
    {
        self.is_pattern() || matches!(self, KindName::TsParamProp)
    }

    fn is_accessor_key(self) -> bool
        ensures { result ≡ is_accessor_key self }
    {
        self.is_property_key() || matches!(self, KindName::PrivateName)
    }

    fn is_type_query_expr(self) -> bool
        ensures { result ≡ is_type_query_expr self }
    {
        self.is_ts_entity_name() || matches!(self, KindName::TsImportType)
    }

    fn is_assign_left(self) -> bool
        ensures { result ≡ is_assign_left self }
    {
        self.is_expression() || matches!(self, KindName::BindingIdent)
    }
}

impl Category {
    /// Returns whether a kind may stand there.
    pub fn allows(self, name: KindName) -> bool
        ensures { result ≡ category_allows_kind self name }
    {
        match self {
            Category::Item => name.is_item(),
            Category::ImportSpecifier => matches!(
                name,
                KindName::ImportNamed | KindName::ImportDefault | KindName::ImportNamespace
            ),
            Category::Ident => matches!(name, KindName::Ident),
            Category::ExportedDeclaration => name.is_exportable_declaration(),
            Category::ExportSpecifier => matches!(
                name,
                KindName::ExportSpecifier | KindName::ExportNamespace
            ),
            Category::ExportOrig => matches!(name, KindName::Ident | KindName::Str),
            Category::DefaultDeclaration => matches!(
                name,
                KindName::ClassExpr | KindName::FnExpr | KindName::TsInterfaceDecl
            ),
            Category::Expression => name.is_expression(),
            Category::Entity => name.is_ts_entity_name(),
            Category::Class => matches!(name, KindName::Class),
            Category::TypeParams => matches!(name, KindName::TsTypeParamDecl),
            Category::TypeArgs => matches!(name, KindName::TsTypeParamInstantiation),
            Category::ExprWithTypeArgs => matches!(name, KindName::TsExprWithTypeArgs),
            Category::Member => name.is_member(),
            Category::Function => matches!(name, KindName::Function),
            Category::Pattern => name.is_pattern(),
            Category::Annotation => matches!(name, KindName::TsTypeAnn),
            Category::Any => name.is_neither_program_nor_import_export(),
            Category::VarDeclarator => matches!(name, KindName::VarDeclarator),
            Category::Element => name.is_type_element(),
            Category::Type => name.is_type(),
            Category::EnumMember => matches!(name, KindName::TsEnumMember),
            Category::ModuleName => matches!(name, KindName::Ident | KindName::Str),
            Category::ModuleBody => matches!(
                name,
                KindName::TsModuleBlock | KindName::TsNamespaceDecl
            ),
            Category::ConstructorParam => name.is_constructor_param(),
            Category::ParamPropPattern => matches!(
                name,
                KindName::BindingIdent | KindName::AssignPat
            ),
            Category::Key => name.is_property_key(),
            Category::AccessorKey => name.is_accessor_key(),
            Category::Signature => name.is_signature_pattern(),
            Category::TypeParam => matches!(name, KindName::TsTypeParam),
            Category::QueryName => name.is_type_query_expr(),
            Category::MemberProp => matches!(
                name,
                KindName::IdentName | KindName::PrivateName | KindName::Computed
            ),
            Category::AssignLeft => name.is_assign_left(),
            Category::ObjectPatProp => matches!(
                name,
                KindName::KeyValuePatProp | KindName::AssignPatProp | KindName::RestPat
            ),
            Category::BindingIdent => matches!(name, KindName::BindingIdent),
        }
    }
}
