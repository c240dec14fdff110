//! The analysis of a module: from a graph's module to its symbol table.

ghost use Rattle.std.specs.Prelude.{◌≡◌, ◌<◌, ◌≤◌, [], ◌∷◌, length, IfOk, IfErr};
ghost use Rattle.symbols_ast.specs.TreeFaults.{IsFaultlessTree};
ghost use Rattle.symbols_ast.specs.WellFormed.{IsWellFormedTree};
ghost use Rattle.symbols_table.specs.DeclViews.{decl_view};
ghost use Rattle.symbols_table.specs.Events.{begins, changes_of_events};
ghost use Rattle.symbols_table.specs.JsonEvents.{trimmed_json_range, json_decl};
ghost use Rattle.symbols_table.specs.inner.Tables.{HasAppliedChanges};
ghost use Rattle.symbols_table.specs.Modules.{parsed, json_text, esm_symbol_table};
ghost use Rattle.symbols_table.specs.Modules.{json_symbol_table};
ghost use Rattle.symbols_table.specs.Analysis.{table_changes_from_tree, table_changes_from_json};
ghost use Rattle.symbols_table.specs.Analysis.{symbol_count};
ghost use Rattle.symbols_table.specs.Analysis.{IsAnalyzedTable, HasTooManySymbols};
ghost use Rattle.symbols_table.specs.Analysis.{IsAnalysisResult, IsAnalysisFault};
ghost use Rattle.symbols_table.specs.declared.builder.table.BuildFault.TheVariants.{TooManySymbols};
ghost use Rattle.symbols_table.specs.declared.info.fault.SymbolsFault.TheVariants as fault;

use crate::builder::scope::Scope;
use crate::builder::table::{BuildFault, ModuleBuilder, Setting};
use crate::decl::{Symbol, SymbolDecl};
use crate::info::{EsModuleInfo, JsonModuleInfo, ModuleInfo, SymbolsFault};
use indexmap::IndexMap;
use std::alloc::Global;
use std::collections::HashMap;
use std::hash::RandomState;
use symbols_ast::graph::GraphModule;
use symbols_ast::ids::{ModuleId, SymbolId};
use symbols_ast::tree::{NodeRef, SourceRange, Tree};
use symbols_nodes::nodes::SymbolNodeRef;

/// Returns a builder with symbol 0, the module, and its declaration.
fn begin<'a>(setting: Setting, decl: SymbolDecl<'a>) -> Result<ModuleBuilder<'a>, BuildFault>
    ensures setting { IfOk result (λ builder. builder.setting ≡ setting) }
    ensures module { IfOk result (λ builder. length builder.symbols.items ≡ 1) }
    ensures table { IfOk result (λ builder. HasAppliedChanges builder
        (changes_of_events (begins (decl_view decl.entry) ∷ []))) }
    ensures too_many { IfErr result (λ fault. fault ≡ TooManySymbols → setting.limit ≡ 0) }
{
    let alloc = setting.alloc;
    let mut builder = ModuleBuilder {
        setting,
        symbols: Vec::new(alloc),
        ids: IndexMap::with_hasher(alloc, setting.keys),
        child_names: HashMap::with_hasher(alloc, setting.keys),
        member_names: HashMap::with_hasher(alloc, setting.keys),
        stars: Vec::new(alloc),
    };
    builder.add_symbol(None, decl)?;
    Ok(builder)
}

/// Returns the symbols with their spare capacity freed.
fn without_room(symbols: Vec<Symbol<'_>>) -> Vec<Symbol<'_>>
    ensures { result.items ≡ symbols.entry.items }
{
    let mut symbols = symbols;
    symbols.shrink_to_fit();
    symbols
}

/// Returns the symbol table of a syntax tree, or a fault.
fn build<'a>(
    setting: Setting,
    specifier: &'a str,
    text: &'a str,
    tree: &'a Tree,
) -> Result<EsModuleInfo<'a>, BuildFault>
    requires well_formed { IsWellFormedTree tree.now.nodes.items }
    requires faultless { IsFaultlessTree text.now tree.now.nodes.items }
    ensures table { IfOk result (λ esm. IsAnalyzedTable setting.module_id specifier.now
        (parsed text.now tree.now) setting.limit (esm_symbol_table esm)) }
    ensures too_many { IfErr result (λ fault. fault ≡ TooManySymbols
        → setting.limit < symbol_count (table_changes_from_tree tree.now)) }
{
    let program = NodeRef { tree, number: 0 };
    let decl = SymbolDecl::definition(SymbolNodeRef::Module(program), program.range());
    let mut builder = begin(setting, decl)?;
    builder.symbols.reserve(tree.nodes.len() / 8)?;
    let scope = Scope {
        ambient: tree.declaration,
        is_module: true,
    };
    builder.walk_items(SymbolId(0), scope, program, program.body())?;
    let ModuleBuilder {
        setting: _,
        symbols,
        ids,
        child_names: _,
        member_names: _,
        stars,
    } = builder;
    Ok(EsModuleInfo {
        module_id: setting.module_id,
        specifier,
        text,
        source: tree,
        symbols: without_room(symbols),
        ids,
        stars,
    })
}

/// Returns the range of a JSON text without the white space at its ends.
fn trimmed_json_range(text: &str) -> SourceRange
    ensures { result ≡ trimmed_json_range text.now }
{
    let start = text.len() - text.trim_start().len();
    SourceRange {
        start,
        end: start + text.trim().len(),
    }
}

/// Returns the symbol table of a JSON text, or a fault.
fn build_json<'a>(
    setting: Setting,
    specifier: &'a str,
    text: &'a str,
) -> Result<JsonModuleInfo<'a>, BuildFault>
    ensures table { IfOk result (λ json. IsAnalyzedTable setting.module_id specifier.now
        (json_text text.now) setting.limit (json_symbol_table json)) }
    ensures too_many { IfErr result (λ fault. fault ≡ TooManySymbols
        → setting.limit < symbol_count (table_changes_from_json text.now)) }
{
    let range = trimmed_json_range(text);
    let mut builder = begin(setting, SymbolDecl::without_node(range))?;
    builder.declare_default(SymbolId(0), SymbolDecl::without_node(range))?;
    let ModuleBuilder {
        setting: _,
        symbols,
        ids: _,
        child_names: _,
        member_names: _,
        stars: _,
    } = builder;
    Ok(JsonModuleInfo {
        module_id: setting.module_id,
        specifier,
        text,
        symbols,
    })
}

/// Returns the symbol table of a module. It is `None` if the module has no source of symbols.
fn build_module<'a>(
    setting: Setting,
    graph_module: &'a GraphModule,
) -> Result<Option<ModuleInfo<'a>>, BuildFault>
    ensures table { IfOk result
        (IsAnalysisResult setting.module_id graph_module.now setting.limit) }
    ensures too_many { IfErr result (λ fault. fault ≡ TooManySymbols
        → HasTooManySymbols graph_module.now setting.limit) }
    ensures enough { IfErr result (λ fault. fault ≡ TooManySymbols → setting.limit < 4294967295) }
{
    let specifier = graph_module.specifier();
    let text = graph_module.text();
    if let Some(tree) = graph_module.tree() {
        let esm = build(setting, specifier, text, tree)?;
        return Ok(Some(ModuleInfo::Esm(esm)));
    }
    if graph_module.is_json() {
        let json = build_json(setting, specifier, text)?;
        return Ok(Some(ModuleInfo::Json(json)));
    }
    Ok(None)
}

/// Returns the symbol table of a module of a graph: the symbols of all declarations of its tree,
/// with their exports, children and members, or the two symbols of a JSON document. It is `None`
/// for an external module and after a failed parse (own name for what deno_graph does in its
/// analyzer).
///
/// # Errors
///
/// `TooManySymbols` if the module has more symbols than the limit; this cannot happen if the limit
/// is `u32::MAX`. `OutOfMemory` if an allocation failed. After an error nothing of the module is
/// stored.
pub fn analyze<'a>(
    alloc: Global,
    keys: RandomState,
    module_id: ModuleId,
    graph_module: &'a GraphModule,
    limit: u32,
) -> Result<Option<ModuleInfo<'a>>, SymbolsFault>
    ensures table { IfOk result (IsAnalysisResult module_id graph_module.now limit) }
    ensures fault { IfErr result (IsAnalysisFault graph_module.now limit) }
    ensures enough { limit ≡ 4294967295 → IfErr result (λ why. why ≡ fault.OutOfMemory) }
{
    let setting = Setting {
        alloc,
        keys,
        module_id,
        limit,
    };
    match build_module(setting, graph_module) {
        Ok(info) => Ok(info),
        Err(BuildFault::OutOfMemory) => Err(SymbolsFault::OutOfMemory),
        Err(BuildFault::TooManySymbols) => {
            let specifier = String::from_str(alloc, graph_module.specifier())?;
            Err(SymbolsFault::TooManySymbols(specifier))
        }
    }
}
