//! Analyzed modules: a module's number, specifier and source with its symbol table.

mod es_module;
mod fault;
mod json_module;
mod module_info;
mod qualified_name;
pub(crate) mod re_exports;

pub use es_module::EsModuleInfo;
pub use fault::SymbolsFault;
pub use json_module::JsonModuleInfo;
pub use module_info::{ModuleInfo, ModuleInfoRef, Symbols};
pub use re_exports::ReExportNodes;
