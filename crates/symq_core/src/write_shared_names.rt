//! Writes shared names as JSON.

ghost use Rattle.std.specs.Prelude.{[]};
ghost use Rattle.symbols_exports.specs.SharedNames.{NameWithExporters};
ghost use Rattle.symbols_exports.specs.ExportViews.{ExportView};
ghost use Rattle.symbols_queries.specs.Queries.{exporter_view, shared_name_view};
ghost use Rattle.symq_core.specs.Queries.{exporter_json, shared_name_json};

use crate::write_json::{WriteJson, add_number, add_text, write_items};
use json::Writer;
use std::alloc::AllocError;
use symbols_queries::{ExporterBySpecifier, SharedNameBySpecifier};

/// Writes an exporter of a shared name: the chain of `export *` statements, the module, and its
/// symbol. The name itself isn't part of it.
impl WriteJson for ExporterBySpecifier<'_> {
    ghost View = { ExportView };

    ghost view = { exporter_view [] };

    ghost value = { exporter_json };

    fn write_json(&self, out: &mut Writer) -> Result<(), AllocError> {
        out.begin_object()?;
        out.key("chain")?;
        write_items(out, &self.chain)?;
        add_text(out, "module", self.module)?;
        add_number(out, "symbol", u64::from(self.symbol.number()))?;
        out.end_object()
    }
}

/// Writes a shared name and its exporters.
impl WriteJson for SharedNameBySpecifier<'_> {
    ghost View = { NameWithExporters ExportView };

    ghost view = { shared_name_view };

    ghost value = { shared_name_json };

    fn write_json(&self, out: &mut Writer) -> Result<(), AllocError> {
        out.begin_object()?;
        add_text(out, "name", self.name.as_str())?;
        out.key("owners")?;
        write_items(out, &self.exporters)?;
        out.end_object()
    }
}
