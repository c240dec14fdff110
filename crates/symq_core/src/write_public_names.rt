//! Writes the public names of a module as JSON.

ghost use Rattle.std.specs.Prelude.{option_map, string_bytes};
ghost use Rattle.symbols_exports.specs.PublicNames.{ExportedNameWithMember, public_name_view};
ghost use Rattle.symq_core.specs.Queries.{items_of_optional_member_name, name_with_member_json};
ghost use Rattle.symq_core.specs.inner.JsonWriting.{AppendsTokensIfOk, remaining_item_tokens};

use crate::write_json::WriteJson;
use json::Writer;
use std::alloc::AllocError;
use symbols_exports::PublicName;

/// Writes the member of a name, if it has one, and ends the array.
fn end_name(out: &mut Writer, member: &Option<String>) -> Result<(), AllocError>
    ensures { AppendsTokensIfOk result out.old out.new (remaining_item_tokens
        (items_of_optional_member_name (option_map string_bytes member.now))) }
{
    if let Some(member) = member {
        out.string(member.as_str())?;
        return out.end_array();
    }
    out.end_array()
}

/// Writes a public name: the exported name, and the member after it, if any.
impl WriteJson for PublicName {
    ghost View = { ExportedNameWithMember };

    ghost view = { public_name_view };

    ghost value = { name_with_member_json };

    fn write_json(&self, out: &mut Writer) -> Result<(), AllocError> {
        out.begin_array()?;
        out.string(self.name.as_str())?;
        end_name(out, &self.member)
    }
}
