//! Writes small parts of an answer as JSON.

ghost use Rattle.std.specs.Prelude.{ℕ, List, [], ◌∷◌, map, decimal, string_bytes};
ghost use Rattle.json.specs.Token as token;
ghost use Rattle.serde_json.specs.Data.{Data, null, number, unsigned, string, array, object};
ghost use Rattle.serde_json.specs.Data.{no_members, member};
ghost use Rattle.serde_json.specs.View.{items_of};
ghost use Rattle.symq_core.specs.inner.JsonWriting.{AppendsTokensIfOk, AppendsValueTokensIfOk};
ghost use Rattle.symq_core.specs.inner.JsonWriting.{remaining_value_tokens};

use json::Writer;
use std::alloc::AllocError;

/// A value that can be written as JSON.
pub(crate) trait WriteJson {
    /// The type of the views of these values.
    ghost View: { Type 0 };

    /// Returns the view of a value.
    ghost view: { Self → View };

    /// Returns the JSON value of a view.
    ghost value: { View → Data };

    /// Writes the value. It fails only if an allocation failed.
    fn write_json(&self, out: &mut Writer) -> Result<(), AllocError>
        ensures { AppendsValueTokensIfOk result out.old out.new (value (view self.now)) };
}

/// Writes values as the items of an open array, and ends the array.
fn end_items<T: WriteJson>(out: &mut Writer, items: &[T]) -> Result<(), AllocError>
    ensures { AppendsTokensIfOk result out.old out.new
        (remaining_value_tokens (map T.value (map T.view items.now))) }
{
    for item in items {
        item.write_json(out)?;
    }
    out.end_array()
}

/// Writes an array of values.
pub(crate) fn write_items<T: WriteJson>(out: &mut Writer, items: &[T]) -> Result<(), AllocError>
    ensures { AppendsValueTokensIfOk result out.old out.new
        (array (items_of (map T.value (map T.view items.now)))) }
{
    out.begin_array()?;
    end_items(out, items)
}

/// Writes an object with one member, an array of values.
pub(crate) fn write_list<T: WriteJson>(
    out: &mut Writer,
    key: &str,
    items: &[T],
) -> Result<(), AllocError>
    ensures { AppendsValueTokensIfOk result out.old out.new (object
        (member key.now (array (items_of (map T.value (map T.view items.now)))) no_members)) }
{
    out.begin_object()?;
    out.key(key)?;
    write_items(out, items)?;
    out.end_object()
}

impl WriteJson for String {
    ghost View = { List ℕ };

    ghost view = { string_bytes };

    ghost value = { string };

    fn write_json(&self, out: &mut Writer) -> Result<(), AllocError> {
        out.string(self.as_str())
    }
}

/// Writes a member of an object whose value is a string.
pub(crate) fn add_text(out: &mut Writer, key: &str, text: &str) -> Result<(), AllocError>
    ensures { AppendsTokensIfOk result out.old out.new (token.key key.now ∷ token.string text.now
        ∷ []) }
{
    out.key(key)?;
    out.string(text)
}

/// Writes a member of an object whose value is a number.
pub(crate) fn add_number(out: &mut Writer, key: &str, value: u64) -> Result<(), AllocError>
    ensures { AppendsTokensIfOk result out.old out.new (token.key key.now
        ∷ token.number (decimal value) ∷ []) }
{
    out.key(key)?;
    out.u64(value)
}

/// Writes an object with one member, a string.
pub(crate) fn write_text(out: &mut Writer, key: &str, text: &str) -> Result<(), AllocError>
    ensures { AppendsValueTokensIfOk result out.old out.new
        (object (member key.now (string text.now) no_members)) }
{
    out.begin_object()?;
    add_text(out, key, text)?;
    out.end_object()
}

/// Writes an object with one member, a number.
pub(crate) fn write_number(out: &mut Writer, key: &str, value: u64) -> Result<(), AllocError>
    ensures { AppendsValueTokensIfOk result out.old out.new
        (object (member key.now (number (unsigned value)) no_members)) }
{
    out.begin_object()?;
    add_number(out, key, value)?;
    out.end_object()
}

/// Writes an object with one member, null.
pub(crate) fn write_null(out: &mut Writer, key: &str) -> Result<(), AllocError>
    ensures { AppendsValueTokensIfOk result out.old out.new
        (object (member key.now null no_members)) }
{
    out.begin_object()?;
    out.key(key)?;
    out.null()?;
    out.end_object()
}
