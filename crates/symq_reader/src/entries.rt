//! The members of an object as the fast path reads them, and look-up by key. JSON values are
//! allocated only for nested objects.

ghost use Rattle.std.specs.Prelude.{◌≡◌, option_map};
ghost use Rattle.serde_json.specs.Data.{no_members};
ghost use Rattle.serde_json.specs.Find.{get_member};
ghost use Rattle.symq_reader.specs.inner.Objects.{fast_path_value_data, put_entries, entries_data};
ghost use Rattle.symq_reader.specs.UnderKeys.{value_at_key};

use json::Value;

/// The value of a member: one of the forms that fields have, or an object.
#[derive(Drop)]
pub(crate) enum Entry<'a> {
    Null,
    Flag(bool),
    Text(&'a str),
    Whole(u64),
    /// A list of one whole number.
    One(u64),
    /// A list of two whole numbers.
    Pair(u64, u64),
    /// A list of a string and a whole number.
    NameAndScope(&'a str, u64),
    /// A list of whole numbers.
    List(Vec<u64>),
    /// An object. No field has this form.
    Object(Vec<(&'a str, Value<'a>)>),
}

/// Returns the value of the last member with this key.
fn last_under<'v, 'a>(entries: &'v [(&'a str, Entry<'a>)], key: &str) -> Option<&'v Entry<'a>>
    ensures { option_map (λ e. fast_path_value_data e.now) result
        ≡ get_member key.now (put_entries entries.now no_members) }
{
    let mut left = entries.len();
    while left > 0 {
        left -= 1;
        let member = &entries[left];
        if member.0 == key {
            return Some(&member.1);
        }
    }
    None
}

/// Returns the value of the last member with this key; `None` if there is none or it is null.
pub(crate) fn field<'v, 'a>(entries: &'v [(&'a str, Entry<'a>)], key: &str) -> Option<&'v Entry<'a>>
    ensures { option_map (λ e. fast_path_value_data e.now) result
        ≡ value_at_key key.now (entries_data entries.now) }
{
    match last_under(entries, key) {
        None | Some(Entry::Null) => None,
        Some(found) => Some(found),
    }
}
