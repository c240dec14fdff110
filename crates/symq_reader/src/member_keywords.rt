//! Reads the keywords for the accessibility of a member and the kind of a method.

ghost use Rattle.std.specs.Prelude.{◌≡◌};
ghost use Rattle.symq_reader.specs.inner.Objects.{object_data};
ghost use Rattle.symq_reader.specs.inner.Reading.{IsReadResult};
ghost use Rattle.symq_reader.specs.UnderKeys.{required_value_under_key, optional_value_under_key};
ghost use Rattle.symq_reader.specs.MemberKeywords.{accessibility_by_keyword, as_accessibility};
ghost use Rattle.symq_reader.specs.MemberKeywords.{method_kind_by_keyword, as_method_kind};

use crate::faults::FormatFault;
use crate::fields::{self, Object};
use symbols_ast::tree::{Accessibility, MethodKind};

/// Returns the accessibility of a keyword.
fn accessibility_by_keyword(keyword: &str) -> Option<Accessibility>
    ensures { result ≡ accessibility_by_keyword keyword.now }
{
    match keyword {
        "public" => Some(Accessibility::Public),
        "protected" => Some(Accessibility::Protected),
        "private" => Some(Accessibility::Private),
        _ => None,
    }
}

/// Returns the method kind of a keyword.
fn method_kind_by_keyword(keyword: &str) -> Option<MethodKind>
    ensures { result ≡ method_kind_by_keyword keyword.now }
{
    match keyword {
        "method" => Some(MethodKind::Method),
        "getter" => Some(MethodKind::Getter),
        "setter" => Some(MethodKind::Setter),
        _ => None,
    }
}

/// Returns the optional accessibility of a member. It fails if the field is there but no such
/// keyword.
pub(crate) fn accessibility(
    object: &Object<'_, '_>,
    key: &str,
) -> Result<Option<Accessibility>, FormatFault>
    ensures { IsReadResult (λ a. a) result
        (optional_value_under_key as_accessibility key.now (object_data object.now)) }
{
    let Some(found) = fields::field(object, key) else {
        return Ok(None);
    };
    match fields::as_text(found).and_then(accessibility_by_keyword) {
        Some(accessibility) => Ok(Some(accessibility)),
        None => Err(FormatFault::BadForm),
    }
}

/// Returns the method kind of a member. It fails if the field is absent or no such keyword.
pub(crate) fn method_kind(object: &Object<'_, '_>, key: &str) -> Result<MethodKind, FormatFault>
    ensures { IsReadResult (λ k. k) result
        (required_value_under_key as_method_kind key.now (object_data object.now)) }
{
    let keyword = fields::field(object, key).and_then(fields::as_text);
    match keyword.and_then(method_kind_by_keyword) {
        Some(kind) => Ok(kind),
        None => Err(FormatFault::BadForm),
    }
}
