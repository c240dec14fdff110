//! Reads the members of an object up to one key, whose value the caller reads.

ghost use Rattle.std.specs.Prelude.{◌≡◌, IfOk};
ghost use Rattle.json.specs.Json as spec;
ghost use Rattle.json.specs.Value.{members_view};
ghost use Rattle.symq_reader.specs.inner.Streams.{SkipsToKey, members_joined};

use crate::numbers;
use crate::stream::FastPathFault;
use json::{Reader, Value};
use std::alloc::Global;

/// Reads members into `retained` up to this key or the end of the object. Returns whether the key
/// was found; its value comes next then.
pub(crate) fn pass_until<'a>(
    alloc: Global,
    reader: &mut Reader<'a>,
    depth: usize,
    key: &str,
    retained: &mut Vec<(&'a str, Value<'a>)>,
) -> Result<bool, FastPathFault>
    ensures { IfOk result (λ found_key. (done : spec.Members)
        × SkipsToKey depth reader.old key.now found_key reader.new done
        × (members_view retained.new.items
        ≡ members_joined (members_view retained.old.items) done)) }
{
    'members: loop {
        let Some(name) = reader.next_key()? else {
            return Ok(false);
        };
        if name == key {
            return Ok(true);
        }
        let value = Value::read(alloc, reader, depth)?;
        if !numbers::fits(&value) {
            return Err(FastPathFault::Unsupported);
        }
        retained.push((name, value))?;
    }
}
