//! The value of a text.

ghost use Rattle.std.specs.Prelude.{◌≡◌, IsErrOf, IfOk, Some, None};
ghost use Rattle.serde_json.specs.View.{view};
ghost use Rattle.fb_json.specs.JsonText.{value_of};

use serde_json::Value;
use std::alloc::Global;

/// The most bytes of a text: that of a graph or of a plan, or a line with a shot.
pub const MOST_TEXT_BYTES: usize = 1 << 28;

/// Why a text has no value.
#[derive(Clone, Copy, Debug, PartialEq, Eq)]
pub enum NoValue {
    /// The text is not UTF-8, or not JSON.
    NotJson,
    /// There was not enough memory.
    NoMemory,
}

/// The value of a text. Its length is not judged.
#[tactic(auto, using(crate::proofs::Readings::readings))]
pub fn read_value(alloc: Global, bytes: &[u8]) -> Result<Value, NoValue>
    ensures value { IfOk result (λ v. value_of bytes.now ≡ Some (view v)) }
    ensures none { IsErrOf result NoValue.NotJson → value_of bytes.now ≡ None }
{
    match Value::from_slice(alloc, bytes) {
        Ok(value) => Ok(value),
        Err(error) if error.is_memory() => Err(NoValue::NoMemory),
        Err(_) => Err(NoValue::NotJson),
    }
}
