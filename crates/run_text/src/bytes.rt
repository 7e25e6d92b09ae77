// The JSON value of a line.
ghost use Rattle.std.specs.Prelude.{◌≡◌, IfOk, IfNone, IfSome, Some, None};
ghost use Rattle.std.specs.Str.{IsUtf8};
ghost use Rattle.serde_json.specs.Read.{read};
ghost use Rattle.serde_json.specs.View.{view};

use rate_types::OutOfMemory;
use serde_json::Value;
use std::alloc::Global;

/// The value that bytes are, None where they are no text or no JSON.
pub fn value_of(alloc: Global, bytes: &[u8]) -> Result<Option<Value>, OutOfMemory>
    ensures some { IfOk result (λ o. IfSome o (λ v. IsUtf8 bytes.now × (read bytes.now ≡ Some (view v)))) }
    ensures none { IfOk result (λ o. IfNone o (IsUtf8 bytes.now → read bytes.now ≡ None)) }
{
    match Value::from_slice(alloc, bytes) {
        Ok(value) => Ok(Some(value)),
        Err(error) => {
            if error.is_memory() {
                Err(OutOfMemory)
            } else {
                Ok(None)
            }
        }
    }
}
