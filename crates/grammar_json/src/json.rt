//! The JSON value of a file's bytes, where it is one.

ghost use Rattle.std.specs.Prelude.{◌≡◌, IfOk, option_map};
ghost use Rattle.serde_json.specs.View.{view};
ghost use Rattle.grammar_defs.specs.GrammarShape.{json_of, json_of_file};

use crate::loosening::loosen;
use serde_json::Value;
use std::alloc::{AllocError, Global};
use std::str;

/// The JSON value of a file, where it is one.
pub(crate) fn read_json(alloc: Global, bytes: &[u8]) -> Result<Option<Value>, AllocError>
    ensures { IfOk result (λ v. option_map view v ≡ json_of_file bytes.now) }
{
    let loose = loosen(alloc, bytes)?;
    parse(alloc, loose.as_slice())
}

fn parse(alloc: Global, bytes: &[u8]) -> Result<Option<Value>, AllocError>
    ensures { IfOk result (λ v. option_map view v ≡ json_of bytes.now) }
{
    let Ok(text) = str::from_utf8(bytes) else {
        return Ok(None);
    };
    match Value::from_str(alloc, text) {
        Ok(value) => Ok(Some(value)),
        Err(error) => {
            if error.is_memory() {
                Err(AllocError)
            } else {
                Ok(None)
            }
        }
    }
}
