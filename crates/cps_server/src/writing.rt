//! JSON, written with no blank in it.
ghost use Rattle.std.specs.Prelude.{◌≡◌, [], ◌∷◌, ◌++◌, false, IsTrue, OnOk};
ghost use Rattle.json.specs.Print.{escape, escape_byte};
ghost use Rattle.serde_json.specs.Data.{string};
ghost use Rattle.serde_json.specs.View.{view};
ghost use Rattle.serde_json.specs.Written.{comma_if, compact_text, has_float};
ghost use Rattle.cps_server.specs.Code.Writing.{version_text};

use serde_json::Value;
use std::alloc::{AllocError, Global};

/// Appends a comma, where something stands before.
pub fn push_comma(text: &mut Vec<u8>, later: bool) -> Result<(), AllocError>
    ensures { OnOk result (text.new.items ≡ text.old.items ++ comma_if later) }
{
    if later {
        text.push(b',')?;
    }
    Ok(())
}

/// Appends a text of characters. Only one with characters that are escaped is copied before.
pub fn push_string(alloc: Global, text: &mut Vec<u8>, characters: &str) -> Result<(), AllocError>
    ensures { OnOk result (text.new.items ≡ text.old.items ++ compact_text (string characters.now)) }
{
    if is_plain(characters.as_bytes()) {
        return push_plain(text, characters.as_bytes());
    }
    let json = Value::try_from_str(alloc, characters)?;
    push_value(alloc, text, &json)
}

/// Whether no byte of a text is escaped.
fn is_plain(bytes: &[u8]) -> bool
    ensures { IsTrue result → escape bytes.now ≡ bytes.now }
{
    let mut plain = true;
    for byte in bytes {
        plain &= stands_for_itself(*byte);
    }
    plain
}

/// Whether a byte is written as it is.
fn stands_for_itself(byte: u8) -> bool
    ensures { IsTrue result → escape_byte byte ≡ byte ∷ [] }
{
    byte >= b' ' && byte != b'"' && byte != b'\\'
}

/// Appends a text of which no byte is escaped.
fn push_plain(text: &mut Vec<u8>, bytes: &[u8]) -> Result<(), AllocError>
    requires { escape bytes.now ≡ bytes.now }
    ensures { OnOk result (text.new.items ≡ text.old.items ++ compact_text (string bytes.now)) }
{
    text.push(b'"')?;
    text.extend_from_slice(bytes)?;
    text.push(b'"')?;
    Ok(())
}

/// Appends the member that tells a version, if it is known.
pub fn push_version(
    alloc: Global,
    text: &mut Vec<u8>,
    version: Option<i64>,
) -> Result<(), AllocError>
    ensures { OnOk result (text.new.items ≡ text.old.items ++ version_text version) }
{
    if let Some(version) = version {
        text.extend_from_slice(b",\"version\":")?;
        push_value(alloc, text, &Value::from(version))?;
    }
    Ok(())
}

/// Appends a value, which has no float.
fn push_value(alloc: Global, text: &mut Vec<u8>, json: &Value) -> Result<(), AllocError>
    requires { has_float (view json.now) ≡ false }
    ensures { OnOk result (text.new.items ≡ text.old.items ++ compact_text (view json.now)) }
{
    let json = json.to_vec(alloc)?;
    text.extend_from_slice(&json)
}
