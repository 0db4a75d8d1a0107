// Digests as text.
ghost use Rattle.std.specs.Prelude.{◌≡◌, false, true, IfOk, option_map, string_bytes};
ghost use Rattle.hex.specs.Hex.{encode_lower};
ghost use Rattle.json_form.specs.Arrays.{text_of};
ghost use Rattle.serde_json.specs.View.{view};
ghost use Rattle.serde_json.specs.Written.{compact_text, has_float};
ghost use Rattle.saved_state.specs.Digest.{all_lower_hex, hex_digest, is_digest, is_lower_hex};

use net_types::NoMemory;
use serde_json::Value;
use sha2::{Digest, Sha256};
use std::alloc::Global;

/// The digest of the value's compact text.
pub(crate) fn digest_text(alloc: Global, value: &Value) -> Result<String, NoMemory>
    requires { has_float (view value.now) ≡ false }
    ensures text { IfOk result (λ s. string_bytes s ≡ hex_digest (compact_text (view value.now))) }
    ensures form { IfOk result (λ s. is_digest (string_bytes s) ≡ true) }
{
    let text = value.to_vec(alloc)?;
    let digest = Sha256::digest(text.as_slice());
    let text = hex_text(alloc, digest.as_slice())?;
    Ok(text)
}

fn hex_text(alloc: Global, bytes: &[u8]) -> Result<String, NoMemory>
    ensures text { IfOk result (λ s. string_bytes s ≡ encode_lower bytes.now) }
    ensures form { IfOk result (λ s. all_lower_hex (string_bytes s) ≡ true) }
{
    let text = hex::encode(alloc, bytes)?;
    Ok(text)
}

/// The text, where it is a digest.
pub(crate) fn read_digest(value: &Value) -> Option<&str>
    ensures { option_map (λ s. s.now) result ≡ text_of is_digest (view value.now) }
{
    let text = value.as_str()?;
    if is_digest(text.as_bytes()) {
        Some(text)
    } else {
        None
    }
}

fn is_digest(bytes: &[u8]) -> bool
    ensures { result ≡ is_digest bytes.now }
{
    bytes.len() == 64 && all_lower_hex(bytes)
}

fn all_lower_hex(bytes: &[u8]) -> bool
    ensures { result ≡ all_lower_hex bytes.now }
{
    for byte in bytes {
        if !is_lower_hex(*byte) {
            return false;
        }
    }
    true
}

fn is_lower_hex(byte: u8) -> bool
    ensures { result ≡ is_lower_hex byte }
{
    matches!(byte, b'0'..=b'9' | b'a'..=b'f')
}
