// Saved texts, read.
ghost use Rattle.std.specs.Prelude.{◌≡◌, ℕ, List, bytes_eq, false, Some, IfOk, IfErr, IfSome, option_map};
ghost use Rattle.serde_json.specs.View.{view};
ghost use Rattle.serde_json.specs.Written.{compact_text, has_float};
ghost use Rattle.saved_state.specs.Contents.{body_of, contents_of, saved_of};
ghost use Rattle.saved_state.specs.Digest.{hex_digest};
ghost use Rattle.saved_state.specs.Reading.{NotReadFor, Reads, Restores};
ghost use Rattle.saved_state.specs.Texts.{IsJson};

use crate::acts::acts;
use crate::body::{SavedBody, read_body};
use crate::digest::{digest_text, read_digest};
use crate::fault::SavedFault;
use crate::saved::Saved;
use json_form::{is_end, next_named};
use net_types::NoMemory;
use serde_json::Value;
use state_update::{BuildFault, build};
use std::alloc::Global;

fn parse(alloc: Global, bytes: &[u8]) -> Result<Value, SavedFault>
    ensures ok { IfOk result (λ v. IsJson bytes.now (view v)) }
    ensures err { IfErr result (λ e. NotReadFor bytes.now e) }
{
    match Value::from_slice(alloc, bytes) {
        Ok(value) => Ok(value),
        Err(error) if error.is_memory() => Err(SavedFault::NoMemory),
        Err(_) => Err(SavedFault::NotJson),
    }
}

// A body with its own value, and the digest that stands beside it.
type Shape<'v> = (SavedBody, &'v Value, &'v str);

fn read_shape<'v>(alloc: Global, value: &'v Value) -> Result<Option<Shape<'v>>, NoMemory>
    ensures shape { IfOk result (λ o. option_map (λ s. (s.0, (s.2.now, tt))) o ≡ saved_of (view value.now)) }
    ensures body { IfOk result (λ o. IfSome o (λ s. body_of (view s.1.now) ≡ Some s.0)) }
{
    let Some(map) = value.as_object() else {
        return Ok(None);
    };
    let mut members = map.iter();
    let Some(inner) = next_named(&mut members, "body") else {
        return Ok(None);
    };
    let Some(body) = read_body(alloc, inner)? else {
        return Ok(None);
    };
    let Some(digest) = next_named(&mut members, "digest") else {
        return Ok(None);
    };
    let Some(digest) = read_digest(digest) else {
        return Ok(None);
    };
    if !is_end(&mut members) {
        return Ok(None);
    }
    Ok(Some((body, inner, digest)))
}

// Whether the value has that digest.
fn has_digest(alloc: Global, value: &Value, digest: &str) -> Result<bool, NoMemory>
    requires { has_float (view value.now) ≡ false }
    ensures { IfOk result (λ b. b ≡ bytes_eq digest.now (hex_digest (compact_text (view value.now)))) }
{
    let text = digest_text(alloc, value)?;
    Ok(digest == text.as_str())
}

// The state that is built of the body, with the tables beside it.
fn restore(alloc: Global, body: SavedBody) -> Result<Saved, SavedFault>
    ensures { Restores (contents_of body) result }
{
    let SavedBody {
        caps,
        tables,
        lists,
        version,
    } = body;
    let acts = acts(alloc, lists)?;
    match build(alloc, version, &acts) {
        Ok(state) => Ok(Saved {
            caps,
            state,
            tables,
        }),
        Err(BuildFault::Invalid { reason, .. }) => Err(SavedFault::BadState(reason)),
        Err(BuildFault::NoMemory) => Err(SavedFault::NoMemory),
    }
}

// What a value says, or the first of the tests behind the first that it fails.
fn read_value(alloc: Global, value: &Value) -> Result<Saved, SavedFault>
    ensures { (bytes : List ℕ) → IsJson bytes (view value.now) → Reads bytes result }
{
    let Some((body, inner, digest)) = read_shape(alloc, value)? else {
        return Err(SavedFault::BadShape);
    };
    if has_digest(alloc, inner, digest)? {
        restore(alloc, body)
    } else {
        drop(body);
        Err(SavedFault::BadDigest)
    }
}

/// What a saved text says, or the first test that it fails. The state has every node and every entry made at the
/// saved version, and no FIB.
pub fn read_saved(alloc: Global, bytes: &[u8]) -> Result<Saved, SavedFault>
    ensures { Reads bytes.now result }
{
    match parse(alloc, bytes) {
        Ok(value) => {
            let answer = read_value(alloc, &value);
            drop(value);
            answer
        }
        Err(fault) => Err(fault),
    }
}
