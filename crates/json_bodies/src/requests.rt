//! The bodies of requests.
ghost use Rattle.std.specs.Prelude.{◌≡◌, IfOk, codes, option_map, option_and_then};
ghost use Rattle.library_model.specs.Named as model;
ghost use Rattle.serde_json.specs.Find.{as_str};
ghost use Rattle.serde_json.specs.View.{view};

use crate::names::is_name;
use lib_base::{Memory, NUMBERS_END, Text};
use serde_json::Value;
use std::alloc::Global;

/// The name that a body gives: `A` of `{"name":"A"}`, and none of any other body.
pub fn read_name(alloc: Global, body: &[u8]) -> Result<Option<Text>, Memory>
    ensures { IfOk result (λ name. name ≡ model.name_in body.now) }
{
    match read_value(alloc, body)? {
        Some(value) => name_of(alloc, &value),
        None => Ok(None),
    }
}

/// The choice of an album that a body makes: `Some(n)` of `{"album":n}`, where an album may have the
/// id `n`, and `None` of `{"album":null}`. No other body makes one.
pub fn read_album(alloc: Global, body: &[u8]) -> Result<Option<Option<u32>>, Memory>
    ensures { IfOk result (λ album. album ≡ model.album_in body.now) }
{
    match read_value(alloc, body)? {
        Some(value) => Ok(album_of(&value)),
        None => Ok(None),
    }
}

/// The value of a body that is JSON.
fn read_value(alloc: Global, body: &[u8]) -> Result<Option<Value>, Memory>
    ensures { IfOk result (λ value. option_map view value ≡ model.data_in body.now) }
{
    match Value::from_slice(alloc, body) {
        Ok(value) => Ok(Some(value)),
        Err(error) => {
            if error.is_memory() {
                Err(Memory)
            } else {
                Ok(None)
            }
        }
    }
}

/// The value of a key in an object that has no other.
fn only<'a>(value: &'a Value, key: &str) -> Option<&'a Value>
    ensures { option_map (λ found. view found.now) result ≡ model.only key.now (view value.now) }
{
    let members = value.as_object()?;
    if members.len() == 1 {
        value.get(key)
    } else {
        None
    }
}

fn name_of(alloc: Global, value: &Value) -> Result<Option<Text>, Memory>
    ensures { IfOk result (λ name. name ≡ option_and_then model.if_name
        (option_and_then as_str (model.only (codes "name") (view value.now)))) }
{
    match only(value, "name") {
        Some(found) => text_of(alloc, found),
        None => Ok(None),
    }
}

fn text_of(alloc: Global, value: &Value) -> Result<Option<Text>, Memory>
    ensures { IfOk result (λ name. name ≡ option_and_then model.if_name (as_str (view value.now))) }
{
    match value.as_str() {
        Some(text) if is_name(text.as_bytes()) => Ok(Some(Text::of(String::from_str(
            alloc, text,
        )?))),
        _ => Ok(None),
    }
}

fn album_of(value: &Value) -> Option<Option<u32>>
    ensures { result ≡ option_and_then model.chosen (model.only (codes "album") (view value.now)) }
{
    chosen(only(value, "album")?)
}

fn chosen(value: &Value) -> Option<Option<u32>>
    ensures { result ≡ model.chosen (view value.now) }
{
    if value.is_null() {
        return Some(None);
    }
    let id = id_of(value.as_u64()?)?;
    Some(Some(id))
}

fn id_of(number: u64) -> Option<u32>
    ensures { result ≡ model.if_given number }
{
    if 1 <= number && number < u64::from(NUMBERS_END) {
        Some(number as u32)
    } else {
        None
    }
}
