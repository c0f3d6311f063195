//! Objects of JSON, put together member by member.
ghost use Rattle.std.specs.Prelude.{◌≡◌, IfOk, OnOk, string_bytes, false};
ghost use Rattle.serde_json.specs.Data.{array, no_members, number, object, put as with, string, unsigned};
ghost use Rattle.serde_json.specs.View.{items_view, view};
ghost use Rattle.serde_json.specs.Written.{compact_text, has_float};
ghost use Rattle.library_model.specs.Bodies.{album_id_data, id_items, level_data};
ghost use Rattle.json_bodies.specs.Objects.{members_of, with_levels};

use db_table::peak_text;
use lib_base::{Memory, Summary};
use serde_json::{Map, Value, put};
use std::alloc::Global;

/// An object that is put together. Its members stand in the order of their keys, whatever the order
/// in which they are put. A key that is put again has the later value.
#[derive(Drop)]
pub(crate) struct Object {
    alloc: Global,
    members: Map<String, Value>,
}

impl Object {
    /// An object without members.
    pub(crate) fn new(alloc: Global) -> Object
        ensures { members_of result ≡ no_members }
    {
        Object {
            alloc,
            members: Map::new(alloc),
        }
    }

    /// Puts a number.
    pub(crate) fn number(&mut self, key: &str, value: u64) -> Result<(), Memory>
        ensures { OnOk result (members_of self.new ≡ with key.now (number (unsigned value)) (members_of self.old)) }
    {
        put(&mut self.members, self.alloc, key, Value::from(value))?;
        Ok(())
    }

    /// Puts a text.
    pub(crate) fn text(&mut self, key: &str, value: &str) -> Result<(), Memory>
        ensures { OnOk result (members_of self.new ≡ with key.now (string value.now) (members_of self.old)) }
    {
        let text = String::from_str(self.alloc, value)?;
        put(&mut self.members, self.alloc, key, Value::String(text))?;
        Ok(())
    }

    /// Puts the id of an album, or null.
    pub(crate) fn album(&mut self, key: &str, value: Option<u32>) -> Result<(), Memory>
        ensures { OnOk result (members_of self.new ≡ with key.now (album_id_data value) (members_of self.old)) }
    {
        put(&mut self.members, self.alloc, key, album_value(value))?;
        Ok(())
    }

    /// Puts ids.
    pub(crate) fn ids(&mut self, key: &str, value: &[u32]) -> Result<(), Memory>
        ensures { OnOk result (members_of self.new ≡ with key.now (array (id_items value.now)) (members_of self.old)) }
    {
        let ids = id_values(self.alloc, value)?;
        put(&mut self.members, self.alloc, key, Value::Array(ids))?;
        Ok(())
    }

    /// Puts the levels and the peak of a summary.
    pub(crate) fn levels(&mut self, summary: Summary) -> Result<(), Memory>
        ensures { OnOk result (members_of self.new ≡ with_levels summary (members_of self.old)) }
    {
        self.level("gain", summary.gain)?;
        self.level("loudness", summary.loudness)?;
        self.level("momentary", summary.momentary)?;
        self.text("peak", peak_text(self.alloc, summary.peak)?.as_str())?;
        self.level("range", summary.range)?;
        self.level("short", summary.short_term)?;
        self.level("true_peak", summary.true_peak)
    }

    /// Puts a level in hundredths, or null where it is absent.
    fn level(&mut self, key: &str, value: Option<i32>) -> Result<(), Memory>
        ensures { OnOk result (members_of self.new ≡ with key.now (level_data value) (members_of self.old)) }
    {
        put(&mut self.members, self.alloc, key, level_value(value))?;
        Ok(())
    }

    /// Its text, on one line.
    pub(crate) fn into_text(self) -> Result<String, Memory>
        requires { has_float (object (members_of self)) ≡ false }
        ensures { IfOk result (λ text. string_bytes text ≡ compact_text (object (members_of self))) }
    {
        let alloc = self.alloc;
        let text = Value::Object(self.members).to_string(alloc)?;
        Ok(text)
    }
}

/// A level in hundredths, or null where it is absent.
fn level_value(level: Option<i32>) -> Value
    ensures { view result ≡ level_data level }
{
    match level {
        Some(level) => Value::from(level),
        None => Value::Null,
    }
}

/// The id of an album, or null.
fn album_value(album: Option<u32>) -> Value
    ensures { view result ≡ album_id_data album }
{
    match album {
        Some(id) => Value::from(id),
        None => Value::Null,
    }
}

/// Ids as numbers.
fn id_values(alloc: Global, ids: &[u32]) -> Result<Vec<Value>, Memory>
    ensures { IfOk result (λ values. items_view values.items ≡ id_items ids.now) }
{
    let mut values = Vec::with_capacity(alloc, ids.len())?;
    for id in ids {
        values.push(Value::from(*id))?;
    }
    Ok(values)
}
