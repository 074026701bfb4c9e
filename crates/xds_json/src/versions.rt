// The versions that a client holds, by name.
ghost use Rattle.std.specs.Prelude.{◌≡◌, ◌≢◌, map, string_bytes, option_map, IfOk, IfErr, OnOk, OnErr};
ghost use Rattle.std.specs.FinMap as finmap;
ghost use Rattle.serde_json.specs.View.{view, members_view};
ghost use Rattle.xds_resource.specs.Fields.{field};
ghost use Rattle.xds_resource.specs.declared.refusal.Refusal.TheVariants.{OutOfMemory};
ghost use Rattle.xds_json.specs.Spelling.{Reads};
ghost use Rattle.xds_json.specs.Versions.{IsVersions, pairs_of, text_members, pairs_data, versions_data};

use crate::fields::set_field;
use serde_json::{Map, Value, put};
use std::alloc::Global;
use std::collections::BTreeMap;
use std::marker::Model;
use xds_resource::Refusal;

/// A version for each of some names, as a client tells which versions it holds.
pub struct Versions {
    entries: BTreeMap<String, String>,
}

// Written out: docs/PROVING.md, "Drops".
impl Drop for Versions {
    fn drop(self) {
        let Versions { entries: _ } = self;
    }
}

impl Model for Versions {
    ghost use Rattle.std.specs.Prelude.{T};
    ghost use Rattle.std.specs.FinMap as finmap;
    ghost use Rattle.xds_resource.specs.Writes.{text_cmp};
    ghost use Rattle.xds_json.specs.Versions.{VersionMap, version_map_code, pairs_of};

    ghost Value = { VersionMap };

    ghost coded = { version_map_code };

    ghost view = { λ v. finmap.from_sorted (pairs_of v.entries.entries) };

    ghost invariant = { λ v. T (finmap.is_sorted text_cmp (pairs_of v.entries.entries)) };
}

impl Versions {
    /// No version of any name.
    pub fn new(alloc: Global) -> Versions
        ensures { result ≡ finmap.empty }
    {
        Versions {
            entries: BTreeMap::new(alloc),
        }
    }

    /// The version of a name, if it has one.
    pub fn get(&self, name: &str) -> Option<&str>
        ensures { option_map (λ s. s.now) result ≡ finmap.get self.now name.now }
    {
        match self.entries.get(name) {
            Some(version) => Some(version.as_str()),
            None => None,
        }
    }

    /// Sets the version of a name, in place of one that it has. Refused only by `OutOfMemory`, with nothing changed.
    pub fn insert(&mut self, alloc: Global, name: &str, version: &str) -> Result<(), Refusal>
        ensures ok { OnOk result (self.new ≡ finmap.insert self.old name.now version.now) }
        ensures err { OnErr result (self.new ≡ self.old) }
        ensures refused { IfErr result (λ e. e ≡ OutOfMemory) }
    {
        let name = String::from_str(alloc, name)?;
        let version = String::from_str(alloc, version)?;
        drop(self.entries.insert(name, version)?);
        Ok(())
    }

    /// The names, each with its version, in ascending order of names. Refused only by `OutOfMemory`.
    pub fn pairs(&self, alloc: Global) -> Result<Vec<(&str, &str)>, Refusal>
        ensures ok { IfOk result
            (λ v. map (λ p. (p.0.now, p.1.now)) v.items ≡ finmap.entries self.now) }
        ensures refused { IfErr result (λ e. e ≡ OutOfMemory) }
    {
        let mut pairs = Vec::new(alloc);
        for (name, version) in self.entries.iter() {
            pairs.push((name.as_str(), version.as_str()))?;
        }
        Ok(pairs)
    }

    /// Equal versions. Refused only by `OutOfMemory`.
    pub fn try_copy(&self) -> Result<Versions, Refusal>
        ensures ok { IfOk result (λ v. v ≡ self.now) }
        ensures refused { IfErr result (λ e. e ≡ OutOfMemory) }
    {
        Ok(Versions {
            entries: self.entries.clone()?,
        })
    }

    /// The object of the versions, and none where there is no version. Refused only by `OutOfMemory`.
    pub fn to_value(&self, alloc: Global) -> Result<Option<Value>, Refusal>
        ensures ok { IfOk result (λ v. option_map view v ≡ versions_data self.now) }
        ensures refused { IfErr result (λ e. e ≡ OutOfMemory) }
    {
        if self.entries.is_empty() {
            return Ok(None);
        }
        Ok(Some(Value::Object(members_of(alloc, &self.entries)?)))
    }
}

fn members_of(
    alloc: Global,
    entries: &BTreeMap<String, String>,
) -> Result<Map<String, Value>, Refusal>
    ensures ok { IfOk result
        (λ m. members_view m.entries ≡ text_members (pairs_of entries.now.entries)) }
    ensures refused { IfErr result (λ e. e ≡ OutOfMemory) }
{
    let mut members = Map::new(alloc);
    for (name, version) in entries.iter() {
        let value = Value::try_from_str(alloc, version.as_str())?;
        put(&mut members, alloc, name.as_str(), value)?;
    }
    Ok(members)
}

/// A field that is an object whose values are texts, with no version where nothing is set. Refused by `BadMessage`
/// where it is set to anything else, and by `OutOfMemory`.
pub fn versions_field(
    alloc: Global,
    value: &Value,
    camel: &str,
    proto: &str,
) -> Result<Versions, Refusal>
    ensures { Reads (IsVersions (field camel.now proto.now (view value.now))) (λ v. v) result }
{
    match set_field(value, camel, proto) {
        Some(found) => match found.as_object() {
            Some(members) => versions_of(alloc, members),
            None => Err(Refusal::BadMessage),
        },
        None => Ok(Versions::new(alloc)),
    }
}

fn versions_of(alloc: Global, members: &Map<String, Value>) -> Result<Versions, Refusal>
    ensures { Reads
        (λ m. members_view members.now.entries ≡ text_members (finmap.entries m)) (λ v. v) result }
{
    let mut versions = Versions::new(alloc);
    for (name, version) in members.iter() {
        let Some(text) = version.as_str() else {
            return Err(Refusal::BadMessage);
        };
        versions.insert(alloc, name.as_str(), text)?;
    }
    Ok(versions)
}
