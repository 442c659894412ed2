//! The values at a design text's keys.
ghost use Rattle.std.specs.Prelude.{◌≡◌, ◌↔◌, ◌<◌, ◌+◌, Some, None, IfOk, IfErr, IsTrue, IfSome, map, string_bytes, slice_get, slice_index_or};
ghost use Rattle.std.specs.List.{list_any, list_all};
ghost use Rattle.std.specs.Option.{option_map};
ghost use Rattle.std.specs.Str.{bytes_eq};
ghost use Rattle.std.specs.BTreeMap.{keys};
ghost use Rattle.toml.specs.View.{view, table_view};
ghost use Rattle.qp_model.specs.problem.Range.{LiesIn};
ghost use Rattle.qp_model.specs.problem.Rules.{Tests};
ghost use Rattle.design_files.specs.Document.{table_at, standing};
ghost use Rattle.design_files.specs.Values.{values_of, places, in_order, keys_stand, HasOnly, further_keys};
ghost use Rattle.design_files.specs.Keys.{found, seen};
ghost use Rattle.design_files.specs.Numbers.{number_in};
ghost use Rattle.design_files.specs.AskedText.{is_three};
ghost use Rattle.design_files.specs.Places.{key_rules};
ghost use Rattle.design_files.specs.DesignText.{Reads};

use number_text::TextFault;
use toml::{Table, Value};

/// The table and the key of each place; the first four stand at the top.
static PLACES: [(Option<&str>, &str); 21] = [
    (None, "version"),
    (None, "states"),
    (None, "inputs"),
    (None, "stages"),
    (Some("plant"), "den"),
    (Some("plant"), "a"),
    (Some("plant"), "b"),
    (Some("cost"), "den"),
    (Some("cost"), "row_den"),
    (Some("cost"), "input"),
    (Some("cost"), "stage"),
    (Some("cost"), "final"),
    (Some("limits"), "den"),
    (Some("limits"), "stage"),
    (Some("limits"), "final"),
    (Some("box"), "grid"),
    (Some("box"), "lo"),
    (Some("box"), "hi"),
    (Some("targets"), "den"),
    (Some("targets"), "violation"),
    (Some("targets"), "gap"),
];

/// The values at a design text's keys, in the order of the places.
#[derive(Clone, Copy)]
pub struct Keys<'a> {
    values: [&'a Value; 21],
}

impl<'a> Keys<'a> {
    /// The value at a place, from 1.
    pub fn at(&self, place: u32) -> &'a Value
        requires { LiesIn 1 21 place }
        ensures { found self.now place ≡ Some (view result.now) }
    {
        let values = &self.values[..];
        values[place as usize - 1]
    }

    /// Whether the value at the version is 3.
    pub fn is_fast(&self) -> bool
        ensures { result ≡ is_three (number_in (found self.now 1)) }
    {
        match self.at(1).as_integer() {
            Some(version) => version == 3,
            None => false,
        }
    }

    /// The same with another value at the version.
    pub fn with_version(&self, value: &'a Value) -> Keys<'a>
        ensures { seen result ≡ record (seen self.now) { version = Some (view value.now) } }
    {
        let mut values = self.values;
        values[0] = value;
        Keys { values }
    }
}

/// The values at all keys, where all stand there and no further one.
pub fn find_keys(document: &Table) -> Result<Keys<'_>, TextFault>
    ensures { Reads result (λ keys. values_of (table_view document.now) ≡ seen keys) (key_rules (table_view document.now)) }
{
    let keys = find_places(document)?;
    refuse_further_keys(document)?;
    Ok(keys)
}

// The same, whatever further keys there are.
fn find_places(document: &Table) -> Result<Keys<'_>, TextFault>
    ensures { let seen_there = table_view document.now in Reads result (λ keys. values_of seen_there ≡ seen keys) (keys_stand 1 (in_order seen_there)) }
{
    let mut values = [find_value(document, 0)?; 21];
    for i in 0..21 {
        values[i] = find_value(document, i)?;
    }
    Ok(Keys { values })
}

// The table and the key of a place, from 0.
fn place_at(i: usize) -> (Option<&'static str>, &'static str)
    requires { i < 21 }
    ensures { slice_get places i ≡ Some (option_map (λ name. name.now) result.0, result.1.now) }
{
    PLACES[i]
}

// The value at the key of a place, from 0.
fn find_value(document: &Table, i: usize) -> Result<&Value, TextFault>
    requires { i < 21 }
    ensures ok { IfOk result (λ value. slice_index_or (in_order (table_view document.now)) i None ≡ Some (view value.now)) }
    ensures err { IfErr result (λ fault. (fault ≡ TextFault.Key (i + 1)) × (slice_index_or (in_order (table_view document.now)) i None ≡ None)) }
{
    let (name, key) = place_at(i);
    match value_at(document, name, key) {
        Some(value) => Ok(value),
        None => Err(TextFault::Key {
            place: i as u32 + 1,
        }),
    }
}

// What stands at a key of the table of a name, or at the top where there is none.
fn value_at<'a>(document: &'a Table, name: Option<&str>, key: &str) -> Option<&'a Value>
    ensures { option_map (λ value. view value.now) result ≡ standing (option_map (λ name. name.now) name.entry) key.now (table_view document.now) }
{
    match name {
        Some(name) => table_at(document, name)?.get(key),
        None => document.get(key),
    }
}

// The table of a name.
fn table_at<'a>(document: &'a Table, name: &str) -> Option<&'a Table>
    ensures { option_map (λ table. table_view table.now) result ≡ table_at name.now (table_view document.now) }
{
    match document.get(name) {
        Some(value) => value.as_table(),
        None => None,
    }
}

// The keys of each table.
const TOP: &[&str] = &[
    "version", "states", "inputs", "stages", "plant", "cost", "limits", "box", "targets",
];

const PLANT: &[&str] = &["den", "a", "b"];

const COST: &[&str] = &["den", "row_den", "input", "stage", "final"];

const LIMITS: &[&str] = &["den", "stage", "final"];

const BOX: &[&str] = &["grid", "lo", "hi"];

const TARGETS: &[&str] = &["den", "violation", "gap"];

// The fault where a further key stands at the top, or in one of the tables.
fn refuse_further_keys(document: &Table) -> Result<(), TextFault>
    ensures { Tests result (further_keys (table_view document.now)) }
{
    let only_known = has_only(document, TOP)
        & table_has_only(document, "plant", PLANT)
        & table_has_only(document, "cost", COST)
        & table_has_only(document, "limits", LIMITS)
        & table_has_only(document, "box", BOX)
        & table_has_only(document, "targets", TARGETS);
    if only_known {
        Ok(())
    } else {
        Err(TextFault::Key { place: 0 })
    }
}

// Whether each key of the table of a name, where there is one, is one of these.
fn table_has_only(document: &Table, name: &str, names: &[&str]) -> bool
    ensures { IsTrue result ↔ IfSome (table_at name.now (table_view document.now)) (HasOnly (map (λ name. name.now) names.now)) }
{
    match table_at(document, name) {
        Some(table) => has_only(table, names),
        None => true,
    }
}

// Whether each key of a table is one of these.
fn has_only(table: &Table, names: &[&str]) -> bool
    ensures { IsTrue result ↔ HasOnly (map (λ name. name.now) names.now) (table_view table.now) }
{
    are_names(table, names)
}

fn are_names(table: &Table, names: &[&str]) -> bool
    ensures { result ≡ list_all (λ key. list_any (λ name. bytes_eq name.now (string_bytes key)) names.now) (keys table.now) }
{
    table.keys().all(|key| is_one_of(key.as_str(), names))
}

fn is_one_of(key: &str, names: &[&str]) -> bool
    ensures { result ≡ list_any (λ name. bytes_eq name.now key.now) names.now }
{
    names.iter().any(|name| *name == key)
}
