//! The keys of a table.

ghost use Rattle.std.specs.Prelude.{◌≡◌, ◌≤◌, string_bytes, vec_len, IfOk, IfSome};
ghost use Rattle.std.specs.BTreeMap.{keys};
ghost use Rattle.std.specs.List.{list_all};
ghost use Rattle.toml.specs.View.{view, table_view, array_view};
ghost use Rattle.hmc_text.specs.Reading.{Gives};
ghost use Rattle.hmc_case.specs.Keys.{is_net_key, is_common_cube_key, is_cube_key, is_end_key, is_common_link_key, is_link_key, is_key, known_keys, table_of, among, value_at, number_at, text_at, count_of, items_at, profile_numbered, profile_at};

use crate::CaseKind;
use hmc_codes::Profile;
use toml::value::Array;
use toml::{Table, Value};

/// A table of a case. That of a cube or of a link has further keys in a case of profile 2.
#[derive(Clone, Copy)]
pub enum Part {
    Top,
    Cube(Profile),
    Link(Profile),
}

// The number, if it is least to most.
fn among(least: u16, most: u16, number: i64) -> Option<u16>
    ensures value { result ≡ among least most number }
    ensures least { IfSome result (λ n. least ≤ n) }
    ensures most { IfSome result (λ n. n ≤ most) }
{
    if i64::from(least) <= number && number <= i64::from(most) {
        Some(number as u16)
    } else {
        None
    }
}

// The value at the key.
fn value_at<'a>(key: &str, table: &'a Table) -> Result<&'a Value, CaseKind>
    ensures { Gives (λ value. view value.now) result (value_at key.now (table_view table.now)) }
{
    match table.get(key) {
        Some(value) => Ok(value),
        None => Err(CaseKind::Missing),
    }
}

/// The integer at the key, which is `least` to `most`.
#[tactic(auto, unfolding(crate::specs::Keys::number_at))]
pub fn number_at(key: &str, least: u16, most: u16, table: &Table) -> Result<u16, CaseKind>
    ensures value { result ≡ number_at key.now least most (table_view table.now) }
    ensures least { IfOk result (λ n. least ≤ n) }
    ensures most { IfOk result (λ n. n ≤ most) }
{
    let value = value_at(key, table)?;
    let Some(number) = value.as_integer() else {
        return Err(CaseKind::Kind);
    };
    let Some(number) = among(least, most, number) else {
        return Err(CaseKind::Range);
    };
    Ok(number)
}

/// The string at the key.
#[tactic(auto, unfolding(crate::specs::Keys::text_at))]
pub fn text_at<'a>(key: &str, table: &'a Table) -> Result<&'a str, CaseKind>
    ensures { Gives (λ text. text.now) result (text_at key.now (table_view table.now)) }
{
    let value = value_at(key, table)?;
    match value.as_str() {
        Some(text) => Ok(text),
        None => Err(CaseKind::Kind),
    }
}

fn is_net_key(key: &str) -> bool
    ensures { result ≡ is_net_key key.now }
{
    matches!(key, "profile" | "cubes" | "links")
}

fn is_top_key(key: &str) -> bool
    ensures { result ≡ is_key Part.Top key.now }
{
    is_net_key(key) || matches!(key, "script" | "schedule")
}

fn is_common_cube_key(key: &str) -> bool
    ensures { result ≡ is_common_cube_key key.now }
{
    matches!(key, "vault_bits" | "bank_bits" | "rows" | "queue")
}

fn is_cube_key(profile: Profile, key: &str) -> bool
    ensures { result ≡ is_cube_key profile key.now }
{
    match profile {
        Profile::One => is_common_cube_key(key),
        Profile::Two => is_common_cube_key(key) || key == "block",
    }
}

fn is_end_key(key: &str) -> bool
    ensures { result ≡ is_end_key key.now }
{
    matches!(key, "a" | "b")
}

fn is_common_link_key(key: &str) -> bool
    ensures { result ≡ is_common_link_key key.now }
{
    is_end_key(key) || matches!(key, "line" | "tokens" | "retry" | "output")
}

fn is_link_key(profile: Profile, key: &str) -> bool
    ensures { result ≡ is_link_key profile key.now }
{
    match profile {
        Profile::One => is_common_link_key(key),
        Profile::Two => is_common_link_key(key) || key == "profile",
    }
}

// Whether the table of this part may have the key.
fn is_key(part: Part, key: &str) -> bool
    ensures { result ≡ is_key part key.now }
{
    match part {
        Part::Top => is_top_key(key),
        Part::Cube(profile) => is_cube_key(profile, key),
        Part::Link(profile) => is_link_key(profile, key),
    }
}

// Whether each key of the table is one of its part.
fn has_only_keys(part: Part, table: &Table) -> bool
    ensures { result ≡ list_all (λ key. is_key part (string_bytes key)) (keys table.now) }
{
    table.keys().all(|key| is_key(part, key.as_str()))
}

/// The fault `Unknown` exactly where the table has a key that isn't one of its part.
pub fn known_keys(part: Part, table: &Table) -> Result<(), CaseKind>
    ensures { result ≡ known_keys part (table_view table.now) }
{
    if has_only_keys(part, table) {
        Ok(())
    } else {
        Err(CaseKind::Unknown)
    }
}

/// A table without unknown keys.
#[tactic(auto, unfolding(crate::specs::Keys::table_of))]
pub fn table_of(part: Part, value: &Value) -> Result<&Table, CaseKind>
    ensures { Gives (λ table. table_view table.now) result (table_of part (view value.now)) }
{
    let Some(table) = value.as_table() else {
        return Err(CaseKind::Kind);
    };
    known_keys(part, table)?;
    Ok(table)
}

// The number of items.
fn count_of(items: &Array) -> usize
    ensures value { result ≡ count_of (array_view items.now) }
    ensures length { result ≡ vec_len items.now }
{
    items.len()
}

/// The array at the key, which has 1 to `most` items.
#[tactic(auto, unfolding(crate::specs::Keys::items_at))]
pub fn items_at<'a>(key: &str, most: usize, table: &'a Table) -> Result<&'a Array, CaseKind>
    ensures value { Gives (λ items. array_view items.now) result
        (items_at key.now most (table_view table.now)) }
    ensures some { IfOk result (λ items. 1 ≤ vec_len items.now) }
    ensures few { IfOk result (λ items. vec_len items.now ≤ most) }
{
    let value = value_at(key, table)?;
    let Some(items) = value.as_array() else {
        return Err(CaseKind::Kind);
    };
    let count = count_of(items);
    if count < 1 || most < count {
        return Err(CaseKind::Range);
    }
    Ok(items)
}

// The profile with this number: 1 or 2.
fn profile_numbered(number: u16) -> Profile
    ensures { result ≡ profile_numbered number }
{
    if number == 2 {
        Profile::Two
    } else {
        Profile::One
    }
}

/// The profile at the key.
#[tactic(auto, unfolding(crate::specs::Keys::profile_at))]
pub fn profile_at(table: &Table) -> Result<Profile, CaseKind>
    ensures { result ≡ profile_at (table_view table.now) }
{
    let number = number_at("profile", 1, 2, table)?;
    Ok(profile_numbered(number))
}
