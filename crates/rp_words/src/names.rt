//! Tables of names, in declared order.

ghost use Rattle.std.specs.Prelude.{◌≡◌, ◌<◌, ◌+◌, ◌∷◌, ◌++◌, [], false, length, map, position, string_bytes, IfSome, IfOk, IfErr, OnOk};
ghost use Rattle.std.specs.Str.{bytes_eq};
ghost use Rattle.std.specs.String.{string_eq};
ghost use Rattle.indexmap.specs.IndexMap.{values, index_map_len, IsUnique};
ghost use Rattle.indexmap.specs.IndexSet.{index_set_len};
ghost use Rattle.indexmap.specs.IndexSet as sets;
ghost use Rattle.rp_words.specs.Reading.{Gives, new_name_at};
ghost use Rattle.rp_words.specs.Tables.{is_declared, place_of, key_names, set_names};
ghost use Rattle.rp_words.specs.Words.{IsName, unread};

use crate::line_error::LineError;
use crate::words::Words;
use indexmap::{IndexMap, IndexSet};
use rp_base::DeckReason;
use std::alloc::Global;

/// Whether the table has the name.
pub fn map_has_name<V>(table: &IndexMap<String, V>, name: &str) -> bool
    ensures { result ≡ is_declared name.now (key_names table.now) }
{
    table.contains_key(name)
}

/// The place of the first of these that is the name. There are few names, so that to compare each
/// with it costs less than a hash of it.
fn first_equal(names: &[String], name: &str) -> Option<usize>
    ensures place { result
        ≡ position (λ other. bytes_eq name.now (string_bytes other)) names.now }
    ensures within { IfSome result (λ place. place < length names.now) }
{
    names.iter().position(|other| name == other.as_str())
}

/// The place of the name among these.
fn place_among(names: &[String], name: &str) -> Option<usize>
    ensures place { result ≡ place_of name.now (map (λ key. string_bytes key) names.now) }
    ensures within { IfSome result (λ place. place < length names.now) }
{
    first_equal(names, name)
}

/// The place of the name in the table.
pub fn map_index_of<V>(table: &IndexMap<String, V>, name: &str) -> Option<usize>
    ensures place { result ≡ place_of name.now (key_names table.now) }
    ensures within { IfSome result (λ place. place < index_map_len table.now) }
{
    place_among(table.keys().as_slice(), name)
}

/// The next word, a name that the table does not have.
#[tactic(auto, unfolding(crate::specs::Reading::new_name_at))]
pub fn take_name_new_to_map<'w, V>(
    words: &mut Words<'w>,
    table: &IndexMap<String, V>,
) -> Result<&'w str, DeckReason>
    ensures read { Gives (λ name. (name.now, unread words.new)) result
        (new_name_at (key_names table.now) (unread words.old)) }
    ensures name { IfOk result (λ name. IsName name.now) }
    ensures new { IfOk result (λ name. is_declared name.now (key_names table.now) ≡ false) }
{
    let name = words.take_name()?;
    if map_has_name(table, name) {
        return Err(DeckReason::DuplicateName);
    }
    Ok(name)
}

/// Adds a copy of a name that the table does not have.
pub fn insert_in_map<V: Drop>(
    alloc: Global,
    table: &mut IndexMap<String, V>,
    name: &str,
    value: V,
) -> Result<(), LineError>
    requires { is_declared name.now (key_names table.old) ≡ false }
    ensures names { OnOk result (key_names table.new ≡ key_names table.old ++ name.now ∷ []) }
    ensures values { OnOk result (values table.new ≡ values table.old ++ value ∷ []) }
    ensures len { OnOk result (index_map_len table.new ≡ index_map_len table.old + 1) }
    ensures unique { OnOk result (IsUnique string_eq table.new) }
    ensures memory { IfErr result (λ error. error ≡ LineError.OutOfMemory) }
{
    insert_string_in_map(table, String::from_str(alloc, name)?, value)
}

/// Adds a name that the table does not have, without a copy.
pub fn insert_string_in_map<V: Drop>(
    table: &mut IndexMap<String, V>,
    name: String,
    value: V,
) -> Result<(), LineError>
    requires { is_declared (string_bytes name) (key_names table.old) ≡ false }
    ensures names { OnOk result
        (key_names table.new ≡ key_names table.old ++ string_bytes name ∷ []) }
    ensures values { OnOk result (values table.new ≡ values table.old ++ value ∷ []) }
    ensures len { OnOk result (index_map_len table.new ≡ index_map_len table.old + 1) }
    ensures unique { OnOk result (IsUnique string_eq table.new) }
    ensures memory { IfErr result (λ error. error ≡ LineError.OutOfMemory) }
{
    table.insert(name, value)?;
    Ok(())
}

/// Whether the set has the name.
fn set_has_name(names: &IndexSet<String>, name: &str) -> bool
    ensures { result ≡ is_declared name.now (set_names names.now) }
{
    names.contains(name)
}

/// The place of the name in the set.
pub fn set_index_of(names: &IndexSet<String>, name: &str) -> Option<usize>
    ensures place { result ≡ place_of name.now (set_names names.now) }
    ensures within { IfSome result (λ place. place < index_set_len names.now) }
{
    place_among(names.as_slice(), name)
}

/// The next word, a name that the set does not have.
#[tactic(auto, unfolding(crate::specs::Reading::new_name_at))]
pub fn take_name_new_to_set<'w>(
    words: &mut Words<'w>,
    names: &IndexSet<String>,
) -> Result<&'w str, DeckReason>
    ensures read { Gives (λ name. (name.now, unread words.new)) result
        (new_name_at (set_names names.now) (unread words.old)) }
    ensures new { IfOk result (λ name. is_declared name.now (set_names names.now) ≡ false) }
{
    let name = words.take_name()?;
    if set_has_name(names, name) {
        return Err(DeckReason::DuplicateName);
    }
    Ok(name)
}

/// Adds a copy of a name that the set does not have.
pub fn insert_in_set(
    alloc: Global,
    names: &mut IndexSet<String>,
    name: &str,
) -> Result<(), LineError>
    requires { is_declared name.now (set_names names.old) ≡ false }
    ensures names { OnOk result (set_names names.new ≡ set_names names.old ++ name.now ∷ []) }
    ensures len { OnOk result (index_set_len names.new ≡ index_set_len names.old + 1) }
    ensures unique { OnOk result (sets.IsUnique string_eq names.new) }
    ensures memory { IfErr result (λ error. error ≡ LineError.OutOfMemory) }
{
    names.insert(String::from_str(alloc, name)?)?;
    Ok(())
}
