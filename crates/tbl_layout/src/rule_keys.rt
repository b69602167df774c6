//! Rule keys of a format: each rules its column, whatever stands in its field (Lesk, "Tbl":
//! Format).

ghost use Rattle.std.specs.Prelude.{◌≡◌, ℕ, ◌≤◌, get_or, length, List};
ghost use Rattle.tbl_format.specs.Format.{FormatRow};
ghost use Rattle.tbl_layout.specs.KeptEntries.{all_entries, no_entry};
ghost use Rattle.tbl_layout.specs.RuleKeys.{is_rule_row, kind_of_key, rule_sign};
ghost use Rattle.tbl_layout.specs.declared.entry.Entry.{Entry};

use crate::data_lines::{FieldKind, RuleSign};
use crate::entry::{Entry, EntryKind};
use tbl_format::cells::columns_of;
use tbl_format::format::{FormatKey, Key};

/// How the rule of a key is drawn, if it is a rule key.
pub fn rule_sign(key: Key) -> Option<RuleSign>
    ensures { result ≡ rule_sign key }
{
    match key {
        Key::Rule => Some(RuleSign::Single),
        Key::DoubleRule => Some(RuleSign::Double),
        Key::Left => None,
        Key::Right => None,
        Key::Center => None,
        Key::Numeric => None,
        Key::WideNumeric => None,
        Key::Alphabetic => None,
        Key::Spanned => None,
        Key::Above => None,
    }
}

/// What the fields of a key's cells are, whatever stands in them, if the key says so.
pub fn kind_of_key(key: Key) -> Option<FieldKind>
    ensures { result ≡ kind_of_key key }
{
    match key {
        Key::Rule => Some(FieldKind::Ruled(RuleSign::Single)),
        Key::DoubleRule => Some(FieldKind::Ruled(RuleSign::Double)),
        Key::Above => Some(FieldKind::Above),
        Key::Left => None,
        Key::Right => None,
        Key::Center => None,
        Key::Numeric => None,
        Key::WideNumeric => None,
        Key::Alphabetic => None,
        Key::Spanned => None,
    }
}

/// Whether all of a row's keys are rule keys, `s` among them not.
pub fn is_rule_row(keys: &[FormatKey]) -> bool
    ensures { (bars : ℕ) → result ≡ is_rule_row (record { keys = keys.now; bars = bars }) }
{
    for key in keys {
        if rule_sign(key.key).is_none() {
            return false;
        }
    }
    columns_of(keys) == keys.len()
}

/// How many columns a row fills that has so many fields, under its keys: behind the last field
/// rule keys rule their cells still, and `^` goes on with the cells above.
pub fn filled_columns(keys: &[FormatKey], given: usize) -> usize
    ensures { (bars : ℕ) (entries : List Entry) → length entries ≡ given → result
        ≡ length (all_entries (record { keys = keys.now; bars = bars }) entries) }
{
    let mut count = keys.len();
    while count > given {
        let last = count - 1;
        if kind_of_key(keys[last].key).is_some() {
            return count;
        }
        count = last;
    }
    given
}

/// What stands in a column of a row with these fields, under its keys.
// It is called for each cell.
#[inline(always)]
pub fn entry_at(keys: &[FormatKey], entries: &[Entry], at: usize) -> Entry
    ensures { (bars : ℕ) → result
        ≡ get_or (all_entries (record { keys = keys.now; bars = bars }) entries.now) at no_entry }
{
    if at < entries.len() {
        entries[at]
    } else {
        entry_behind(keys, at)
    }
}

/// What stands in a column of a row with these keys behind the last field: the rule of its key, if
/// it is a rule key, and else nothing.
// Such a row is rare.
#[inline(never)]
fn entry_behind(keys: &[FormatKey], at: usize) -> Entry
    ensures { (bars : ℕ) (entries : List Entry) → length entries ≤ at → result
        ≡ get_or (all_entries (record { keys = keys.now; bars = bars }) entries) at no_entry }
{
    match keys.get(at) {
        Some(key) => Entry::under(key.key),
        None => Entry::NOTHING,
    }
}
