ghost use Rattle.std.specs.Prelude.{◌≡◌, ◌≤◌, Some, IfOk, option_map};
ghost use Rattle.toml.specs.View.{view, table_view};
ghost use Rattle.rd_conf.specs.Rows.{value_at, integer_of, integer_or, required_integer, dialect_or_line, address_or_none, is_address};
ghost use Rattle.rd_conf.specs.Answers.{IsAnswer};

use crate::key::Key;
use crate::settings::{DialectName, SettingsFail};
use rd_base::Bytes;
use std::alloc::Global;
use toml::{Table, Value};

/// What stands under a key of a table.
pub fn value_at<'a>(table: &'a Table, key: Key) -> Option<&'a Value>
    ensures { option_map (λ v. view v.now) result ≡ value_at key (table_view table.now) }
{
    table.get(key.word())
}

/// The whole number under a key, from `least` to `most`; `default` where the key is absent.
pub fn integer_or(
    table: &Table,
    key: Key,
    least: u64,
    most: u64,
    default: u64,
) -> Result<u64, SettingsFail>
    requires least { least ≤ default }
    requires most { default ≤ most }
    ensures row { result ≡ integer_or default key least most
        (value_at key (table_view table.now)) }
    ensures least { IfOk result (λ n. least ≤ n) }
    ensures most { IfOk result (λ n. n ≤ most) }
{
    match value_at(table, key) {
        None => Ok(default),
        Some(value) => integer_of(value, key, least, most),
    }
}

/// The whole number under a key that has to be there, from `least` to `most`.
pub fn required_integer(table: &Table, key: Key, least: u64, most: u64) -> Result<u64, SettingsFail>
    ensures { result ≡ required_integer key least most (value_at key (table_view table.now)) }
{
    match value_at(table, key) {
        None => Err(SettingsFail::Missing(key)),
        Some(value) => integer_of(value, key, least, most),
    }
}

fn integer_of(value: &Value, key: Key, least: u64, most: u64) -> Result<u64, SettingsFail>
    ensures row { result ≡ integer_of key least most (view value.now) }
    ensures least { IfOk result (λ n. least ≤ n) }
    ensures most { IfOk result (λ n. n ≤ most) }
{
    let Some(number) = value.as_integer() else {
        return Err(SettingsFail::WrongKind(key));
    };
    if number < 0 {
        return Err(SettingsFail::OutOfRange(key));
    }
    let number = number as u64;
    if number < least || number > most {
        return Err(SettingsFail::OutOfRange(key));
    }
    Ok(number)
}

/// The dialect under a key: plain lines where the key is absent.
pub fn dialect_or_line(table: &Table, key: Key) -> Result<DialectName, SettingsFail>
    ensures { result ≡ dialect_or_line key (value_at key (table_view table.now)) }
{
    match value_at(table, key) {
        None => Ok(DialectName::Line),
        Some(value) => dialect_of(value, key),
    }
}

fn dialect_of(value: &Value, key: Key) -> Result<DialectName, SettingsFail>
    ensures { result ≡ dialect_or_line key (Some (view value.now)) }
{
    match value.as_str() {
        None => Err(SettingsFail::WrongKind(key)),
        Some("line") => Ok(DialectName::Line),
        Some("http") => Ok(DialectName::Http),
        Some("pg") => Ok(DialectName::Pg),
        Some(_) => Err(SettingsFail::OutOfRange(key)),
    }
}

/// The text under a key, of 1 to 255 bytes; none where the key is absent.
pub fn address_or_none(alloc: Global, table: &Table, key: Key) -> Result<Bytes, SettingsFail>
    ensures { IsAnswer result (address_or_none key (value_at key (table_view table.now))) }
{
    match value_at(table, key) {
        None => Ok(Bytes::new(alloc)),
        Some(value) => address_of(alloc, value, key),
    }
}

fn address_of(alloc: Global, value: &Value, key: Key) -> Result<Bytes, SettingsFail>
    ensures { IsAnswer result (address_or_none key (Some (view value.now))) }
{
    let Some(text) = value.as_str() else {
        return Err(SettingsFail::WrongKind(key));
    };
    if !is_address(text) {
        return Err(SettingsFail::OutOfRange(key));
    }
    Ok(Bytes::from_slice(alloc, text.as_bytes())?)
}

/// Whether the text has 1 to 255 bytes.
pub fn is_address(text: &str) -> bool
    ensures { result ≡ is_address text.now }
{
    text.len() >= 1 && text.len() <= 255
}
