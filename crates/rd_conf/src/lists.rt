ghost use Rattle.std.specs.Prelude.{◌≡◌, Some, IfOk, true};
ghost use Rattle.rd_conf.specs.Ports.{is_none_or_each};
ghost use Rattle.toml.specs.View.{view, items_view, table_view};
ghost use Rattle.rd_conf.specs.Answers.{IsAnswer};
ghost use Rattle.rd_conf.specs.Rows.{value_at};
ghost use Rattle.rd_conf.specs.Lists.{texts_if, texts_of, are_texts, are_names, are_free_names, are_addresses, are_addresses_or_none};

use crate::key::Key;
use crate::rows::value_at;
use crate::settings::SettingsFail;
use crate::texts::{are_addresses, are_free_names, are_names, names_of, texts_in, words_of};
use rd_base::{Names, Words};
use std::alloc::Global;
use toml::{Table, Value};

/// The names under a key, at most 32, each of 1 to 64 bytes; none where the key is absent.
pub fn names_or_none(alloc: Global, table: &Table, key: Key) -> Result<Names, SettingsFail>
    ensures { IsAnswer result (texts_if key are_names (value_at key (table_view table.now))) }
{
    match value_at(table, key) {
        None => Ok(Names::new(alloc)),
        Some(value) => names_under(alloc, value, key),
    }
}

fn names_under(alloc: Global, value: &Value, key: Key) -> Result<Names, SettingsFail>
    ensures { IsAnswer result (texts_if key are_names (Some (view value.now))) }
{
    let items = texts_in(value, key)?;
    if !are_names(items) {
        return Err(SettingsFail::OutOfRange(key));
    }
    Ok(names_of(alloc, items)?)
}

/// The names of values that give no token. None of them is a firm name.
pub fn free_names_or_none(alloc: Global, table: &Table, firm: &Names) -> Result<Names, SettingsFail>
    ensures { IsAnswer result
        (texts_if Key.FreeNames (are_free_names firm.now)
        (value_at Key.FreeNames (table_view table.now))) }
{
    match value_at(table, Key::FreeNames) {
        None => Ok(Names::new(alloc)),
        Some(value) => free_names_under(alloc, value, firm),
    }
}

fn free_names_under(alloc: Global, value: &Value, firm: &Names) -> Result<Names, SettingsFail>
    ensures { IsAnswer result
        (texts_if Key.FreeNames (are_free_names firm.now) (Some (view value.now))) }
{
    let items = texts_in(value, Key::FreeNames)?;
    if !are_free_names(firm, items) {
        return Err(SettingsFail::OutOfRange(Key::FreeNames));
    }
    Ok(names_of(alloc, items)?)
}

/// Where the instances are, one for each copy; none where the key is absent.
pub fn instances_or_none(alloc: Global, table: &Table, copies: u8) -> Result<Words, SettingsFail>
    ensures row { IsAnswer result
        (texts_if Key.PortsInstances (are_addresses copies)
        (value_at Key.PortsInstances (table_view table.now))) }
    ensures count { IfOk result (λ words. is_none_or_each copies words ≡ true) }
{
    match value_at(table, Key::PortsInstances) {
        None => Ok(Words::new(alloc)),
        Some(value) => instances_under(alloc, value, copies),
    }
}

fn instances_under(alloc: Global, value: &Value, copies: u8) -> Result<Words, SettingsFail>
    ensures row { IsAnswer result
        (texts_if Key.PortsInstances (are_addresses copies) (Some (view value.now))) }
    ensures count { IfOk result (λ words. is_none_or_each copies words ≡ true) }
{
    let items = texts_in(value, Key::PortsInstances)?;
    if !are_addresses(copies, items) {
        return Err(SettingsFail::OutOfRange(Key::PortsInstances));
    }
    Ok(words_of(alloc, items)?)
}

/// Where the callers are listened for, one for each copy, or none.
pub fn callers_or_none(alloc: Global, table: &Table, copies: u8) -> Result<Words, SettingsFail>
    ensures row { IsAnswer result
        (texts_if Key.PortsCallers (are_addresses_or_none copies)
        (value_at Key.PortsCallers (table_view table.now))) }
    ensures count { IfOk result (λ words. is_none_or_each copies words ≡ true) }
{
    match value_at(table, Key::PortsCallers) {
        None => Ok(Words::new(alloc)),
        Some(value) => callers_under(alloc, value, copies),
    }
}

fn callers_under(alloc: Global, value: &Value, copies: u8) -> Result<Words, SettingsFail>
    ensures row { IsAnswer result
        (texts_if Key.PortsCallers (are_addresses_or_none copies) (Some (view value.now))) }
    ensures count { IfOk result (λ words. is_none_or_each copies words ≡ true) }
{
    let items = texts_in(value, Key::PortsCallers)?;
    if !are_addresses_or_none(copies, items) {
        return Err(SettingsFail::OutOfRange(Key::PortsCallers));
    }
    Ok(words_of(alloc, items)?)
}

/// Whether there are no texts, or one for each copy.
fn are_addresses_or_none(copies: u8, items: &[Value]) -> bool
    requires { are_texts (items_view items.now) ≡ true }
    ensures { result ≡ are_addresses_or_none copies (texts_of (items_view items.now)) }
{
    items.is_empty() || are_addresses(copies, items)
}
