ghost use Rattle.std.specs.Prelude.{◌≡◌, ◌||◌, ◌&&◌, ◌++◌, not, option_map, bytes_eq, string_bytes, IfOk};
ghost use Rattle.std.specs.List.{find};
ghost use Rattle.std.specs.List.Sorted.{IsStrictlySortedBy};
ghost use Rattle.std.specs.Map.{keys_of};
ghost use Rattle.std.specs.String.{string_cmp};
ghost use Rattle.toml.specs.View.{view, table_view};
ghost use Rattle.rd_conf.specs.Answers.{IsAnswer};
ghost use Rattle.rd_conf.specs.Keys.{key_word, is_one_of, is_top_key, is_port_key, port_name};
ghost use Rattle.rd_conf.specs.Rows.{value_at};
ghost use Rattle.rd_conf.specs.Unknown.{is_second, unknown_top_key, unknown_port_key, known_keys};

use crate::key::Key;
use crate::rows::value_at;
use crate::settings::SettingsFail;
use rd_base::{Bytes, NoMemory};
use std::alloc::Global;
use toml::{Table, Value};

/// The keys of the top table that every version has.
const TOP_KEYS: [Key; 12] = [
    Key::Version,
    Key::Copies,
    Key::Incoming,
    Key::Outgoing,
    Key::UnitMax,
    Key::ExchangesMax,
    Key::IdleMs,
    Key::RequestMs,
    Key::GatherMs,
    Key::ReplyMs,
    Key::HttpPass,
    Key::Ports,
];

/// The keys of the top table that version 2 has besides.
const VERSION_2_KEYS: [Key; 4] = [
    Key::FirmNames,
    Key::FreeNames,
    Key::MaskedMax,
    Key::MaskedBytes,
];

const PORT_KEYS: [Key; 6] = [
    Key::PortsListen,
    Key::PortsInstances,
    Key::PortsCallers,
    Key::PortsBackend,
    Key::PortsOperator,
    Key::PortsRecords,
];

/// Refuses the least key of the top table that isn't known, and then that of the ports.
pub fn refuse_unknown(alloc: Global, table: &Table) -> Result<(), SettingsFail>
    ensures { IsAnswer result (known_keys (table_view table.now)) }
{
    if let Some(key) = unknown_top_key(table) {
        return Err(SettingsFail::Unknown(Bytes::from_slice(alloc, key.as_bytes())?));
    }
    if let Some(key) = unknown_port_key(table) {
        return Err(SettingsFail::Unknown(port_name(alloc, key)?));
    }
    Ok(())
}

/// A key of the table of ports, as it is printed.
fn port_name(alloc: Global, key: &str) -> Result<Bytes, NoMemory>
    ensures { IfOk result (λ name. name ≡ port_name key.now) }
{
    let mut name = Bytes::from_slice(alloc, b"ports.")?;
    name.push_slice(key.as_bytes())?;
    Ok(name)
}

fn unknown_top_key(table: &Table) -> Option<&str>
    ensures { option_map (λ key. key.now) result ≡ unknown_top_key (table_view table.now) }
{
    let second = is_second(table);
    match first_not_in_top(table, second) {
        Some(key) => Some(key.as_str()),
        None => None,
    }
}

fn first_not_in_top(table: &Table, second: bool) -> Option<&String>
    ensures first { option_map (λ key. key.now) result
        ≡ find (λ key. not (is_top_key second (string_bytes key))) (keys_of table.now.entries) }
    ensures ordered { IsStrictlySortedBy string_cmp (keys_of table.now.entries) }
{
    table.keys().find(|key| !is_top_key(second, key.as_str()))
}

fn unknown_port_key(table: &Table) -> Option<&str>
    ensures { option_map (λ key. key.now) result
        ≡ unknown_port_key (value_at Key.Ports (table_view table.now)) }
{
    let ports = value_at(table, Key::Ports)?.as_table()?;
    match first_not_in_ports(ports) {
        Some(key) => Some(key.as_str()),
        None => None,
    }
}

fn first_not_in_ports(ports: &Table) -> Option<&String>
    ensures first { option_map (λ key. key.now) result
        ≡ find (λ key. not (is_port_key (string_bytes key))) (keys_of ports.now.entries) }
    ensures ordered { IsStrictlySortedBy string_cmp (keys_of ports.now.entries) }
{
    ports.keys().find(|key| !is_port_key(key.as_str()))
}

/// Whether the version is the integer 2.
fn is_second(table: &Table) -> bool
    ensures { result ≡ is_second (value_at Key.Version (table_view table.now)) }
{
    match value_at(table, Key::Version) {
        Some(value) => is_two(value),
        None => false,
    }
}

fn is_two(value: &Value) -> bool
    ensures { result ≡ is_second (Some (view value.now)) }
{
    match value.as_integer() {
        Some(number) => number == 2,
        None => false,
    }
}

/// Whether the top table has this key, in version 2 or in version 1.
#[tactic(auto, unfolding(crate::specs::Keys::is_top_key))]
fn is_top_key(second: bool, word: &str) -> bool
    ensures { result ≡ is_top_key second word.now }
{
    is_one_of(&TOP_KEYS, word) || second && is_one_of(&VERSION_2_KEYS, word)
}

#[tactic(auto, unfolding(crate::specs::Keys::is_port_key))]
fn is_port_key(word: &str) -> bool
    ensures { result ≡ is_port_key word.now }
{
    is_one_of(&PORT_KEYS, word)
}

fn is_one_of(keys: &[Key], word: &str) -> bool
    ensures { result ≡ is_one_of keys.now word.now }
{
    keys.iter().any(|key| is_word_of(*key, word))
}

fn is_word_of(key: Key, word: &str) -> bool
    ensures { result ≡ bytes_eq (key_word key) word.now }
{
    key.word() == word
}
