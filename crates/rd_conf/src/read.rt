ghost use Rattle.std.specs.Prelude.{◌≡◌, ◌≢◌, ◌≤◌, Some, Ok, Err, IfOk, IfErr, OnOk, codes};
ghost use Rattle.toml.specs.View.{view, table_view};
ghost use Rattle.rd_base.specs.Limits.{AreLimits, AreMaskLimits};
ghost use Rattle.rd_conf.specs.Answers.{IsAnswer};
ghost use Rattle.rd_conf.specs.Ports.{ArePorts};
ghost use Rattle.rd_conf.specs.Rows.{value_at};
ghost use Rattle.rd_conf.specs.Settings.{limits_of, mask_limits_of, rules_of, ports_in, ports_of, settings_in, settings_of, table_of, wait_or, no_ports};

use crate::defaults::{most_masked, no_ports};
use crate::key::Key;
use crate::lists::{callers_or_none, free_names_or_none, instances_or_none, names_or_none};
use crate::rows::{address_or_none, dialect_or_line, integer_or, required_integer, value_at};
use crate::settings::{Ports, Settings, SettingsFail};
use crate::unknown::refuse_unknown;
use rd_base::{Limits, MaskLimits, NameRules};
use std::alloc::Global;
use toml::{Table, Value};

/// A time in milliseconds under a key, at most a day.
#[tactic(auto, unfolding(crate::specs::Settings::wait_or))]
fn wait_or(table: &Table, key: Key, default: u64) -> Result<u64, SettingsFail>
    requires least { 1 ≤ default }
    requires most { default ≤ 86400000 }
    ensures row { result ≡ wait_or default key (table_view table.now) }
    ensures least { IfOk result (λ ms. 1 ≤ ms) }
    ensures most { IfOk result (λ ms. ms ≤ 86400000) }
{
    integer_or(table, key, 1, 86_400_000, default)
}

/// The limits of a session, but for those of masks, which are the greatest.
#[tactic(auto, unfolding(crate::specs::Settings::limits_of))]
fn read_limits(table: &Table, copies: u8) -> Result<Limits, SettingsFail>
    requires least { 3 ≤ copies }
    requires most { copies ≤ 8 }
    ensures rows { result ≡ limits_of copies (table_view table.now) }
    ensures copies { IfOk result (λ limits. limits.copies ≡ copies) }
    ensures ranges { IfOk result AreLimits }
{
    let unit_max = integer_or(table, Key::UnitMax, 1_024, 8_388_608, 1_048_576)?;
    let exchanges_max = integer_or(table, Key::ExchangesMax, 1, 65_536, 10_000)?;
    let idle_ms = wait_or(table, Key::IdleMs, 60_000)?;
    let request_ms = wait_or(table, Key::RequestMs, 30_000)?;
    let gather_ms = wait_or(table, Key::GatherMs, 5_000)?;
    let reply_ms = wait_or(table, Key::ReplyMs, 30_000)?;
    Ok(Limits {
        copies,
        unit_max: unit_max as u32,
        exchanges_max: exchanges_max as u32,
        idle_ms,
        request_ms,
        gather_ms,
        reply_ms,
        mask: most_masked(),
    })
}

/// The limits of masks.
#[tactic(auto, unfolding(crate::specs::Settings::mask_limits_of))]
fn read_mask_limits(table: &Table) -> Result<MaskLimits, SettingsFail>
    ensures rows { result ≡ mask_limits_of (table_view table.now) }
    ensures ranges { IfOk result AreMaskLimits }
{
    let places = integer_or(table, Key::MaskedMax, 0, 64, 64)?;
    let bytes = integer_or(table, Key::MaskedBytes, 1, 128, 128)?;
    Ok(MaskLimits {
        places: places as u8,
        bytes: bytes as u8,
    })
}

/// The names of values that are passed over, never masked, or always noise.
#[tactic(auto, unfolding(crate::specs::Settings::rules_of))]
fn read_rules(alloc: Global, table: &Table) -> Result<NameRules, SettingsFail>
    ensures { IsAnswer result (rules_of (table_view table.now)) }
{
    let pass = names_or_none(alloc, table, Key::HttpPass)?;
    let firm = names_or_none(alloc, table, Key::FirmNames)?;
    let free = free_names_or_none(alloc, table, &firm)?;
    Ok(NameRules { pass, firm, free })
}

/// The ports of so many copies.
#[tactic(auto, unfolding(crate::specs::Settings::ports_of))]
fn read_ports(alloc: Global, table: &Table, copies: u8) -> Result<Ports, SettingsFail>
    ensures rows { IsAnswer result (ports_of copies (value_at Key.Ports (table_view table.now))) }
    ensures counts { IfOk result (ArePorts copies) }
{
    match value_at(table, Key::Ports) {
        None => Ok(no_ports(alloc)),
        Some(value) => ports_under(alloc, value, copies),
    }
}

#[tactic(auto, unfolding(crate::specs::Settings::ports_of))]
fn ports_under(alloc: Global, value: &Value, copies: u8) -> Result<Ports, SettingsFail>
    ensures rows { IsAnswer result (ports_of copies (Some (view value.now))) }
    ensures counts { IfOk result (ArePorts copies) }
{
    match value.as_table() {
        Some(ports) => ports_in(alloc, ports, copies),
        None => Err(SettingsFail::WrongKind(Key::Ports)),
    }
}

#[tactic(auto, unfolding(crate::specs::Settings::ports_in))]
fn ports_in(alloc: Global, ports: &Table, copies: u8) -> Result<Ports, SettingsFail>
    ensures rows { IsAnswer result (ports_in copies (table_view ports.now)) }
    ensures counts { IfOk result (ArePorts copies) }
{
    let listen = address_or_none(alloc, ports, Key::PortsListen)?;
    let instances = instances_or_none(alloc, ports, copies)?;
    let callers = callers_or_none(alloc, ports, copies)?;
    let backend = address_or_none(alloc, ports, Key::PortsBackend)?;
    let operator = address_or_none(alloc, ports, Key::PortsOperator)?;
    let records = address_or_none(alloc, ports, Key::PortsRecords)?;
    Ok(Ports {
        listen,
        instances,
        callers,
        backend,
        operator,
        records,
    })
}

/// The settings that a table says, or its first fault.
#[tactic(auto, unfolding(crate::specs::Settings::settings_in))]
fn settings_in(alloc: Global, table: &Table) -> Result<Settings, SettingsFail>
    ensures settings { IsAnswer result (settings_in (table_view table.now)) }
    ensures limits { IfOk result (λ settings. AreLimits settings.limits) }
    ensures ports { IfOk result (λ settings. ArePorts settings.limits.copies settings.ports) }
{
    refuse_unknown(alloc, table)?;
    required_integer(table, Key::Version, 1, 2)?;
    let copies = integer_or(table, Key::Copies, 3, 8, 3)? as u8;
    let incoming = dialect_or_line(table, Key::Incoming)?;
    let outgoing = dialect_or_line(table, Key::Outgoing)?;
    let limits = read_limits(table, copies)?;
    let rules = read_rules(alloc, table)?;
    let mask = read_mask_limits(table)?;
    let ports = read_ports(alloc, table, copies)?;
    Ok(Settings {
        limits: Limits { mask, ..limits },
        incoming,
        outgoing,
        rules,
        ports,
    })
}

/// The settings that a settings file says, or its first fault. A file has at most 65,536 bytes; this call reads texts of
/// any length.
///
/// The text is a TOML 1.1 document in UTF-8, as a table without types. Which text is a document, and what its table is,
/// is what the library `toml` states of its reader: `parse_document`, a function of the text. So a key that is defined
/// twice, an integer beyond 64 bits and arrays or inline tables that nest more than 80 deep are no document.
///
/// The faults in order: `NotToml`; `Unknown` with the least unknown key of the top table in the order of its bytes, then
/// of the table `ports`; then key by key as `Key` lists them, `Missing`, `WrongKind` or `OutOfRange`. The keys of names
/// and masks are known where `version` is the integer 2. `NoMemory` stands for no fault: memory ran out before an answer
/// was found.
pub fn read_settings(alloc: Global, text: &[u8]) -> Result<Settings, SettingsFail>
    ensures settings { IfOk result (λ settings. settings_of text.now ≡ Ok settings) }
    ensures fault { IfErr result
        (λ fault. fault ≢ SettingsFail.NoMemory → settings_of text.now ≡ Err fault) }
    ensures limits { IfOk result (λ settings. AreLimits settings.limits) }
    ensures ports { IfOk result (λ settings. ArePorts settings.limits.copies settings.ports) }
{
    match toml::table_from_slice(alloc, text) {
        Ok(table) => settings_in(alloc, &table),
        Err(error) => {
            if error.is_memory() {
                return Err(SettingsFail::NoMemory);
            }
            Err(SettingsFail::NotToml)
        }
    }
}
