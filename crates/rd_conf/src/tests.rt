use crate::read::read_settings;
use crate::settings::SettingsFail;
use std::alloc::{AllocError, Global};
use std::process::Abort;
use std::test::Fail;

/// What is read of a text: `ok`, or the fault as it is printed behind `settings: `.
pub fn told(alloc: Global, text: &[u8]) -> Result<String, AllocError> {
    match read_settings(alloc, text) {
        Ok(_) => "ok".to_string(alloc),
        Err(fail) => told_fault(alloc, &fail),
    }
}

fn told_fault(alloc: Global, fail: &SettingsFail) -> Result<String, AllocError> {
    match fail {
        SettingsFail::NotToml => "NotToml".to_string(alloc),
        SettingsFail::Missing(key) => format!(in alloc; "Missing {}", key.name()),
        SettingsFail::WrongKind(key) => format!(in alloc; "WrongKind {}", key.name()),
        SettingsFail::OutOfRange(key) => format!(in alloc; "OutOfRange {}", key.name()),
        SettingsFail::Unknown(key) => told_unknown(alloc, key.as_slice()),
        SettingsFail::NoMemory => "NoMemory".to_string(alloc),
    }
}

fn told_unknown(alloc: Global, key: &[u8]) -> Result<String, AllocError> {
    match str::from_utf8(key) {
        Ok(key) => format!(in alloc; "Unknown {key}"),
        Err(_) => "not a text".to_string(alloc),
    }
}

/// Compares what is read of each text with what stands beside it.
pub fn compare(rt: &impl Abort, alloc: Global, cases: &[(&str, &str)]) -> Result<(), AllocError> {
    for (text, wanted) in cases {
        let found = told(alloc, text.as_bytes())?;
        assert_eq!(rt; found.as_str(), *wanted, "{text}");
    }
    Ok(())
}

const SMALL_SETTINGS: [(&str, &str); 10] = [
    ("version = 1", "ok"),
    ("version = 1\ncopies = 9", "OutOfRange copies"),
    ("copies = 3", "Missing version"),
    ("version = 1\nmasked_max = 3", "Unknown masked_max"),
    ("version = 3", "OutOfRange version"),
    ("version = 2", "ok"),
    ("", "Missing version"),
    ("version = 0", "OutOfRange version"),
    ("version = \"1\"", "WrongKind version"),
    ("version = 1.0", "WrongKind version"),
];

#[test]
fn small_settings(rt: HostRuntime) -> Result<(), Fail> {
    compare(&rt, rt.alloc(), &SMALL_SETTINGS)?;
    Ok(())
}

/// A key with its least and its greatest value, and one past each.
const RANGES: [(&str, i64, i64, i64, i64); 9] = [
    ("copies", 3, 8, 2, 9),
    ("unit_max", 1_024, 8_388_608, 1_023, 8_388_609),
    ("exchanges_max", 1, 65_536, 0, 65_537),
    ("idle_ms", 1, 86_400_000, 0, 86_400_001),
    ("request_ms", 1, 86_400_000, 0, 86_400_001),
    ("gather_ms", 1, 86_400_000, 0, 86_400_001),
    ("reply_ms", 1, 86_400_000, 0, 86_400_001),
    ("masked_max", 0, 64, -1, 65),
    ("masked_bytes", 1, 128, 0, 129),
];

/// Compares what is read of a line with this key and value.
fn compare_value(
    rt: &impl Abort,
    alloc: Global,
    key: &str,
    value: i64,
    wanted: &str,
) -> Result<(), AllocError> {
    let text = format!(in alloc; "version = 2\n{key} = {value}\n")?;
    let found = told(alloc, text.as_bytes())?;
    assert_eq!(rt; found.as_str(), wanted, "{key} = {value}");
    Ok(())
}

#[test]
fn whole_numbers_in_their_ranges(rt: HostRuntime) -> Result<(), Fail> {
    for (key, least, most, below, above) in &RANGES {
        let past = format!(in rt.alloc(); "OutOfRange {key}")?;
        compare_value(&rt, rt.alloc(), key, *least, "ok")?;
        compare_value(&rt, rt.alloc(), key, *most, "ok")?;
        compare_value(&rt, rt.alloc(), key, *below, past.as_str())?;
        compare_value(&rt, rt.alloc(), key, *above, past.as_str())?;
        compare_value(&rt, rt.alloc(), key, i64::MAX, past.as_str())?;
        compare_value(&rt, rt.alloc(), key, i64::MIN, past.as_str())?;
    }
    Ok(())
}

const VALUES_OF_THE_WRONG_KIND: [(&str, &str); 23] = [
    ("version = 1\ncopies = \"3\"", "WrongKind copies"),
    ("version = 1\nincoming = 1", "WrongKind incoming"),
    ("version = 1\noutgoing = true", "WrongKind outgoing"),
    ("version = 1\nunit_max = 1e6", "WrongKind unit_max"),
    (
        "version = 1\nexchanges_max = [1]",
        "WrongKind exchanges_max",
    ),
    ("version = 1\nidle_ms = \"1s\"", "WrongKind idle_ms"),
    ("version = 1\nrequest_ms = false", "WrongKind request_ms"),
    ("version = 1\ngather_ms = 2024-01-01", "WrongKind gather_ms"),
    ("version = 1\nreply_ms = {}", "WrongKind reply_ms"),
    ("version = 1\nhttp_pass = \"a\"", "WrongKind http_pass"),
    ("version = 1\nhttp_pass = [\"A\", 1]", "WrongKind http_pass"),
    ("version = 2\nfirm_names = 1", "WrongKind firm_names"),
    (
        "version = 2\nfree_names = [[\"a\"]]",
        "WrongKind free_names",
    ),
    ("version = 2\nmasked_max = \"3\"", "WrongKind masked_max"),
    ("version = 2\nmasked_bytes = 1.0", "WrongKind masked_bytes"),
    ("version = 1\nports = 80", "WrongKind ports"),
    ("version = 1\n[[ports]]", "WrongKind ports"),
    ("version = 1\nports.listen = 80", "WrongKind ports.listen"),
    (
        "version = 1\nports.instances = \"a\"",
        "WrongKind ports.instances",
    ),
    (
        "version = 1\nports.callers = [1, 2, 3]",
        "WrongKind ports.callers",
    ),
    ("version = 1\nports.backend = []", "WrongKind ports.backend"),
    (
        "version = 1\nports.operator = 1",
        "WrongKind ports.operator",
    ),
    ("version = 1\nports.records = 1", "WrongKind ports.records"),
];

#[test]
fn values_of_the_wrong_kind(rt: HostRuntime) -> Result<(), Fail> {
    compare(&rt, rt.alloc(), &VALUES_OF_THE_WRONG_KIND)?;
    Ok(())
}

const DIALECTS: [(&str, &str); 8] = [
    ("version = 1\nincoming = \"line\"", "ok"),
    ("version = 1\noutgoing = \"line\"", "ok"),
    ("version = 1\nincoming = \"http\"", "ok"),
    ("version = 1\nincoming = \"pg\"", "ok"),
    (
        "version = 1\noutgoing = \"postgres\"",
        "OutOfRange outgoing",
    ),
    ("version = 1\noutgoing = \"HTTP\"", "OutOfRange outgoing"),
    ("version = 1\nincoming = \"Line\"", "OutOfRange incoming"),
    ("version = 1\noutgoing = \"\"", "OutOfRange outgoing"),
];

#[test]
fn dialects(rt: HostRuntime) -> Result<(), Fail> {
    compare(&rt, rt.alloc(), &DIALECTS)?;
    Ok(())
}

const TEXTS_THAT_ARE_NO_TOML: [(&str, &str); 8] = [
    ("version", "NotToml"),
    ("version = 1\nversion = 1", "NotToml"),
    (
        "version = 1\ncopies = 9223372036854775807",
        "OutOfRange copies",
    ),
    ("version = 1\ncopies = 9223372036854775808", "NotToml"),
    (
        "version = 1\ncopies = -9223372036854775808",
        "OutOfRange copies",
    ),
    ("version = 1\ncopies = -9223372036854775809", "NotToml"),
    ("version = 1\nports.listen = \"a\"\n[ports]", "NotToml"),
    ("\u{FEFF}version = 1", "ok"),
];

#[test]
fn texts_that_are_no_toml(rt: HostRuntime) -> Result<(), Fail> {
    compare(&rt, rt.alloc(), &TEXTS_THAT_ARE_NO_TOML)?;
    let found = told(rt.alloc(), b"version = 1\n# \xff")?;
    assert_eq!(rt; found.as_str(), "NotToml");
    Ok(())
}

const UNKNOWN_KEYS: [(&str, &str); 15] = [
    ("version = 1\nzeta = 1\nalpha = 1", "Unknown alpha"),
    ("version = 1\nCopies = 3", "Unknown Copies"),
    (
        "version = 1\n\"a b\\u007f\u{e9}\" = 1",
        "Unknown a b\u{7f}\u{e9}",
    ),
    ("version = 1\n\"\" = 1", "Unknown "),
    ("version = 1\nlisten = \"a\"", "Unknown listen"),
    (
        "version = 1\nports.zeta = 1\nports.\"a b\" = 1",
        "Unknown ports.a b",
    ),
    ("version = 1\nports.version = 1", "Unknown ports.version"),
    ("version = 1\nports.a = 1\nzeta = 1", "Unknown zeta"),
    ("version = 1\nfirm_names = []", "Unknown firm_names"),
    ("version = 1\nfree_names = []", "Unknown free_names"),
    ("version = 1\nmasked_bytes = 1", "Unknown masked_bytes"),
    ("masked_max = 1", "Unknown masked_max"),
    ("version = 3\nmasked_max = 1", "Unknown masked_max"),
    ("version = \"2\"\nmasked_max = 1", "Unknown masked_max"),
    ("version = 2\nquorum = true", "Unknown quorum"),
];

#[test]
fn unknown_keys(rt: HostRuntime) -> Result<(), Fail> {
    compare(&rt, rt.alloc(), &UNKNOWN_KEYS)?;
    Ok(())
}

const THE_FIRST_OF_TWO_FAULTS: [(&str, &str); 11] = [
    ("zeta = 1", "Unknown zeta"),
    ("version = 3\ncopies = 9", "OutOfRange version"),
    ("copies = \"3\"\n", "Missing version"),
    (
        "version = 1\noutgoing = \"pg\"\ncopies = 9",
        "OutOfRange copies",
    ),
    (
        "version = 1\noutgoing = 1\nincoming = \"sql\"",
        "OutOfRange incoming",
    ),
    (
        "version = 1\nidle_ms = 0\nunit_max = 1",
        "OutOfRange unit_max",
    ),
    (
        "version = 1\nhttp_pass = 1\nreply_ms = 0",
        "OutOfRange reply_ms",
    ),
    (
        "version = 2\nmasked_max = 65\nfree_names = 1",
        "WrongKind free_names",
    ),
    (
        "version = 2\nports = 1\nmasked_bytes = 0",
        "OutOfRange masked_bytes",
    ),
    (
        "version = 1\nports.records = 1\nports.listen = \"\"",
        "OutOfRange ports.listen",
    ),
    (
        "version = 1\nports.instances = []\nports.callers = 1",
        "OutOfRange ports.instances",
    ),
];

#[test]
fn the_first_of_two_faults(rt: HostRuntime) -> Result<(), Fail> {
    compare(&rt, rt.alloc(), &THE_FIRST_OF_TWO_FAULTS)?;
    Ok(())
}
