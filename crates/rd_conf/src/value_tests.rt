use crate::defaults::default_settings;
use crate::read::read_settings;
use crate::settings::{DialectName, Settings};
use rd_base::{Limits, MaskLimits, Names, Words};
use std::process::Abort;
use std::test::Fail;

const EVERY_KEY: &str = "version = 2
copies = 4
incoming = \"http\"
outgoing = \"pg\"
unit_max = 2048
exchanges_max = 7
idle_ms = 11
request_ms = 12
gather_ms = 13
reply_ms = 14
http_pass = [\"date\", \"x-id\"]
firm_names = [\"set-cookie\"]
free_names = [\"x-trace\", \"x_span\"]
masked_max = 3
masked_bytes = 40

[ports]
listen = \"0.0.0.0:80\"
instances = [\"a:1\", \"b:2\", \"c:3\", \"d:4\"]
callers = [\"e:1\", \"f:2\", \"g:3\", \"h:4\"]
backend = \"db:5432\"
operator = \"127.0.0.1:9\"
records = \"notes.db\"
";

/// The settings of a text that is right.
fn read(rt: &HostRuntime, text: &str) -> Result<Settings, Fail> {
    match read_settings(rt.alloc(), text.as_bytes()) {
        Ok(settings) => Ok(settings),
        Err(_) => Err("refused")?,
    }
}

fn same_names(rt: &impl Abort, names: &Names, wanted: &[&str]) {
    assert_eq!(rt; names.len(), wanted.len());
    for (place, name) in wanted.iter().enumerate() {
        assert!(rt; place < names.len());
        assert_eq!(rt; names.at(place), name.as_bytes());
    }
}

fn same_words(rt: &impl Abort, words: &Words, wanted: &[&str]) {
    assert_eq!(rt; words.len(), wanted.len());
    for (place, word) in wanted.iter().enumerate() {
        assert!(rt; place < words.len());
        assert_eq!(rt; words.at(place), word.as_bytes());
    }
}

#[test]
fn limits_of_every_key(rt: HostRuntime) -> Result<(), Fail> {
    let settings = read(&rt, EVERY_KEY)?;
    let limits = Limits {
        copies: 4,
        unit_max: 2_048,
        exchanges_max: 7,
        idle_ms: 11,
        request_ms: 12,
        gather_ms: 13,
        reply_ms: 14,
        mask: MaskLimits {
            places: 3,
            bytes: 40,
        },
    };
    assert_eq!(rt; settings.limits, limits);
    assert_eq!(rt; settings.incoming, DialectName::Http);
    assert_eq!(rt; settings.outgoing, DialectName::Pg);
    Ok(())
}

#[test]
fn names_of_every_key(rt: HostRuntime) -> Result<(), Fail> {
    let settings = read(&rt, EVERY_KEY)?;
    same_names(&rt, &settings.rules.pass, &["date", "x-id"]);
    same_names(&rt, &settings.rules.firm, &["set-cookie"]);
    same_names(&rt, &settings.rules.free, &["x-trace", "x_span"]);
    Ok(())
}

#[test]
fn ports_of_every_key(rt: HostRuntime) -> Result<(), Fail> {
    let ports = read(&rt, EVERY_KEY)?.ports;
    assert_eq!(rt; ports.listen.as_slice(), b"0.0.0.0:80".as_slice());
    same_words(&rt, &ports.instances, &["a:1", "b:2", "c:3", "d:4"]);
    same_words(&rt, &ports.callers, &["e:1", "f:2", "g:3", "h:4"]);
    assert_eq!(rt; ports.backend.as_slice(), b"db:5432".as_slice());
    assert_eq!(rt; ports.operator.as_slice(), b"127.0.0.1:9".as_slice());
    assert_eq!(rt; ports.records.as_slice(), b"notes.db".as_slice());
    Ok(())
}

/// Whether the settings are those of a file that says its version alone.
fn are_defaults(rt: &impl Abort, settings: &Settings) {
    let limits = Limits {
        copies: 3,
        unit_max: 1_048_576,
        exchanges_max: 10_000,
        idle_ms: 60_000,
        request_ms: 30_000,
        gather_ms: 5_000,
        reply_ms: 30_000,
        mask: MaskLimits {
            places: 64,
            bytes: 128,
        },
    };
    assert_eq!(rt; settings.limits, limits);
    assert_eq!(rt; settings.incoming, DialectName::Line);
    assert_eq!(rt; settings.outgoing, DialectName::Line);
    same_names(rt, &settings.rules.pass, &[]);
    same_names(rt, &settings.rules.firm, &[]);
    same_names(rt, &settings.rules.free, &[]);
    same_words(rt, &settings.ports.instances, &[]);
    same_words(rt, &settings.ports.callers, &[]);
    assert_eq!(rt; settings.ports.listen.len(), 0);
    assert_eq!(rt; settings.ports.records.len(), 0);
}

#[test]
fn defaults(rt: HostRuntime) -> Result<(), Fail> {
    match default_settings(rt.alloc()) {
        Ok(settings) => are_defaults(&rt, &settings),
        Err(_) => assert!(rt; false),
    }
    are_defaults(&rt, &read(&rt, "version = 1")?);
    are_defaults(&rt, &read(&rt, "version = 2\n[ports]\n")?);
    Ok(())
}
