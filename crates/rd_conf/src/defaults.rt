ghost use Rattle.std.specs.Prelude.{◌≡◌, Ok, IfOk, codes};
ghost use Rattle.rd_base.specs.Limits.{AreLimits};
ghost use Rattle.rd_conf.specs.Defaults.{default_settings, default_limits, no_names};
ghost use Rattle.rd_conf.specs.Settings.{settings_of, no_ports, most_masked};

use crate::settings::{DialectName, Ports, Settings};
use rd_base::{Bytes, Limits, MaskLimits, NameRules, Names, NoMemory, Words};
use std::alloc::Global;

/// The settings of a file that says `version = 1` and nothing else. They take no memory.
pub fn default_settings(alloc: Global) -> Result<Settings, NoMemory>
    ensures values { result ≡ Ok default_settings }
    ensures limits { IfOk result (λ settings. AreLimits settings.limits) }
    ensures version_1 { settings_of (codes "version = 1\n") ≡ Ok default_settings }
{
    Ok(Settings {
        limits: default_limits(),
        incoming: DialectName::Line,
        outgoing: DialectName::Line,
        rules: no_names(alloc),
        ports: no_ports(alloc),
    })
}

fn default_limits() -> Limits
    ensures { result ≡ default_limits }
{
    Limits {
        copies: 3,
        unit_max: 1_048_576,
        exchanges_max: 10_000,
        idle_ms: 60_000,
        request_ms: 30_000,
        gather_ms: 5_000,
        reply_ms: 30_000,
        mask: most_masked(),
    }
}

/// The greatest limits of masks, which are the defaults.
pub fn most_masked() -> MaskLimits
    ensures { result ≡ most_masked }
{
    MaskLimits {
        places: 64,
        bytes: 128,
    }
}

fn no_names(alloc: Global) -> NameRules
    ensures { result ≡ no_names }
{
    NameRules {
        pass: Names::new(alloc),
        firm: Names::new(alloc),
        free: Names::new(alloc),
    }
}

/// No ports at all.
pub fn no_ports(alloc: Global) -> Ports
    ensures { result ≡ no_ports }
{
    Ports {
        listen: Bytes::new(alloc),
        instances: Words::new(alloc),
        callers: Words::new(alloc),
        backend: Bytes::new(alloc),
        operator: Bytes::new(alloc),
        records: Bytes::new(alloc),
    }
}
