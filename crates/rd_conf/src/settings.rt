ghost use Rattle.std.specs.Prelude.{◌≡◌};

use crate::key::Key;
use rd_base::{Bytes, Limits, NameRules, NoMemory, Words};

/// The dialect that a side speaks.
#[derive(Clone, Copy, Debug, PartialEq, Eq)]
pub enum DialectName {
    /// Plain lines.
    Line,
    /// HTTP/1.1.
    Http,
    /// The frontend/backend protocol of PostgreSQL.
    Pg,
}

/// Where the proxies listen and whom they call, as texts of 1 to 255 bytes. What the file doesn't say is empty.
#[derive(Drop)]
pub struct Ports {
    /// Where clients are listened for.
    pub listen: Bytes,
    /// Where the instances are called: one for each copy, or none.
    pub instances: Words,
    /// Where the instances' own calls are listened for: one for each copy, or none.
    pub callers: Words,
    /// Where the backend of these calls is.
    pub backend: Bytes,
    /// Where the operator is listened for.
    pub operator: Bytes,
    /// The file that keeps the notes of sessions. Without one they are kept in memory.
    pub records: Bytes,
}

/// What a settings file says.
#[derive(Drop)]
pub struct Settings {
    /// What sessions are held to, in bytes and milliseconds.
    pub limits: Limits,
    /// The dialect of the clients.
    pub incoming: DialectName,
    /// The dialect of the backend.
    pub outgoing: DialectName,
    /// At most 32 names a list, each of 1 to 64 lower-case letters, digits, `-` and `_`. No name is both firm and free.
    pub rules: NameRules,
    pub ports: Ports,
}

/// Why a text is no settings.
#[derive(Drop)]
pub enum SettingsFail {
    /// The text is no TOML document.
    NotToml,
    /// The key is required and absent.
    Missing(Key),
    /// The key's value is of another kind.
    WrongKind(Key),
    /// The key's value is of the kind, but not one that the key can have.
    OutOfRange(Key),
    /// The version has no such key: the key's bytes as they are, behind `ports.` where it stands in that table.
    Unknown(Bytes),
    /// Memory ran out.
    NoMemory,
}

impl From<NoMemory> for SettingsFail {
    ghost use Rattle.rd_conf.specs.declared.settings.SettingsFail.TheVariants as fail;

    ghost from_gives = { λ _ r. r ≡ fail.NoMemory };

    fn from(_none: NoMemory) -> SettingsFail {
        SettingsFail::NoMemory
    }
}
