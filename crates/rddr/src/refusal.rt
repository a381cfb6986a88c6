ghost use Rattle.std.specs.Prelude.{◌≡◌, IfOk, string_bytes, map};
ghost use Rattle.rddr.specs.Outcome.{usage, fault_line, shown_byte};
ghost use Rattle.rddr.specs.Works.{refusal_outcome};

use rd_base::NoMemory;
use rd_conf::SettingsFail;
use rd_script::ScriptRefusal;
use std::alloc::{AllocError, Global};

/// Why nothing is run.
#[derive(Drop)]
pub enum Refusal {
    /// The words have no form that is served.
    Words,
    /// A file couldn't be read.
    Unread,
    /// The settings' file has more than 65,536 bytes.
    LongSettings,
    /// The settings' first fault.
    Settings(SettingsFail),
    /// The script's file has more than 67,108,864 bytes.
    LongScript,
    /// The script's first bad line.
    BadLine(u32),
    NoMemory,
}

impl From<NoMemory> for Refusal {
    ghost use Rattle.rddr.specs.declared.refusal.Refusal.TheVariants as refusal;

    ghost from_gives = { λ _ r. r ≡ refusal.NoMemory };

    fn from(_none: NoMemory) -> Refusal {
        Refusal::NoMemory
    }
}

impl From<SettingsFail> for Refusal {
    ghost use Rattle.rddr.specs.Works.{refusal_of};

    ghost from_gives = { λ fault r. r ≡ refusal_of fault };

    fn from(fault: SettingsFail) -> Refusal {
        match fault {
            SettingsFail::NoMemory => Refusal::NoMemory,
            fault => Refusal::Settings(fault),
        }
    }
}

impl From<ScriptRefusal> for Refusal {
    ghost use Rattle.rddr.specs.Works.{script_refusal_of};

    ghost from_gives = { λ reason r. r ≡ script_refusal_of reason };

    fn from(reason: ScriptRefusal) -> Refusal {
        match reason {
            ScriptRefusal::BadLine(number) => Refusal::BadLine(number),
            ScriptRefusal::NoMemory => Refusal::NoMemory,
        }
    }
}

impl Refusal {
    /// What the program prints. Nothing where a file couldn't be read or memory ran out.
    pub fn text(&self, alloc: Global) -> Result<String, AllocError>
        ensures { IfOk result (λ text. string_bytes text ≡ (refusal_outcome self.now).text) }
    {
        match self {
            Refusal::Words => usage().to_string(alloc),
            Refusal::Unread | Refusal::NoMemory => "".to_string(alloc),
            Refusal::LongSettings => "settings: too long\n".to_string(alloc),
            Refusal::Settings(fault) => fault_line(alloc, fault),
            Refusal::LongScript => "script: too long\n".to_string(alloc),
            Refusal::BadLine(number) => format!(in alloc; "script: BadLine {number}\n"),
        }
    }
}

/// The forms of the program's words.
fn usage() -> &'static str
    ensures { result.now ≡ usage.text }
{
    "usage: rddr check SETTINGS
       rddr replay SCRIPT
       rddr replay SETTINGS SCRIPT
       rddr gen SETTINGS NUMBER
       rddr run SETTINGS
"
}

/// The line of a settings' fault. Want of memory is no fault of theirs, and has none.
fn fault_line(alloc: Global, fault: &SettingsFail) -> Result<String, AllocError>
    ensures { IfOk result (λ text. string_bytes text ≡ fault_line fault.now) }
{
    match fault {
        SettingsFail::NotToml => "settings: NotToml\n".to_string(alloc),
        SettingsFail::Missing(key) => format!(in alloc; "settings: Missing {}\n", key.name()),
        SettingsFail::WrongKind(key) => format!(in alloc; "settings: WrongKind {}\n", key.name()),
        SettingsFail::OutOfRange(key) => format!(in alloc; "settings: OutOfRange {}\n", key.name()),
        SettingsFail::Unknown(key) => unknown_line(alloc, key.as_slice()),
        SettingsFail::NoMemory => "".to_string(alloc),
    }
}

/// The line of an unknown key. Bytes that aren't printable, or a blank, stand as `?`.
fn unknown_line(alloc: Global, key: &[u8]) -> Result<String, AllocError>
    ensures { IfOk result (λ text. string_bytes text
        ≡ fault_line (SettingsFail.Unknown key.now)) }
{
    let mut line = "settings: Unknown ".to_string(alloc)?;
    for byte in key {
        line.push(char::from(shown_byte(*byte)))?;
    }
    line.push('\n')?;
    Ok(line)
}

/// A byte of an unknown key as it is printed.
fn shown_byte(byte: u8) -> u8
    ensures { result ≡ shown_byte byte }
{
    if byte >= 0x21 && byte <= 0x7e {
        byte
    } else {
        b'?'
    }
}
