ghost use Rattle.std.specs.Prelude.{◌≡◌, ◌≢◌, ◌≤◌, ◌↔◌, List, ℕ, length, map, Some, None, Ok, Err, string_bytes, IfOk, IfErr, OnOk, true};
ghost use Rattle.rd_base.specs.History.{is_well_formed};
ghost use Rattle.rd_base.specs.Limits.{AreLimits};
ghost use Rattle.rd_base.specs.Outside.{NamedFile, Rose, StaysRead, file_of};
ghost use Rattle.rddr.specs.Forms.{form_of};
ghost use Rattle.rddr.specs.Outcome.{outcome, form_outcome, settings_of_file, script_of_file, script_outcome, replay_under};
ghost use Rattle.rddr.specs.Works.{form_in, HasRange, IsReady, work_outcome, refusal_outcome, is_told};

use crate::command::{Command, command_of};
use crate::refusal::Refusal;
use rd_base::{FileFail, Files, Limits, NameRules, Side};
use rd_conf::{DialectName, Settings, default_settings, read_settings};
use rd_script::{Script, read_script};
use std::alloc::Global;

/// The most bytes of a settings' file.
const MOST_SETTINGS_BYTES: usize = 65_536;

/// The most bytes of a script's file.
const MOST_SCRIPT_BYTES: usize = 67_108_864;

/// What is to be done, once all files were read.
#[derive(Drop)]
pub enum Work {
    /// The settings are in order.
    Check,
    /// A script is to be replayed in the dialect of this name, under these rules of names.
    Replay {
        dialect: DialectName,
        names: NameRules,
        limits: Limits,
        script: Script,
    },
    /// A script of so many exchanges is to be made and run.
    Generate {
        limits: Limits,
        number: u16,
    },
}

/// What the words behind the program's name ask for, with all files read that they name, in the order of the words.
pub fn work_of<F: Files>(alloc: Global, words: &[String], files: &mut F) -> Result<Work, Refusal>
    ensures ready { IfOk result IsReady }
    ensures work { IfOk result
        (λ work. (all : List NamedFile) → (F.tells files.old).files ≡ Some all
        → outcome (map string_bytes words.now) all ≡ work_outcome work) }
    ensures refused { IfErr result (λ refusal. is_told refusal ≡ true → (all : List NamedFile)
        → (F.tells files.old).files ≡ Some all → outcome (map string_bytes words.now) all
        ≡ refusal_outcome refusal) }
    ensures words { (result ≡ Err Refusal.Words)
        ↔ (form_of (map string_bytes words.now) ≡ None) }
    ensures failed { result ≡ Err Refusal.Unread
        → Rose (F.tells files.old).faults (F.tells files.new).faults }
    ensures reads { StaysRead (F.tells files.old) (F.tells files.new) }
{
    match command_of(words) {
        Some(command) => work_for(alloc, command, files),
        None => Err(Refusal::Words),
    }
}

fn work_for<F: Files>(alloc: Global, command: Command, files: &mut F) -> Result<Work, Refusal>
    requires { HasRange command }
    ensures ready { IfOk result IsReady }
    ensures work { IfOk result
        (λ work. (all : List NamedFile) → (F.tells files.old).files ≡ Some all
        → form_outcome all (Some (form_in command.entry)) ≡ work_outcome work) }
    ensures refused { IfErr result (λ refusal. is_told refusal ≡ true → (all : List NamedFile)
        → (F.tells files.old).files ≡ Some all → form_outcome all (Some (form_in command.entry))
        ≡ refusal_outcome refusal) }
    ensures words { result ≢ Err Refusal.Words }
    ensures failed { result ≡ Err Refusal.Unread
        → Rose (F.tells files.old).faults (F.tells files.new).faults }
    ensures reads { StaysRead (F.tells files.old) (F.tells files.new) }
{
    match command {
        Command::Check { settings } => {
            let _settings = settings_file(alloc, settings, files)?;
            Ok(Work::Check)
        }
        Command::Replay { script } => {
            let settings = default_settings(alloc)?;
            replay_file(alloc, settings, script, files)
        }
        Command::ReplayUnder { settings, script } => {
            let settings = settings_file(alloc, settings, files)?;
            replay_file(alloc, settings, script, files)
        }
        Command::Generate { settings, number } => {
            let settings = settings_file(alloc, settings, files)?;
            Ok(Work::Generate {
                limits: settings.limits,
                number,
            })
        }
    }
}

/// The settings that the file of this name has.
pub(crate) fn settings_file<F: Files>(
    alloc: Global,
    name: &str,
    files: &mut F,
) -> Result<Settings, Refusal>
    ensures limits { IfOk result (λ settings. AreLimits settings.limits) }
    ensures settings { IfOk result
        (λ settings. (all : List NamedFile) → (F.tells files.old).files
        ≡ Some all → settings_of_file (file_of name.now all) ≡ Ok settings) }
    ensures refused { IfErr result (λ refusal. is_told refusal ≡ true → (all : List NamedFile)
        → (F.tells files.old).files ≡ Some all → settings_of_file (file_of name.now all)
        ≡ Err (refusal_outcome refusal)) }
    ensures words { result ≢ Err Refusal.Words }
    ensures failed { result ≡ Err Refusal.Unread
        → Rose (F.tells files.old).faults (F.tells files.new).faults }
    ensures reads { StaysRead (F.tells files.old) (F.tells files.new) }
{
    match files.read_all(alloc, name, MOST_SETTINGS_BYTES) {
        Ok(text) => settings_of(alloc, text.as_slice()),
        Err(FileFail::TooLong) => Err(Refusal::LongSettings),
        Err(FileFail::Failed) => Err(Refusal::Unread),
        Err(FileFail::NoMemory) => Err(Refusal::NoMemory),
    }
}

/// The settings that a text of at most 65,536 bytes says.
fn settings_of(alloc: Global, text: &[u8]) -> Result<Settings, Refusal>
    requires { length text.now ≤ 65536 }
    ensures limits { IfOk result (λ settings. AreLimits settings.limits) }
    ensures settings { IfOk result (λ settings. settings_of_file (Some text.now) ≡ Ok settings) }
    ensures refused { IfErr result (λ refusal. is_told refusal ≡ true
        → settings_of_file (Some text.now) ≡ Err (refusal_outcome refusal)) }
    ensures words { result ≢ Err Refusal.Words }
    ensures read { result ≢ Err Refusal.Unread }
{
    Ok(read_settings(alloc, text)?)
}

/// The script that the file of this name has, to be replayed under these settings.
fn replay_file<F: Files>(
    alloc: Global,
    settings: Settings,
    name: &str,
    files: &mut F,
) -> Result<Work, Refusal>
    requires { AreLimits settings.limits }
    ensures ready { IfOk result IsReady }
    ensures work { IfOk result
        (λ work. (all : List NamedFile) → (F.tells files.old).files ≡ Some all
        → replay_under settings (file_of name.now all) ≡ work_outcome work) }
    ensures refused { IfErr result (λ refusal. is_told refusal ≡ true → (all : List NamedFile)
        → (F.tells files.old).files ≡ Some all → replay_under settings (file_of name.now all)
        ≡ refusal_outcome refusal) }
    ensures words { result ≢ Err Refusal.Words }
    ensures failed { result ≡ Err Refusal.Unread
        → Rose (F.tells files.old).faults (F.tells files.new).faults }
    ensures reads { StaysRead (F.tells files.old) (F.tells files.new) }
{
    match files.read_all(alloc, name, MOST_SCRIPT_BYTES) {
        Ok(text) => {
            let script = script_of(alloc, settings.limits.copies, text.as_slice())?;
            Ok(replay_of(settings, script))
        }
        Err(FileFail::TooLong) => Err(Refusal::LongScript),
        Err(FileFail::Failed) => Err(Refusal::Unread),
        Err(FileFail::NoMemory) => Err(Refusal::NoMemory),
    }
}

/// The replay of a script in the dialect that the settings name for its side.
fn replay_of(settings: Settings, script: Script) -> Work
    requires limits { AreLimits settings.limits }
    requires well_formed { is_well_formed settings.limits.copies script.entries ≡ true }
    ensures ready { IsReady result }
    ensures work { work_outcome result ≡ script_outcome settings script }
{
    let dialect = match script.side() {
        Side::Incoming => settings.incoming,
        Side::Outgoing => settings.outgoing,
    };
    let Settings {
        limits,
        incoming: _,
        outgoing: _,
        rules,
        ports: _,
    } = settings;
    Work::Replay {
        dialect,
        names: rules,
        limits,
        script,
    }
}

/// The script that a text of at most 67,108,864 bytes stands for among so many copies.
fn script_of(alloc: Global, copies: u8, text: &[u8]) -> Result<Script, Refusal>
    requires least { 3 ≤ copies }
    requires most { copies ≤ 8 }
    requires fits { length text.now ≤ 67108864 }
    ensures script { IfOk result (λ script. script_of_file copies (Some text.now) ≡ Ok script) }
    ensures well_formed { IfOk result (λ script. is_well_formed copies script.entries ≡ true) }
    ensures refused { IfErr result (λ refusal. is_told refusal ≡ true
        → script_of_file copies (Some text.now) ≡ Err (refusal_outcome refusal)) }
    ensures words { result ≢ Err Refusal.Words }
    ensures read { result ≢ Err Refusal.Unread }
{
    Ok(read_script(alloc, copies, text)?)
}
