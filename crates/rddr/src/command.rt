ghost use Rattle.std.specs.Prelude.{◌≡◌, ◌≤◌, map, option_map, string_bytes, IfSome, Some};
ghost use Rattle.rddr.specs.Forms.{form_of, form_of_two, form_of_three, exchange_count};
ghost use Rattle.rddr.specs.Works.{form_in, HasRange};

use rd_script::read_number;

/// What the words behind the program's name ask for.
#[derive(Clone, Copy, Debug, PartialEq, Eq)]
pub enum Command<'a> {
    /// `check SETTINGS`
    Check { settings: &'a str },
    /// `replay SCRIPT`
    Replay { script: &'a str },
    /// `replay SETTINGS SCRIPT`
    ReplayUnder { settings: &'a str, script: &'a str },
    /// `gen SETTINGS NUMBER`, of 1 to 9,999 exchanges
    Generate { settings: &'a str, number: u16 },
}

/// What these words ask for. None where they have no form that is served.
pub fn command_of(words: &[String]) -> Option<Command<'_>>
    ensures form { option_map form_in result ≡ form_of (map string_bytes words.now) }
    ensures range { IfSome result HasRange }
{
    match words {
        [command, file] => form_of_two(command.as_str(), file.as_str()),
        [command, settings, last] => form_of_three(
            command.as_str(),
            settings.as_str(),
            last.as_str(),
        ),
        _ => None,
    }
}

/// What a command asks for with one word behind it.
fn form_of_two<'a>(command: &str, file: &'a str) -> Option<Command<'a>>
    ensures form { option_map form_in result ≡ form_of_two command.now file.entry.now }
    ensures range { IfSome result HasRange }
{
    if command == "check" {
        Some(Command::Check { settings: file })
    } else if command == "replay" {
        Some(Command::Replay { script: file })
    } else {
        None
    }
}

/// What a command asks for with two words behind it.
fn form_of_three<'a>(command: &str, settings: &'a str, last: &'a str) -> Option<Command<'a>>
    ensures form { option_map form_in result
        ≡ form_of_three command.now settings.entry.now last.entry.now }
    ensures range { IfSome result HasRange }
{
    if command == "replay" {
        Some(Command::ReplayUnder {
            settings,
            script: last,
        })
    } else if command == "gen" {
        let number = exchange_count(last)?;
        Some(Command::Generate { settings, number })
    } else {
        None
    }
}

/// A number from 1 to 9,999, in decimal digits without a leading zero.
fn exchange_count(word: &str) -> Option<u16>
    ensures number { result ≡ exchange_count word.now }
    ensures range { IfSome result (λ number. (1 ≤ number) × (number ≤ 9999)) }
{
    let number = read_number(word.as_bytes())?;
    if number >= 1 && number <= 9_999 {
        Some(number as u16)
    } else {
        None
    }
}
