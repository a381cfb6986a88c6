ghost use Rattle.std.specs.Prelude.{◌≡◌, ◌&&◌, not, nat_le, true, is_some, length, map, option_map, MatchResult, Ok, Err, IfOk, OnOk, ◌++◌};
ghost use Rattle.std.specs.List.{list_all};
ghost use Rattle.std.specs.Option.{option_map_or};
ghost use Rattle.std.specs.Char.{to_ascii_lowercase};
ghost use Rattle.toml.specs.Data.{as_str};
ghost use Rattle.toml.specs.View.{view, items_view};
ghost use Rattle.rd_conf.specs.Rows.{is_address};
ghost use Rattle.rd_conf.specs.Lists.{are_texts, texts_of, text_or_none, texts_in, is_name, is_name_byte, are_names, is_no_name_of, are_addresses, are_free_names};

use crate::key::Key;
use crate::rows::is_address;
use crate::settings::SettingsFail;
use rd_base::{Names, NoMemory, Words};
use std::alloc::Global;
use toml::Value;

/// The items of an array of texts.
pub fn texts_in(value: &Value, key: Key) -> Result<&[Value], SettingsFail>
    ensures texts { IfOk result (λ items. are_texts (items_view items.now) ≡ true) }
    ensures row { MatchResult result
        (λ items. texts_in key (view value.now) ≡ Ok (texts_of (items_view items.now)))
        (λ fault. texts_in key (view value.now) ≡ Err fault) }
{
    let Some(items) = value.as_array() else {
        return Err(SettingsFail::WrongKind(key));
    };
    let items = items.as_slice();
    if !are_texts(items) {
        return Err(SettingsFail::WrongKind(key));
    }
    Ok(items)
}

fn are_texts(items: &[Value]) -> bool
    ensures { result ≡ list_all (λ value. is_some (as_str (view value))) items.now }
{
    items.iter().all(|item| item.is_str())
}

/// The texts of the items as a list.
pub fn words_of(alloc: Global, items: &[Value]) -> Result<Words, NoMemory>
    ensures { IfOk result (λ words. words ≡ texts_of (items_view items.now)) }
{
    let mut words = Words::new(alloc);
    for item in items {
        push_word(&mut words, item)?;
    }
    Ok(words)
}

/// Appends the value's text, if it is one.
fn push_word(words: &mut Words, value: &Value) -> Result<(), NoMemory>
    ensures { OnOk result (words.new ≡ words.old ++ text_or_none (view value.now)) }
{
    match value.as_str() {
        Some(text) => words.push(text.as_bytes()),
        None => Ok(()),
    }
}

/// The texts of the items as names.
pub fn names_of(alloc: Global, items: &[Value]) -> Result<Names, NoMemory>
    ensures { IfOk result (λ names. names
        ≡ map (map to_ascii_lowercase) (texts_of (items_view items.now))) }
{
    let mut names = Names::new(alloc);
    for item in items {
        push_name(&mut names, item)?;
    }
    Ok(names)
}

/// Appends the value's text in lower case, if it is one.
fn push_name(names: &mut Names, value: &Value) -> Result<(), NoMemory>
    ensures { OnOk result (names.new
        ≡ names.old ++ map (map to_ascii_lowercase) (text_or_none (view value.now))) }
{
    match value.as_str() {
        Some(text) => names.push(text.as_bytes()),
        None => Ok(()),
    }
}

/// Whether there are at most 32 texts, each of them a name.
pub fn are_names(items: &[Value]) -> bool
    requires { are_texts (items_view items.now) ≡ true }
    ensures { result ≡ are_names (texts_of (items_view items.now)) }
{
    items.len() <= 32 && hold_names(items)
}

fn hold_names(items: &[Value]) -> bool
    ensures { result ≡ list_all
        (λ value. option_map_or is_name (as_str (view value)) true) items.now }
{
    items.iter().all(|item| holds_name(item))
}

fn holds_name(value: &Value) -> bool
    ensures { result ≡ option_map_or is_name (as_str (view value.now)) true }
{
    match value.as_str() {
        Some(text) => is_name(text.as_bytes()),
        None => true,
    }
}

/// 1 to 64 bytes of lower-case letters, digits, `-` and `_`.
#[tactic(auto, unfolding(crate::specs::Lists::is_name))]
fn is_name(text: &[u8]) -> bool
    ensures { result ≡ is_name text.now }
{
    text.len() >= 1 && text.len() <= 64 && are_name_bytes(text)
}

fn are_name_bytes(text: &[u8]) -> bool
    ensures { result ≡ list_all is_name_byte text.now }
{
    text.iter().all(|byte| is_name_byte(*byte))
}

fn is_name_byte(byte: u8) -> bool
    ensures { result ≡ is_name_byte byte }
{
    matches!(byte, b'a'..=b'z' | b'0'..=b'9' | b'-' | b'_')
}

/// Whether the texts are names of which none is among the firm names.
#[tactic(auto, unfolding(crate::specs::Lists::are_free_names))]
pub fn are_free_names(firm: &Names, items: &[Value]) -> bool
    requires { are_texts (items_view items.now) ≡ true }
    ensures { result ≡ are_free_names firm.now (texts_of (items_view items.now)) }
{
    are_names(items) && are_apart(firm, items)
}

fn are_apart(firm: &Names, items: &[Value]) -> bool
    ensures { result ≡ list_all
        (λ value. option_map_or (is_no_name_of firm.now) (as_str (view value)) true) items.now }
{
    items.iter().all(|item| is_apart(firm, item))
}

fn is_apart(firm: &Names, value: &Value) -> bool
    ensures { result ≡ option_map_or (is_no_name_of firm.now) (as_str (view value.now)) true }
{
    match value.as_str() {
        Some(text) => !firm.has(text.as_bytes()),
        None => true,
    }
}

/// Whether there is a text of 1 to 255 bytes for each copy.
pub fn are_addresses(copies: u8, items: &[Value]) -> bool
    requires { are_texts (items_view items.now) ≡ true }
    ensures { result ≡ are_addresses copies (texts_of (items_view items.now)) }
{
    items.len() == usize::from(copies) && hold_addresses(items)
}

fn hold_addresses(items: &[Value]) -> bool
    ensures { result ≡ list_all
        (λ value. option_map_or is_address (as_str (view value)) true) items.now }
{
    items.iter().all(|item| holds_address(item))
}

fn holds_address(value: &Value) -> bool
    ensures { result ≡ option_map_or is_address (as_str (view value.now)) true }
{
    match value.as_str() {
        Some(text) => is_address(text),
        None => true,
    }
}
