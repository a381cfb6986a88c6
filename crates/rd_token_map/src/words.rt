ghost use Rattle.std.specs.Prelude.{◌≡◌, ◌≤◌, ◌<◌, ◌++◌, length, drop, IfOk, OnOk};
ghost use Rattle.rd_token_map.specs.WordsIn.{words_in, words_in_form, words_of_pair, words_of_value};

use crate::form::{first_or_len, has_replacement};
use form_urlencoded::decode;
use rd_base::{NoMemory, Words, cut_at};
use std::alloc::Global;

/// The words of a text, in order of place.
pub fn words_in(alloc: Global, text: &[u8]) -> Result<Words, NoMemory>
    ensures { IfOk result (λ w. w ≡ words_in text.now) }
{
    let mut words = Words::new(alloc);
    push_words(&mut words, text)?;
    Ok(words)
}

/// Appends the words of a text.
pub fn push_words(words: &mut Words, text: &[u8]) -> Result<(), NoMemory>
    ensures { OnOk result (words.new ≡ words.old ++ words_in text.now) }
{
    let mut at = 0;
    while at < text.len() {
        let cut = cut_at(text, at);
        if cut.is_soft {
            words.push(&text[at..cut.end])?;
        }
        at = cut.end;
    }
    Ok(())
}

/// The words of a form's values that are looked up, decoded, in order of place.
pub fn form_words(alloc: Global, text: &[u8]) -> Result<Words, NoMemory>
    ensures { IfOk result (λ w. w ≡ words_in_form text.now) }
{
    let mut words = Words::new(alloc);
    push_form_words(&mut words, alloc, text)?;
    Ok(words)
}

/// Appends the words of a form's values.
pub fn push_form_words(words: &mut Words, alloc: Global, text: &[u8]) -> Result<(), NoMemory>
    ensures { OnOk result (words.new ≡ words.old ++ words_in_form text.now) }
{
    let mut at = 0;
    while at < text.len() {
        at += push_first_words(words, alloc, &text[at..])?;
    }
    Ok(())
}

/// Appends the words of the first pair, and gives the number of bytes up to the next.
fn push_first_words(words: &mut Words, alloc: Global, text: &[u8]) -> Result<usize, NoMemory>
    requires { 0 < length text.now }
    ensures some { IfOk result (λ len. 0 < len) }
    ensures within { IfOk result (λ len. len ≤ length text.now) }
    ensures same { IfOk result
        (λ len. words.old ++ words_in_form text.now
        ≡ words.new ++ words_in_form (drop len text.now)) }
{
    let end = first_or_len(text, b'&');
    push_pair_words(words, alloc, &text[..end])?;
    if end < text.len() {
        Ok(end + 1)
    } else {
        Ok(end)
    }
}

fn push_pair_words(words: &mut Words, alloc: Global, pair: &[u8]) -> Result<(), NoMemory>
    ensures { OnOk result (words.new ≡ words.old ++ words_of_pair pair.now) }
{
    let value = pair.len().min(first_or_len(pair, b'=') + 1);
    push_value_words(words, alloc, &pair[value..])
}

fn push_value_words(words: &mut Words, alloc: Global, value: &[u8]) -> Result<(), NoMemory>
    ensures { OnOk result (words.new ≡ words.old ++ words_of_value value.now) }
{
    let text = match decode(alloc, value) {
        Ok(text) => text,
        Err(_) => return Err(NoMemory),
    };
    if has_replacement(text.as_str()) {
        return Ok(());
    }
    push_words(words, text.as_str().as_bytes())
}
