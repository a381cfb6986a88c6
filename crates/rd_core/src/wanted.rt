ghost use Rattle.std.specs.Prelude.{◌≡◌, ◌≤◌, ◌<◌, ◌-◌, ◌&&◌, [], ◌∷◌, List, ℕ, None, true, false, length, take, drop, map, filter, fold, is_some, All, option_map, bytes_eq, IfOk, OnOk};
ghost use Rattle.std.specs.List.{list_any, flat_map};
ghost use Rattle.rd_base.specs.Swap.{is_row_word};
ghost use Rattle.rd_base.specs.Limits.{AreLimits};
ghost use Rattle.rd_rules.specs.Exchange as rule;
ghost use Rattle.rd_rules.specs.Step.{sent_before};
ghost use Rattle.rd_rules.specs.Wanted.{add_word, is_unknown, unknown_words, words_read};
ghost use Rattle.rd_reading.specs.Whole.{IsAsked, IsDone};
ghost use Rattle.rd_reading.specs.Seen.{seen_request, seen_exchange, seen_front, seen_reading, rules_of, rows_are};
ghost use Rattle.rd_base.specs.History.{piece_of};
ghost use Rattle.rd_core.specs.Alone.{IsAlone};
ghost use Rattle.rd_core.specs.Stages.{HasAsked};

use crate::own_lists::{after_rows, latest};
use crate::stage::Stage;
use rd_base::{Link, NoMemory, Rows, What, Words, is_row_word};
use rd_dialect::Dialect;
use rd_reading::{Front, Reading, Request, Setup, first_bytes, note_of, read_on};
use rd_token_map::OwnRows;
use std::alloc::Global;

/// The most words that are asked in one step.
const MOST_WORDS: usize = 4096;

fn has_word(words: &Words, word: &[u8]) -> bool
    ensures { result ≡ list_any (λ other. bytes_eq other word.now) words.now }
{
    for place in 0..words.len() {
        if words.at(place) == word {
            return true;
        }
    }
    false
}

/// Adds a word that isn't there, where there is room.
fn push_new(words: &mut Words, word: &[u8]) -> Result<(), NoMemory>
    requires { length words.old ≤ 4096 }
    ensures { OnOk result (words.new ≡ take 4096 (add_word words.old word.now)) }
{
    if words.len() >= MOST_WORDS {
        return Ok(());
    }
    if has_word(words, word) {
        return Ok(());
    }
    words.push(word)
}

/// Adds a word of 16 to 128 bytes that none of the own rows shows.
fn push_unknown(words: &mut Words, own: &Rows, word: &[u8]) -> Result<(), NoMemory>
    requires { length words.old ≤ 4096 }
    ensures { OnOk result (words.new ≡ take 4096
        (fold add_word words.old (filter (λ w. is_row_word w && is_unknown own.now w)
        (word.now ∷ [])))) }
{
    if !is_row_word(word) {
        return Ok(());
    }
    if own.find(word).is_some() {
        return Ok(());
    }
    push_new(words, word)
}

/// Adds those of these words that are of 16 to 128 bytes and that none of the own rows shows.
fn push_all(words: &mut Words, own: &Rows, asked: &Words) -> Result<(), NoMemory>
    requires { length words.old ≤ 4096 }
    ensures { OnOk result (words.new ≡ take 4096
        (fold add_word words.old (filter (λ w. is_row_word w && is_unknown own.now w) asked.now))) }
{
    for place in 0..asked.len() {
        push_unknown(words, own, asked.at(place))?;
    }
    Ok(())
}

/// Adds the words of a request that none of the own rows shows.
fn push_asked<D: Dialect>(
    alloc: Global,
    dialect: &D,
    setup: &Setup,
    own: &Rows,
    request: &Request,
    words: &mut Words,
) -> Result<(), NoMemory>
    requires most { length words.old ≤ 4096 }
    requires asked { IsAsked (D.grammar dialect.now) (seen_request request.now) }
    ensures { OnOk result (words.new ≡ take 4096
        (fold add_word words.old (unknown_words (rules_of (D.grammar dialect.now) setup.now)
        (record { ask = seen_request request.now; own = own.now })))) }
{
    let note = note_of(dialect, request);
    let unit = first_bytes(request.units.as_slice());
    let asked = dialect.asked_words(alloc, request.phase, note, unit)?;
    push_all(words, own, &asked)
}

/// The same, unless the request is skipped.
fn push_fresh<D: Dialect>(
    alloc: Global,
    dialect: &D,
    setup: &Setup,
    skips: bool,
    own: &Rows,
    request: &Request,
    words: &mut Words,
) -> Result<(), NoMemory>
    requires most { length words.old ≤ 4096 }
    requires asked { IsAsked (D.grammar dialect.now) (seen_request request.now) }
    ensures { OnOk result (words.new ≡ take 4096
        (fold add_word words.old (flat_map (unknown_words
        (rules_of (D.grammar dialect.now) setup.now))
        (drop (sent_before skips) (record {
          ask = seen_request request.now;
          own = own.now;
        } ∷ []))))) }
{
    if skips {
        return Ok(());
    }
    push_asked(alloc, dialect, setup, own, request, words)
}

/// The words of the requests of a reading, each once. The first was sent before where one was out.
fn words_in<D: Dialect>(
    alloc: Global,
    dialect: &D,
    setup: &Setup,
    own: &OwnRows,
    was_out: bool,
    reading: &Reading,
) -> Result<Words, NoMemory>
    requires done { All (λ x. IsDone (D.grammar dialect.now) (seen_exchange x))
        reading.now.done.items }
    requires out { HasAsked (D.grammar dialect.now) reading.now.out }
    requires rows { rows_are (rules_of (D.grammar dialect.now) setup.now) reading.now.done.items }
    ensures { IfOk result (λ words. words
        ≡ words_read (rules_of (D.grammar dialect.now) setup.now)
        own.now was_out (seen_reading reading.now)) }
{
    let mut words = Words::new(alloc);
    let mut later = None;
    let mut skips = was_out;
    for exchange in reading.done.as_slice() {
        let rows = latest(own, &later).rows();
        let request = &exchange.request;
        push_fresh(alloc, dialect, setup, skips, rows, request, &mut words)?;
        skips = false;
        later = after_rows(alloc, own, &later, &exchange.replies.rows)?;
    }
    let Some(request) = &reading.out else {
        return Ok(words);
    };
    let rows = latest(own, &later).rows();
    push_fresh(alloc, dialect, setup, skips, rows, request, &mut words)?;
    Ok(words)
}

/// The words of the requests that a happening releases, which withholds nothing. What is open has heard it.
pub(crate) fn words_next<D: Dialect>(
    alloc: Global,
    dialect: &D,
    setup: &Setup,
    stage: &Stage,
    own: &OwnRows,
    front: &Front,
) -> Result<Words, NoMemory>
    requires limits { AreLimits setup.now.limits }
    requires count { stage.now.count ≤ setup.now.limits.exchanges_max }
    ensures { IfOk result (λ words. words
        ≡ words_read (rules_of (D.grammar dialect.now) setup.now)
        own.now (is_some stage.now.out)
        (rule.read (D.grammar dialect.now) setup.now.limits.mask (setup.now.limits.exchanges_max - stage.now.count) (seen_front front.now))) }
{
    let spare = setup.limits.exchanges_max - stage.count;
    let reading = read_on(alloc, dialect, setup, spare, front)?;
    words_in(alloc, dialect, setup, own, stage.out.is_some(), &reading)
}

/// Whether a happening has bytes of this link.
fn is_heard(link: Link, what: &What) -> bool
    ensures { result ≡ false → piece_of link.0 what.now ≡ [] }
{
    match what {
        What::Piece(from, _) => link == *from,
        _ => false,
    }
}

/// Whether one link asks, of which the happening has no bytes, and none are open behind the request that is out. Then
/// nothing more is released.
pub(crate) fn is_alone(stage: &Stage, what: &What) -> bool
    ensures { result ≡ true
        → IsAlone (seen_front stage.now.left) (option_map seen_request stage.now.out) what.now }
{
    let Some(request) = &stage.out else {
        return false;
    };
    let [one] = stage.left.asking.as_slice() else {
        return false;
    };
    if is_heard(one.link(), what) {
        return false;
    }
    one.bytes().len() <= first_bytes(request.units.as_slice()).len()
}
