ghost use Rattle.std.specs.Prelude.{◌≡◌, ◌≤◌, ◌<◌, ◌^◌, ◌+◌, length, All, IfOk, OnOk};
ghost use Rattle.rd_base.specs.Limits.{AreMaskLimits};
ghost use Rattle.rd_verdict.specs.LiesIn.{LiesIn};

use rd_base::{Bytes, MaskLimits, NoMemory, Row, Rows, TokenKind, TokenSpan, Verdict, cut_at};
use rd_stream_verdict::StreamVerdict;
use rd_verdict::{Copies, Spans, judge, rows_of};
use std::alloc::{AllocError, Global};
use std::process::Abort;
use std::test::Fail;

const MOST: MaskLimits = MaskLimits {
    places: 64,
    bytes: 128,
};

const LEAST: MaskLimits = MaskLimits {
    places: 0,
    bytes: 1,
};

/// One copy's text, and how far it has been said.
#[derive(Drop)]
struct Speaker<'a> {
    text: &'a [u8],
    start: usize,
    is_done: bool,
}

impl<'a> Speaker<'a> {
    fn new(text: &'a str) -> Speaker<'a> {
        Speaker {
            text: text.as_bytes(),
            start: 0,
            is_done: false,
        }
    }

    /// Says the next word or other byte, or that there is no more, if that wasn't said before.
    fn speak(
        &mut self,
        rt: &impl Abort,
        verdict: &mut StreamVerdict,
        copy: u8,
    ) -> Result<(), NoMemory> {
        if self.is_done {
            return Ok(());
        }
        assert!(rt; verdict.can_take(copy));
        if self.start < self.text.len() {
            let cut = cut_at(self.text, self.start);
            verdict.feed(copy, cut.kind(), &self.text[self.start..cut.end])?;
            self.start = cut.end;
        } else {
            verdict.close(copy);
            self.is_done = true;
        }
        Ok(())
    }
}

/// What three copies come to that say these texts in this order: a number whose digits to base 3 are copies. What is
/// left then is said in turn.
fn streamed(
    rt: &impl Abort,
    alloc: Global,
    texts: [&str; 3],
    most: MaskLimits,
    order: u32,
) -> Result<StreamVerdict, NoMemory>
    requires { AreMaskLimits most }
{
    let mut verdict = StreamVerdict::new(alloc, 3, most)?;
    let [first, second, third] = texts;
    let mut first = Speaker::new(first);
    let mut second = Speaker::new(second);
    let mut third = Speaker::new(third);
    let mut left = order;
    for _ in 0..12 {
        match left % 3 {
            0 => first.speak(rt, &mut verdict, 0)?,
            1 => second.speak(rt, &mut verdict, 1)?,
            _ => third.speak(rt, &mut verdict, 2)?,
        }
        left /= 3;
    }
    for _ in 0..4 {
        first.speak(rt, &mut verdict, 0)?;
        second.speak(rt, &mut verdict, 1)?;
        third.speak(rt, &mut verdict, 2)?;
    }
    Ok(verdict)
}

/// The spans of a text's words and of its other bytes.
fn cut_words(alloc: Global, text: &[u8]) -> Result<Spans, NoMemory>
    requires { length text.now < 2 ^ 32 }
    ensures within { IfOk result (λ spans. All (LiesIn (length text.now)) spans) }
    ensures count { IfOk result (λ spans. length spans < 2 ^ 32) }
{
    let mut spans = Spans::new(alloc);
    let mut start = 0;
    while start < text.len() {
        let cut = cut_at(text, start);
        spans.push(TokenSpan {
            kind: cut.kind(),
            start: start as u32,
            end: cut.end as u32,
        })?;
        start = cut.end;
    }
    Ok(spans)
}

fn push_text(copies: &mut Copies, alloc: Global, text: &str) -> Result<(), NoMemory>
    requires room { length copies.old < 8 }
    requires short { length text.now < 2 ^ 32 }
    ensures { OnOk result (length copies.new ≡ length copies.old + 1) }
{
    let spans = cut_words(alloc, text.as_bytes())?;
    copies.push_copy(Bytes::from_slice(alloc, text.as_bytes())?, spans)
}

fn copies_of(rt: &impl Abort, alloc: Global, texts: [&str; 3]) -> Result<Copies, NoMemory>
    ensures { IfOk result (λ copies. length copies ≡ 3) }
{
    let mut copies = Copies::new(alloc);
    let [first, second, third] = texts;
    assert!(rt; first.len() < 1000 && second.len() < 1000 && third.len() < 1000);
    push_text(&mut copies, alloc, first)?;
    push_text(&mut copies, alloc, second)?;
    push_text(&mut copies, alloc, third)?;
    Ok(copies)
}

fn shown(alloc: Global, verdict: &Verdict) -> Result<String, AllocError> {
    match verdict {
        Verdict::Agreed(mask) => {
            let mut text = String::from_str(alloc, "agreed")?;
            for index in 0..mask.len() {
                let place = mask.at(index);
                text.push_str(format!(in alloc; " {place}")?.as_str())?;
            }
            Ok(text)
        }
        Verdict::Disagree { copy, place } => format!(in alloc; "disagree {copy} {place}"),
        Verdict::Noise { place } => format!(in alloc; "noise {place}"),
    }
}

fn shown_answer(alloc: Global, verdict: &StreamVerdict) -> Result<String, AllocError> {
    match verdict.answer() {
        Some(found) => shown(alloc, &found),
        None => String::from_str(alloc, "none"),
    }
}

fn is_same_row(rt: &impl Abort, a: &Row, b: &Row) {
    assert_eq!(rt; a.len(), b.len());
    for copy in 0..a.len() {
        assert_eq!(rt; a.own(copy), b.own(copy));
    }
}

fn are_same_rows(rt: &impl Abort, a: &Rows, b: &Rows) {
    assert_eq!(rt; a.len(), b.len());
    for index in 0..a.len() {
        is_same_row(rt, a.at(index), b.at(index));
    }
}

/// The rows of both verdicts, where they agree.
fn learn_the_same(
    rt: &impl Abort,
    alloc: Global,
    verdict: &StreamVerdict,
    copies: &Copies,
) -> Result<(), NoMemory>
    requires { 3 ≤ length copies.now }
{
    if let Some(Verdict::Agreed(_)) = verdict.answer() {
        if let Verdict::Agreed(mask) = judge(copies, MOST) {
            are_same_rows(rt, &verdict.learnt()?, &rows_of(alloc, copies, &mask)?);
        }
    }
    Ok(())
}

/// In every order, texts of at most two tokens come to this, as their whole lists do.
fn comes_to(rt: &impl Abort, alloc: Global, texts: [&str; 3], want: &str) -> Result<(), Fail> {
    let copies = copies_of(rt, alloc, texts)?;
    assert_eq!(rt; shown(alloc, &judge(&copies, MOST))?.as_str(), want);
    for order in 0..19683 {
        let verdict = streamed(rt, alloc, texts, MOST, order)?;
        assert_eq!(rt; shown_answer(alloc, &verdict)?.as_str(), want);
        learn_the_same(rt, alloc, &verdict, &copies)?;
    }
    Ok(())
}

#[test]
fn comes_to_the_same_in_every_order(rt: HostRuntime) -> Result<(), Fail> {
    let alloc = rt.alloc();
    let table = [
        (["", "", ""], "agreed"),
        (["a;", "a;", "a;"], "agreed"),
        (["a;", "b;", "c;"], "agreed 0"),
        (["a;", "b;", "c:"], "disagree 2 1"),
        (["a;", "b;", ";;"], "disagree 2 0"),
        (["a;", "a;", "b;"], "disagree 2 0"),
        (["a;", "a:", "a;"], "disagree 1 1"),
        (["a", "a;", "a"], "disagree 1 1"),
        (["a;", "a;", "a"], "disagree 2 1"),
        (["", "a", ""], "disagree 1 0"),
        (["a", "", ""], "disagree 1 0"),
        (
            [
                "aaaaaaaaaaaaaaaa;",
                "bbbbbbbbbbbbbbbb;",
                "cccccccccccccccc;",
            ],
            "agreed 0",
        ),
    ];
    for (texts, want) in table {
        comes_to(&rt, alloc, texts, want)?;
    }
    Ok(())
}

/// Texts of words that differ, under the least limits.
#[test]
fn masks_within_the_limits(rt: HostRuntime) -> Result<(), Fail> {
    let alloc = rt.alloc();
    let one = MaskLimits {
        places: 1,
        bytes: 2,
    };
    let table = [
        (LEAST, ["a;", "b;", "c;"], "noise 0"),
        (LEAST, ["a;", "a;", "b;"], "disagree 2 0"),
        (one, ["aa;", "bb;", "cc;"], "agreed 0"),
        (one, ["aa;", "bb;", "ccc;"], "noise 0"),
        (one, ["a;b", "b;a", "c;d"], "noise 2"),
    ];
    for (most, texts, want) in table {
        for order in [0, 1, 5, 7776, 19682] {
            let verdict = streamed(&rt, alloc, texts, most, order)?;
            assert_eq!(rt; shown_answer(alloc, &verdict)?.as_str(), want);
        }
    }
    Ok(())
}

/// Feeds one token to each of three copies, of which none but the first may keep more than its masked tokens and
/// this one.
fn take_turns(
    rt: &impl Abort,
    verdict: &mut StreamVerdict,
    kind: TokenKind,
    text: &[u8],
) -> Result<(), NoMemory> {
    for copy in 0..3 {
        assert!(rt; verdict.can_take(copy));
        verdict.feed(copy, kind, text)?;
        assert!(rt; verdict.can_take(1) && verdict.can_take(2));
        assert!(rt; verdict.kept(1) <= 8193 && verdict.kept(2) <= 8193);
    }
    Ok(())
}

fn close_all(rt: &impl Abort, verdict: &mut StreamVerdict) {
    for copy in 0..3 {
        assert!(rt; verdict.can_take(copy));
        assert!(rt; verdict.answer().is_none());
        verdict.close(copy);
    }
}

#[test]
fn keeps_little_in_turn(rt: HostRuntime) -> Result<(), Fail> {
    let alloc = rt.alloc();
    let mut verdict = StreamVerdict::new(alloc, 3, MOST)?;
    for _ in 0..100_000 {
        take_turns(&rt, &mut verdict, TokenKind::Firm, b";")?;
    }
    close_all(&rt, &mut verdict);
    assert_eq!(rt; shown_answer(alloc, &verdict)?.as_str(), "agreed");
    Ok(())
}

#[test]
fn compares_names_without_case(rt: HostRuntime) -> Result<(), Fail> {
    let alloc = rt.alloc();
    for (name, want) in [("hOST", "agreed"), ("Hosts", "disagree 2 0")] {
        let mut verdict = StreamVerdict::new(alloc, 3, MOST)?;
        for (copy, name) in [(0, "Host"), (1, "host"), (2, name)] {
            assert!(rt; verdict.can_take(copy));
            verdict.feed(copy, TokenKind::Name, name.as_bytes())?;
        }
        if want == "agreed" {
            close_all(&rt, &mut verdict);
        }
        assert_eq!(rt; shown_answer(alloc, &verdict)?.as_str(), want);
    }
    Ok(())
}

/// One word of one copy, for a test of many masked places.
fn numbered(alloc: Global, word: u32, copy: u8) -> Result<String, AllocError> {
    format!(in alloc; "w{word}k{copy}")
}

#[test]
fn masks_64_places(rt: HostRuntime) -> Result<(), Fail> {
    let alloc = rt.alloc();
    for (words, want) in [(64, "none"), (65, "noise 64")] {
        let mut verdict = StreamVerdict::new(alloc, 3, MOST)?;
        for word in 0..words {
            for copy in 0..3 {
                let text = numbered(alloc, word, copy)?;
                assert!(rt; verdict.can_take(copy));
                verdict.feed(copy, TokenKind::Soft, text.as_bytes())?;
            }
        }
        assert_eq!(rt; shown_answer(alloc, &verdict)?.as_str(), want);
    }
    Ok(())
}
