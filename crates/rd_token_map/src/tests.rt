ghost use Rattle.std.specs.Prelude.{◌≡◌, length};

use crate::{NoBook, OwnRows, TokenBook, form_words, swap_form, swap_words, words_in};
use rd_base::{Row, Rows, is_row_word};
use std::process::Abort;
use std::test::Fail;

fn row_of(rt: &impl Abort, shown: &str, own: &str) -> Row
    ensures { length result ≡ 2 }
{
    assert!(rt; is_row_word(shown.as_bytes()) && is_row_word(own.as_bytes()));
    let mut row = Row::start(shown.as_bytes());
    row.push_own(own.as_bytes());
    row
}

#[test]
fn keeps_the_newest_rows(rt: HostRuntime) -> Result<(), Fail> {
    let alloc = rt.alloc();
    let mut rows = Rows::new(alloc);
    for number in 0..300 {
        let shown = format!(in alloc; "shown-0000-0000-{number}")?;
        rows.push(&row_of(&rt, shown.as_str(), "first-0000-0000-0000"))?;
    }
    rows.push(&row_of(&rt, "shown-0000-0000-100", "second-0000-0000-0000"))?;
    let mut own = OwnRows::new(alloc);
    for place in 0..rows.len() {
        own.learn(&rows, place)?;
    }
    let own = own.copied(alloc)?;
    assert_eq!(rt; own.rows().len(), 256);
    for (place, shown) in [
        (0, "shown-0000-0000-100"),
        (1, "shown-0000-0000-299"),
        (199, "shown-0000-0000-101"),
        (200, "shown-0000-0000-99"),
        (255, "shown-0000-0000-44"),
    ] {
        assert!(rt; place < own.rows().len());
        assert!(rt;
            own.rows().at(place).is_shown(shown.as_bytes()),
            "at {place}"
        );
    }
    let text = "x=shown-0000-0000-100&y=shown-0000-0000-43\n";
    let swapped = swap_words(alloc, 1, own.rows(), &Rows::new(alloc), text.as_bytes())?;
    let want = "x=second-0000-0000-0000&y=shown-0000-0000-43\n";
    assert_eq!(rt; swapped.as_slice(), want.as_bytes());
    Ok(())
}

#[test]
fn swaps_the_values_of_forms(rt: HostRuntime) -> Result<(), Fail> {
    let alloc = rt.alloc();
    let mut own = Rows::new(alloc);
    own.push(&row_of(&rt, "aaaaaaaaaaaaaaaa", "bbbbbbbbbbbbbbbb"))?;
    for (form, want) in [
        ("", ""),
        ("k=", "k="),
        ("k=aaaaaaaaaaaaaaaa", "k=bbbbbbbbbbbbbbbb"),
        ("aaaaaaaaaaaaaaaa", "aaaaaaaaaaaaaaaa"),
        ("=aaaaaaaaaaaaaaaa", "=bbbbbbbbbbbbbbbb"),
        ("&&a&k=aaaaaaaaaaaaaaaa&", "&&a&k=bbbbbbbbbbbbbbbb&"),
        ("k=%61aaaaaaaaaaaaaa%61", "k=bbbbbbbbbbbbbbbb"),
        ("k=aaaaaaaaaaaaaaaa%", "k=aaaaaaaaaaaaaaaa%"),
        ("k=%zz,aaaaaaaaaaaaaaaa", "k=%25zz%2Cbbbbbbbbbbbbbbbb"),
        ("k=aaaaaaaaaaaaaaaa+x", "k=bbbbbbbbbbbbbbbb+x"),
        ("k=aaaaaaaaaaaaaaaa%2Bx", "k=aaaaaaaaaaaaaaaa%2Bx"),
        ("k=aaaaaaaaaaaaaaaa%26%c3%a9", "k=bbbbbbbbbbbbbbbb%26%C3%A9"),
        ("k=%FF+aaaaaaaaaaaaaaaa", "k=%FF+aaaaaaaaaaaaaaaa"),
        (
            "k=%EF%BF%BD+aaaaaaaaaaaaaaaa",
            "k=%EF%BF%BD+aaaaaaaaaaaaaaaa",
        ),
        ("a=b=aaaaaaaaaaaaaaaa", "a=b%3Dbbbbbbbbbbbbbbbb"),
        ("a=%2c&b=aaaaaaaaaaaaaaaa", "a=%2c&b=bbbbbbbbbbbbbbbb"),
    ] {
        let swapped = swap_form(alloc, 1, &own, &Rows::new(alloc), form.as_bytes())?;
        assert_eq!(rt; swapped.as_slice(), want.as_bytes(), "{form}");
    }
    Ok(())
}

#[test]
fn words_that_are_looked_up(rt: HostRuntime) -> Result<(), Fail> {
    let alloc = rt.alloc();
    let words = form_words(alloc, b"a=b,%63&d&=e%FF&f=%EF%BF%BD+g&=h=i+j%2Bk&l=")?;
    let wanted = [b"b".as_slice(), b"c", b"h", b"i", b"j+k"];
    assert_eq!(rt; words.len(), wanted.len());
    for (place, word) in wanted.iter().enumerate() {
        assert!(rt; place < words.len());
        assert_eq!(rt; words.at(place), *word);
    }
    let words = words_in(alloc, b" a,b+c\n")?;
    let wanted = [b"a".as_slice(), b"b+c"];
    assert_eq!(rt; words.len(), wanted.len());
    for (place, word) in wanted.iter().enumerate() {
        assert!(rt; place < words.len());
        assert_eq!(rt; words.at(place), *word);
    }
    Ok(())
}

#[test]
fn no_book_finds_nothing(rt: HostRuntime) -> Result<(), Fail> {
    let mut book = NoBook;
    book.learn(&row_of(&rt, "aaaaaaaaaaaaaaaa", "bbbbbbbbbbbbbbbb"))?;
    assert!(rt; book.find(b"aaaaaaaaaaaaaaaa").is_none());
    Ok(())
}
