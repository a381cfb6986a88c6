ghost use Rattle.std.specs.Prelude.{◌≡◌, ◌≤◌, ◌<◌, ◌^◌, List, length, true, All, IfOk, IfSome, option_map, slice_get, Some, None, if◌then◌else◌};
ghost use Rattle.std.specs.List.{list_all};
ghost use Rattle.rd_base.specs.Swap.{is_row_word, IsRowWord};
ghost use Rattle.rd_base.specs.Verdicts.{verdict, rows_at, texts_at, is_soft};
ghost use Rattle.rd_base.specs.declared.verdict.Verdict.TheVariants.{Agreed};

use crate::copies::Copies;
use crate::tokens::Tokens;
use rd_base::{Mask, NoMemory, Row, Rows, is_row_word};
use std::alloc::Global;

/// The rows of an agreed verdict: the copies' words at each masked place where all are words of 16 to 128 bytes.
pub fn rows_of(alloc: Global, copies: &Copies, mask: &Mask) -> Result<Rows, NoMemory>
    requires three { 3 ≤ length copies.now }
    requires agreed { verdict (record { places = 64; bytes = 128 }) copies.now ≡ Agreed mask.now }
    ensures { IfOk result (λ rows. rows ≡ rows_at copies.now mask.now) }
{
    let lists = copies.lists();
    let mut rows = Rows::new(alloc);
    for index in 0..mask.len() {
        if let Some(row) = row_at(lists, mask.at(index) as usize) {
            rows.push(&row)?;
        }
    }
    Ok(rows)
}

/// The row of a place where all tokens are Soft, if all are words that a row may hold.
fn row_at(lists: &[Tokens], place: usize) -> Option<Row>
    requires some { 1 ≤ length lists.now }
    requires few { length lists.now ≤ 8 }
    requires soft { All (λ tokens. is_soft (slice_get tokens place) ≡ true) lists.now }
    ensures { result ≡ (if list_all is_row_word (texts_at lists.now place)
        then Some (texts_at lists.now place) else None) }
{
    let shown = row_word(lists[0].word_at(place))?;
    let mut row = Row::start(shown);
    for list in &lists[1..] {
        row.push_own(row_word(list.word_at(place))?);
    }
    Some(row)
}

/// The word, if a row may hold it.
fn row_word(word: &[u8]) -> Option<&[u8]>
    ensures word { option_map (λ w. w.now) result
        ≡ (if is_row_word word.now then Some word.now else None) }
    ensures fits { IfSome result (λ w. IsRowWord w.now) }
{
    if is_row_word(word) { Some(word) } else { None }
}
