ghost use Rattle.std.specs.Prelude.{◌≡◌, ◌≤◌, ◌<◌, length, take, true, false, ℕ};
ghost use Rattle.rd_base.specs.declared.values.Scan.TheVariants.{Whole, More};
ghost use Rattle.rd_dialect.specs.Due.{scan_due, IsDue};

use crate::dialect::Dialect;
use crate::due::Due;
use rd_base::{Part, Scan};

/// The scan of what is due, with what the laws say of a whole unit and of a part of one.
pub fn scan_due<D: Dialect>(dialect: &D, due: Due, bytes: &[u8], ended: bool) -> Scan
    ensures scan { result ≡ scan_due (D.grammar dialect.now) due bytes.now ended }
    ensures within { (len : ℕ) → result ≡ Whole len → len ≤ length bytes.now }
    ensures some_bytes { (len : ℕ) → result ≡ Whole len → 0 < len }
    ensures unit { (len : ℕ) → result ≡ Whole len
        → IsDue (D.grammar dialect.now) due (take len bytes.now) true }
    ensures part { result ≡ More → IsDue (D.grammar dialect.now) due bytes.now false }
{
    scan_by_part(dialect, due, bytes, ended)
}

fn scan_by_part<D: Dialect>(dialect: &D, due: Due, bytes: &[u8], ended: bool) -> Scan
    ensures { result ≡ scan_due (D.grammar dialect.now) due bytes.now ended }
{
    match due.part {
        Part::Request => dialect.scan_request(due.phase, bytes),
        Part::Reply => dialect.scan_reply(due.phase, due.note, bytes, ended),
    }
}
