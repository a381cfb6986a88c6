ghost use Rattle.std.specs.Prelude.{◌≡◌, if◌then◌else◌};
ghost use Rattle.rd_http_frame.specs.declared.body.BodyRule.TheVariants.{Empty, UntilEnd};
ghost use Rattle.rd_http_frame.specs.Places.{rule_of, has_no_body};

use crate::fields::Framing;
use crate::head::Head;

/// Where a body ends.
#[derive(Clone, Copy, Debug, PartialEq, Eq)]
pub enum BodyRule {
    /// There is none.
    Empty,
    /// After so many bytes.
    Length(u64),
    /// After its last chunk and a trailer.
    Chunked,
    /// Where its link ends.
    UntilEnd,
}

/// Where the body of this head ends, but that a reply to HEAD has none whatever this says.
/// The head was read from these bytes.
pub fn body_rule(head: &Head, _bytes: &[u8]) -> BodyRule
    ensures { result ≡ head.now.body }
{
    head.body()
}

/// What the fields say of the body; `unstated` where they say nothing.
pub(crate) fn rule_of(unstated: BodyRule, framing: Option<Framing>) -> BodyRule
    ensures { result ≡ rule_of unstated framing }
{
    match framing {
        None | Some(Framing::Unstated) => unstated,
        Some(Framing::Length(size)) => BodyRule::Length(size),
        Some(Framing::Chunks) => BodyRule::Chunked,
    }
}

/// Whether a reply of this status has no body.
fn has_no_body(status: u16) -> bool
    ensures { result ≡ has_no_body status }
{
    (status >= 100 && status < 200) || status == 204 || status == 304
}

/// Where a reply's body ends, but for a reply to HEAD.
pub(crate) fn reply_rule(status: u16, framing: Option<Framing>) -> BodyRule
    ensures { result ≡ if has_no_body status then Empty else rule_of UntilEnd framing }
{
    if has_no_body(status) {
        BodyRule::Empty
    } else {
        rule_of(BodyRule::UntilEnd, framing)
    }
}
