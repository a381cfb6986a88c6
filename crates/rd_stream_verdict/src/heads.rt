ghost use Rattle.std.specs.Prelude.{◌≡◌, ◌≤◌, ◌<◌, ◌+◌, ◌++◌, length, map, replicate, slice_get, Some};
ghost use Rattle.rd_stream_verdict.specs.Heads.{heads_with};
ghost use Rattle.rd_stream_verdict.specs.Sharing.{sharing};

use crate::copy::CopyBuffer;
use crate::shared::SharedToken;
use crate::token::TokenRef;
use arrayvec::ArrayVec;

/// The copies' next tokens, where the first so many share one and one of the copies has this one now.
pub(crate) fn heads_with<'a>(
    copies: &'a [CopyBuffer],
    shared: &'a SharedToken,
    sharers: usize,
    copy: usize,
    head: Option<TokenRef<'a>>,
) -> ArrayVec<Option<TokenRef<'a>>, 8>
    requires there { copy < length copies.now }
    requires few { length copies.now ≤ 8 }
    requires most { sharers ≤ length copies.now }
    ensures { result.items ≡ heads_with copy head.entry (sharing sharers shared.now copies.now) }
{
    let mut heads = ArrayVec::new();
    push_shared(&mut heads, shared, sharers);
    push_heads(&mut heads, &copies[sharers..]);
    heads.as_mut_slice()[copy] = head;
    heads
}

fn push_shared<'a>(
    heads: &mut ArrayVec<Option<TokenRef<'a>>, 8>,
    shared: &'a SharedToken,
    sharers: usize,
)
    requires { length heads.old.items + sharers ≤ 8 }
    ensures { heads.new.items ≡ heads.old.items ++ replicate sharers (Some shared.now) }
{
    for i in 0..sharers {
        heads.push(Some(shared.token()));
    }
}

fn push_heads<'a>(heads: &mut ArrayVec<Option<TokenRef<'a>>, 8>, copies: &'a [CopyBuffer])
    requires { length heads.old.items + length copies.now ≤ 8 }
    ensures { heads.new.items ≡ heads.old.items ++ map (λ c. slice_get c.waiting 0) copies.now }
{
    for copy in copies {
        heads.push(copy.head());
    }
}
