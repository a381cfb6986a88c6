ghost use Rattle.std.specs.Prelude.{◌≡◌, [], ◌∷◌, fold};
ghost use Rattle.left_right.specs.Handles.{published, pending};

use left_right::{Absorb, WriteHandle};
use std::marker::Model;
use std::sync::Wait;

/// The writer, as it lies under the lock, with nothing pending. To a contract it is what is published.
#[derive(Drop)]
pub(crate) struct Desk<T: Absorb<O> + Drop, O: Drop, R: Wait + Copy> {
    writer: WriteHandle<T, O, R>,
}

impl<T: Absorb<O> + Drop, O: Drop, R: Wait + Copy> Model for Desk<T, O, R> {
    ghost Value = { T };

    ghost view = { λ d. published d.writer };

    ghost invariant = { λ d. pending d.writer ≡ [] };
}

impl<T: Absorb<O> + Drop, O: Drop, R: Wait + Copy> Desk<T, O, R> {
    pub fn new(writer: WriteHandle<T, O, R>) -> Desk<T, O, R>
        requires { pending writer ≡ [] }
        ensures { result ≡ published writer }
    {
        Desk { writer }
    }

    pub fn published(&self) -> &T
        ensures { result.now ≡ self.now }
    {
        self.writer.published()
    }

    /// Publishes the operation.
    pub fn put(&mut self, rt: &R, operation: O)
        ensures { T.state self.new ≡ T.applied (T.state self.old) operation }
    {
        append(rt, &mut self.writer, operation);
        publish(rt, &mut self.writer);
    }
}

/// Appends the operation. Where there is no memory it tries again.
fn append<T: Absorb<O> + Drop, O: Drop, R: Wait + Copy>(
    rt: &R,
    writer: &mut WriteHandle<T, O, R>,
    operation: O,
)
    requires { pending writer.old ≡ [] }
    ensures published { published writer.new ≡ published writer.old }
    ensures pending { pending writer.new ≡ operation ∷ [] }
{
    let mut operation = operation;
    for _ in rt.forever() {
        match writer.append(operation) {
            Ok(()) => return,
            Err(back) => operation = back,
        }
    }
    unreachable!()
}

/// Publishes what is pending. Where there is no memory it tries again.
fn publish<T: Absorb<O> + Drop, O: Drop, R: Wait + Copy>(rt: &R, writer: &mut WriteHandle<T, O, R>)
    ensures state { T.state (published writer.new)
        ≡ fold T.applied (T.state (published writer.old)) (pending writer.old) }
    ensures pending { pending writer.new ≡ [] }
{
    for _ in rt.forever() {
        if writer.publish().is_ok() {
            return;
        }
    }
    unreachable!()
}
