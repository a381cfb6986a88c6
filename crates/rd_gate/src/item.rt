ghost use Rattle.std.specs.Prelude.{◌≡◌};
ghost use Rattle.rd_gate.specs.Items.{is_piece, item_of};

use rd_base::{Bytes, Give};

/// What a reader hands to its session: an answer of its source.
#[derive(Drop)]
pub enum Item {
    Piece(Bytes),
    End,
    ReadFail,
    NoMemory,
}

impl Item {
    pub fn of(answer: Give) -> Item
        ensures { result ≡ item_of answer }
    {
        match answer {
            Give::Piece(bytes) => Item::Piece(bytes),
            Give::End => Item::End,
            Give::Failed => Item::ReadFail,
            Give::NoMemory => Item::NoMemory,
        }
    }

    pub fn is_piece(&self) -> bool
        ensures { result ≡ is_piece self.now }
    {
        matches!(self, Item::Piece(_))
    }
}
