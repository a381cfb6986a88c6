ghost use Rattle.std.specs.Prelude.{◌≡◌};
ghost use Rattle.rd_pg_frame.specs.Letters.{Letters};
ghost use Rattle.rd_pg_frame.specs.Fronts.{role_of, code_ends};

use crate::role::Role;
use rd_base::Scan;

/// A table of letters: which messages a unit of one kind is made of, and which of them end it.
pub trait LetterTable {
    ghost letters: { Self → Letters };

    /// What a message of this letter is to the unit, or why it may not stand there.
    fn role_of(&self, is_first: bool, letter: u8) -> Result<Role, Scan>
        ensures { result ≡ role_of (letters self.now) is_first letter };

    /// Whether an authentication message with this code ends the unit.
    fn code_ends(&self, code: u32) -> Result<bool, Scan>
        ensures { result ≡ code_ends (letters self.now) code };
}
