ghost use Rattle.std.specs.Prelude.{◌≡◌, false, [], codes, if◌then◌else◌};
ghost use Rattle.rd_base.specs.declared.values.Scan.TheVariants.{Bad, Unsupported};
ghost use Rattle.rd_pg_frame.specs.Letters.{letters_of, password, ready, logging_in, query_reply};
ghost use Rattle.rd_pg_frame.specs.Messages.{is_among};
ghost use Rattle.rd_pg_frame.specs.Fronts.{role_of};

use crate::role::Role;
use crate::table::LetterTable;
use rd_base::{Scan, Side};

/// What kind of unit is read.
#[derive(Clone, Copy, Debug, PartialEq, Eq)]
pub enum Place {
    Password,
    Ready,
    StartupReply(Side),
    PasswordReply,
    QueryReply,
}

impl LetterTable for Place {
    ghost letters = { letters_of };

    fn role_of(&self, is_first: bool, letter: u8) -> Result<Role, Scan> {
        match *self {
            Place::Password => password_role(is_first, letter),
            Place::Ready => ready_role(is_first, letter),
            Place::StartupReply(_) | Place::PasswordReply => login_role(letter),
            Place::QueryReply => query_role(letter),
        }
    }

    fn code_ends(&self, code: u32) -> Result<bool, Scan> {
        match (*self, code) {
            (Place::StartupReply(_) | Place::PasswordReply, 0) => Ok(false),
            (Place::StartupReply(_), 3) | (Place::StartupReply(Side::Outgoing), 5) => Ok(true),
            _ => Err(Scan::Unsupported(code)),
        }
    }
}

fn password_role(is_first: bool, letter: u8) -> Result<Role, Scan>
    ensures { result ≡ role_of password is_first letter }
{
    match letter {
        b'p' | b'X' if is_first => Ok(Role::Last),
        _ => Err(refused_request(letter)),
    }
}

fn ready_role(is_first: bool, letter: u8) -> Result<Role, Scan>
    ensures { result ≡ role_of ready is_first letter }
{
    match letter {
        b'Q' | b'X' if is_first => Ok(Role::Last),
        b'P' | b'B' | b'D' | b'E' | b'C' => Ok(Role::Inner),
        b'S' => Ok(Role::Last),
        _ => Err(refused_request(letter)),
    }
}

fn login_role(letter: u8) -> Result<Role, Scan>
    ensures { result ≡ role_of (logging_in []) false letter }
{
    match letter {
        b'K' | b'S' | b'N' => Ok(Role::Inner),
        b'E' => Ok(Role::Last),
        b'R' => Ok(Role::Authentication),
        b'Z' => Ok(Role::Status),
        _ => Err(refused_reply(letter)),
    }
}

fn query_role(letter: u8) -> Result<Role, Scan>
    ensures { result ≡ role_of query_reply false letter }
{
    match letter {
        b'T' | b'D' | b'C' | b'E' | b'N' | b'I' | b'S' | b'1' | b'2' | b'3' | b'n' | b's' | b't' =>
            Ok(Role::Inner),
        b'Z' => Ok(Role::Status),
        _ => Err(refused_reply(letter)),
    }
}

fn refused_request(letter: u8) -> Scan
    ensures { result ≡ (if is_among (codes "FHdcf") letter then Unsupported letter else Bad) }
{
    match letter {
        b'F' | b'H' | b'd' | b'c' | b'f' => Scan::Unsupported(letter as u32),
        _ => Scan::Bad,
    }
}

fn refused_reply(letter: u8) -> Scan
    ensures { result ≡ (if is_among (codes "AGHVWcdv") letter then Unsupported letter else Bad) }
{
    match letter {
        b'A' | b'G' | b'H' | b'V' | b'W' | b'c' | b'd' | b'v' => {
            Scan::Unsupported(letter as u32)
        }
        _ => Scan::Bad,
    }
}
