ghost use Rattle.std.specs.Prelude.{◌≡◌, ◌+◌, ◌≤◌, ◌<◌, length, IfOk};
ghost use Rattle.rd_pg_frame.specs.Fronts.{front_of, sized, measured, ends, status_ends};

use crate::message::{be_u32_at, is_length};
use crate::role::Role;
use crate::table::LetterTable;
use rd_base::Scan;

/// The message at the front of some bytes: its bytes, letter and length included, and whether it ends its unit.
#[derive(Clone, Copy, Debug, PartialEq, Eq)]
pub struct Front {
    pub size: usize,
    pub is_last: bool,
}

/// The message at the front of these bytes, or what they scan as without a whole one.
pub fn front_of<T: LetterTable>(table: &T, is_first: bool, bytes: &[u8]) -> Result<Front, Scan>
    ensures front { result ≡ front_of (T.letters table.now) is_first bytes.now }
    ensures some_bytes { IfOk result (λ f. 0 < f.size) }
    ensures within { IfOk result (λ f. f.size ≤ length bytes.now) }
{
    let Some((letter, rest)) = bytes.split_first() else {
        return Err(Scan::More);
    };
    let role = table.role_of(is_first, *letter)?;
    sized(table, role, rest)
}

/// The message that goes on behind its letter like this.
fn sized<T: LetterTable>(table: &T, role: Role, rest: &[u8]) -> Result<Front, Scan>
    ensures front { result ≡ sized (T.letters table.now) rest.now role }
    ensures some_bytes { IfOk result (λ f. 0 < f.size) }
    ensures within { IfOk result (λ f. f.size ≤ length rest.now + 1) }
{
    if rest.len() < 4 {
        return Err(Scan::More);
    }
    measured(table, role, be_u32_at(rest, 0), rest)
}

/// The message of this length that goes on behind its letter like this.
fn measured<T: LetterTable>(table: &T, role: Role, len: u32, rest: &[u8]) -> Result<Front, Scan>
    requires { 4 ≤ length rest.now }
    ensures front { result ≡ measured (T.letters table.now) role len rest.now }
    ensures some_bytes { IfOk result (λ f. 0 < f.size) }
    ensures within { IfOk result (λ f. f.size ≤ length rest.now + 1) }
{
    if !is_length(len) {
        return Err(Scan::Bad);
    }
    let is_last = ends(table, role, len, &rest[4..])?;
    if rest.len() < len as usize {
        return Err(Scan::More);
    }
    Ok(Front {
        size: len as usize + 1,
        is_last,
    })
}

/// Whether a message of this length ends its unit, by as much of its content as is there.
fn ends<T: LetterTable>(table: &T, role: Role, len: u32, content: &[u8]) -> Result<bool, Scan>
    ensures { result ≡ ends (T.letters table.now) role len content.now }
{
    match role {
        Role::Inner => Ok(false),
        Role::Last => Ok(true),
        Role::Authentication if len < 8 => Err(Scan::Bad),
        Role::Authentication if content.len() < 4 => Err(Scan::More),
        Role::Authentication => table.code_ends(be_u32_at(content, 0)),
        Role::Status if len == 5 => status_ends(content),
        Role::Status => Err(Scan::Bad),
    }
}

/// Whether a transaction status is there that ends its unit.
fn status_ends(content: &[u8]) -> Result<bool, Scan>
    ensures { result ≡ status_ends content.now }
{
    match content.first() {
        Some(b'I' | b'T' | b'E') => Ok(true),
        Some(_) => Err(Scan::Bad),
        None => Err(Scan::More),
    }
}
