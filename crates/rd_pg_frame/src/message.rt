ghost use Rattle.std.specs.Prelude.{◌≡◌, ◌+◌, ◌≤◌, length, IfSome, Some};
ghost use Rattle.rd_pg_frame.specs.Messages.{be_u16_at, be_u32_at, is_length, message_at, IsMessageAt};

/// A message: its letter, and the places where its content begins and where it ends.
#[derive(Clone, Copy, Debug, PartialEq, Eq)]
pub struct Message {
    pub letter: u8,
    pub from: usize,
    pub to: usize,
}

/// The Int16 at this place, read as an unsigned number.
pub fn be_u16_at(bytes: &[u8], at: usize) -> u16
    requires { at + 2 ≤ length bytes.now }
    ensures { result ≡ be_u16_at bytes.now at }
{
    u16::from_be_bytes([bytes[at], bytes[at + 1]])
}

/// The Int32 at this place, read as an unsigned number.
pub fn be_u32_at(bytes: &[u8], at: usize) -> u32
    requires { at + 4 ≤ length bytes.now }
    ensures { result ≡ be_u32_at bytes.now at }
{
    u32::from_be_bytes([bytes[at], bytes[at + 1], bytes[at + 2], bytes[at + 3]])
}

/// The message that stands at this place. `None` where no whole one does.
pub fn message_at(bytes: &[u8], at: usize) -> Option<Message>
    ensures value { result ≡ message_at bytes.now at }
    ensures there { IfSome result (IsMessageAt bytes.now at) }
    ensures none { (m : Message) → IsMessageAt bytes.now at m → result ≡ Some m }
{
    if bytes.len() < 5 || at > bytes.len() - 5 {
        return None;
    }
    let len = be_u32_at(bytes, at + 1);
    if !is_length(len) || len as usize > bytes.len() - at - 1 {
        return None;
    }
    Some(Message {
        letter: bytes[at],
        from: at + 5,
        to: at + 1 + len as usize,
    })
}

/// Whether a message may have this length: it counts its own four bytes, and is no negative Int32.
pub fn is_length(len: u32) -> bool
    ensures { result ≡ is_length len }
{
    (4..1 << 31).contains(&len)
}
