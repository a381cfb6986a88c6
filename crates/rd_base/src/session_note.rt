/// What an ended session came to, as it is kept for the operator. What an ending doesn't have is 0.
#[derive(Clone, Copy, Debug, PartialEq, Eq)]
pub struct SessionNote {
    /// The session's number: at most 2^63-1.
    pub id: u64,
    /// 0 incoming, 1 outgoing.
    pub side: u8,
    /// 0 plain lines, 1 HTTP, 2 PostgreSQL.
    pub dialect: u8,
    /// When it began, in milliseconds of the clock: at most 2^63-1.
    pub began: u64,
    /// When it ended, in milliseconds of the clock: at most 2^63-1.
    pub ended: u64,
    /// The number of entries in its log.
    pub events: u32,
    /// The number of exchanges that all agreed on.
    pub exchanges: u32,
    /// The number of places that were masked in these exchanges.
    pub masked: u32,
    /// Its ending: 0 Done, 1 Closed, 2 Retired, 3 Disagree, 4 Noise, 5 Malformed, 6 TooBig, 7 Unsupported,
    /// 8 Unsolicited, 9 Broken, 10 Late, 11 LinkFault, 12 Stopped, 13 FullLog, 14 NoMemory, 15 Unstarted.
    pub code: u8,
    /// The ending's link or copy.
    pub link: u8,
    /// The ending's exchange.
    pub exchange: u32,
    /// The ending's place.
    pub place: u32,
    /// The code of Unsupported; of Late 0 Idle, 1 Request, 2 Gather, 3 Reply.
    pub detail: u32,
    /// The number of the copy that was dropped.
    pub dropped: u8,
}

/// What an operator's connection came to.
#[derive(Clone, Copy, Debug, PartialEq, Eq)]
pub enum OperatorEnd {
    /// An answer of this status was written.
    Answered(u16),
    /// The connection ended before its first byte; nothing was written.
    Nothing,
    /// A read failed; nothing was written.
    ReadFail,
    /// The write failed; a prefix of the answer was written.
    WriteFail,
}
