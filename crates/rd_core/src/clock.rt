/// The entries so far, their moment in milliseconds, and the moment at which what the session waits for began.
#[derive(Clone, Copy, Debug, PartialEq, Eq)]
pub(crate) struct Clock {
    pub(crate) entries: u32,
    pub(crate) moment: u64,
    pub(crate) began: u64,
}
