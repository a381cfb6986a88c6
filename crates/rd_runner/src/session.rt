use rd_base::Ending;
use rd_doors::Run;

/// What a session came to, in numbers.
#[derive(Clone, Copy, Debug, PartialEq, Eq)]
pub struct Summary {
    pub ending: Ending,
    /// The stamp of its log's last entry in milliseconds, 0 where it has none.
    pub last: u64,
    /// The number of entries in its log.
    pub events: u32,
    /// The number of exchanges that all agreed on.
    pub exchanges: u32,
    /// The number of places that were masked in these exchanges.
    pub masked: u32,
}

/// A session that has ended, with the sinks of its links in their order.
#[derive(Drop)]
pub struct Ended<S, K, L> {
    pub run: Run<S, L>,
    pub sinks: Vec<K>,
}
