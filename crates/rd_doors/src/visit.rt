/// The links of a visit, in their order: first those of the copies.
#[derive(Drop)]
pub struct Ends<S, K> {
    /// The visit's place among those of clients and callers, from 1.
    pub number: u64,
    pub sources: Vec<S>,
    pub sinks: Vec<K>,
}

/// What comes next.
#[derive(Drop)]
pub enum Visit<S, K> {
    /// A client, with the instances that it is to be heard by.
    Client(Ends<S, K>),
    /// A call of each instance, with the backend.
    Callers(Ends<S, K>),
    /// Somebody at the operator's port.
    Operator(S, K),
    /// Nobody came for a while.
    Quiet,
    /// Nobody comes any more.
    Over,
    /// A visit came to nothing.
    Failed,
    NoMemory,
}

/// A session that has ended: its sources, in the order of links, and what it leaves beside its links.
#[derive(Drop)]
pub struct Run<S, L> {
    pub left: L,
    pub sources: Vec<S>,
}
