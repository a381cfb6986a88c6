/// What a message is to its unit.
#[derive(Clone, Copy, Debug, PartialEq, Eq)]
pub enum Role {
    /// It stands before the last.
    Inner,
    /// It is the last.
    Last,
    /// Inner or last, by the code with which its content begins.
    Authentication,
    /// The last, and its content is a transaction status.
    Status,
}
