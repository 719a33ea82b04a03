// What tells a query from others that live.

/// Where the first window of a query stands: whose stream it is, which of these, and its number there. No other
/// query that lives has it. What is kept of a query's answers is looked up by that key; whether it is the query's is
/// then seen by what it is, and no contract rests on a key.
#[derive(Clone, Copy, PartialEq, Eq, Hash)]
pub struct QueryKey {
    pub owner: usize,
    pub stream: usize,
    pub stub: usize,
}

/// The key of no query.
pub const NO_QUERY: QueryKey = QueryKey {
    owner: usize::MAX,
    stream: 0,
    stub: 0,
};
