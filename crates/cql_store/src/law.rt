// The laws of stores: functions with empty bodies, whose contracts are the laws.
ghost use Rattle.cql_store.specs.Calls.{IsStubLaw};
ghost use Rattle.cql_store.specs.Next.{IsNextLaw};

/// After any list of calls, each stub is what the calls alone say: at its cursor the content and
/// the unseen rows of all rows that were appended since it was attached, or overrun, where after
/// some append there were more of these than it may hold.
pub fn stub_law()
    ensures { IsStubLaw }
{}

/// From when on a store takes rows, after each call: from the latest of its rows' times and its
/// stubs' cursors.
pub fn next_law()
    ensures { IsNextLaw }
{}
