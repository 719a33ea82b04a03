//! The laws of a stream that comes and goes: functions with empty bodies, whose contracts are the laws.
ghost use Rattle.cql_store.specs.StreamsLaw.{IsAddLaw, IsRemoveLaw};

/// Once an owner has one more stream, with no stub, every store and every stub holds what it held.
pub fn add_law()
    ensures { IsAddLaw }
{}

/// Once an owner's last stream is taken away, which has no stub, every store and every stub holds
/// what it held.
pub fn remove_law()
    ensures { IsRemoveLaw }
{}
