// The laws of blocks: functions with empty bodies, whose contracts are the laws.
ghost use Rattle.cql_algebra.specs.Blocks.{AreUnique, IsBlocksLaw, IsLocalLaw};

/// Outputs have one list of blocks.
pub fn blocks_are_unique()
    ensures { AreUnique }
{}

/// There is such a list, and the function of the definitions gives it.
pub fn blocks_law()
    ensures { IsBlocksLaw }
{}

/// Outputs that agree on an interval have the same blocks there.
pub fn local_law()
    ensures { IsLocalLaw }
{}
