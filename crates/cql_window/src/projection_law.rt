// The laws of projections: functions with empty bodies, whose contracts are the laws.
ghost use Rattle.cql_window.specs.ProjectionLaw.{IsWholeProjectionLaw, IsChainLaw, IsWideLaw, IsTwiceLaw, IsNarrowLaw};

/// The projection of a row onto all its columns is the row.
pub fn whole_projection_law()
    ensures { IsWholeProjectionLaw }
{}

/// A projection of a projection is one of the whole row.
pub fn chain_law()
    ensures { IsChainLaw }
{}

/// Over all columns a window is as it is over the whole row.
pub fn wide_law()
    ensures { IsWideLaw }
{}

/// A window is widened in two steps or in one.
pub fn twice_law()
    ensures { IsTwiceLaw }
{}

/// Windows of whole rows, taken through a projection, are windows of the rows taken through it.
pub fn narrow_law()
    ensures { IsNarrowLaw }
{}
