//! The law of things under names.
ghost use Rattle.cql_tenants.specs.StreamLaw.{IsIndexLaw};

/// What stands at a name's index is what a look-up of the name finds, under that name.
pub fn index_law()
    ensures { IsIndexLaw }
{}
