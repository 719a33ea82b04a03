// The laws of the typing: functions with empty bodies, whose contracts are the laws.
ghost use Rattle.cql_plan.specs.Law.{
  IsColumnLaw,
  IsFirstFaultLaw,
  IsFormLaw,
  IsQualifiedLaw,
};
ghost use Rattle.cql_plan.specs.PortsRead.{IsPortsLaw, IsPlainLaw};
ghost use Rattle.cql_plan.specs.Projected.{IsSeenLaw};

/// A written column means the one column of the joined row that it may mean; it is unknown where
/// there is none, and ambiguous where there are two.
pub fn column_law()
    ensures { IsColumnLaw }
{}

/// Of inputs, columns of GROUP BY and items the first fault from the left is told, and where there
/// is none each gives what stands at its index.
pub fn first_fault_law()
    ensures { IsFirstFaultLaw }
{}

/// Where the inputs have distinct aliases, and each stream distinct columns, a column with an
/// alias before the dot is never ambiguous.
pub fn qualified_law()
    ensures { IsQualifiedLaw }
{}

/// The inputs of a plan are streams that can be read, and each has a port of its own, with the
/// types of the columns that are seen, and their indices.
pub fn ports_law()
    ensures { IsPortsLaw }
{}

/// A plan's nodes fit each other: conditions compare columns of one type, items are typed over the
/// joined row, what one node gives goes into the next, and two blocks have the same columns.
pub fn form_law()
    ensures { IsFormLaw }
{}

/// The plan of a query of one block over one input, which says `*` and has no DISTINCT, WHERE and
/// GROUP BY, shows all columns of all its input's rows.
pub fn plain_law()
    ensures { IsPlainLaw }
{}

/// What columns of a stream a caller doesn't see decides nothing but where those that it sees stand:
/// the plan, or the fault, is that over streams which have the seen columns alone, with each input's
/// window and projection widened to the whole rows.
pub fn seen_law()
    ensures { IsSeenLaw }
{}
