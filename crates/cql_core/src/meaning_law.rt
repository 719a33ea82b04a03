// The laws of the machine and of the meaning: functions with empty bodies, whose contracts are the
// laws.
ghost use Rattle.cql_core.specs.Binding.{IsBindingLaw};
ghost use Rattle.cql_core.specs.HeadlineLaw.{IsHeadlineLaw};
ghost use Rattle.cql_core.specs.Law.{IsMachineLaw, AreRefusalLaws, AreQueryLaws, IsLimitLaw};
ghost use Rattle.cql_core.specs.Hidden.{IsHiddenLaw};
ghost use Rattle.cql_core.specs.Order.{IsOrderLaw};
ghost use Rattle.cql_core.specs.Rows.{IsRowsHeldLaw};

/// The headline, for each language of queries: whatever commands any tenants send, in whatever
/// order, each tenant is told what its own view means; so lists with equal views of a tenant give
/// it equal replies; and the same of histories with replies, without those of no memory.
pub fn headline_law()
    ensures { IsHeadlineLaw }
{}

/// For each language: what a tenant is told is what it would be told on a server on which no other
/// tenant has a query; the reply to its next command is what its view so far means; and each stub
/// is, by the columns that the tenant sees, what its window needs of all rows in the view.
pub fn machine_law()
    ensures { IsMachineLaw }
{}

/// A command that is refused changes nothing, and neither does one that is told blocks.
pub fn refusals_law()
    ensures { AreRefusalLaws }
{}

/// A query's base, rows and cursor, by what was accepted in the view.
pub fn queries_law()
    ensures { AreQueryLaws }
{}

/// The limit of a query is the least time that its inputs' streams still take.
pub fn limit_law()
    ensures { IsLimitLaw }
{}

/// The rows that a stream holds are as many as some stub needs, or none, and no stub needs more.
pub fn rows_held_law()
    ensures { IsRowsHeldLaw }
{}

/// For each language, what a command means by its checks: it is told the refusal of the first check
/// in the command's order whose fault is there; and with no fault a fetch is told the blocks of any
/// pin whose windows hold what they do of all rows since the registration.
pub fn order_law()
    ensures { IsOrderLaw }
{}

/// For each language, a text has the language's plan over the streams that are found under its
/// names, each input on the stream of its name, or the language's refusal.
pub fn binding_law()
    ensures { IsBindingLaw }
{}

/// For each language: two runs, or two histories with replies, that differ in nothing but values at
/// columns which no grant to a tenant shows tell that tenant the same.
pub fn hidden_law()
    ensures { IsHiddenLaw }
{}
