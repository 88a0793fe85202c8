//! What small cores give: values of the run, compared with the definitions by computation.
#![tactic(auto)]

ghost use Rattle.core_cases.specs.Arguments.{arguments};
ghost use Rattle.core_cases.specs.Calls.{calls_and_comparisons};
ghost use Rattle.core_cases.specs.DataChanges.{data_changes};
ghost use Rattle.core_cases.specs.Groups.{groups};
ghost use Rattle.core_cases.specs.Inside.{queries_inside};
ghost use Rattle.core_cases.specs.Logic.{truth_values};
ghost use Rattle.core_cases.specs.Selects.{selects};
ghost use Rattle.core_cases.specs.World.{Hold};

/// Truth values, CASE, COALESCE and GREATEST.
pub fn truth_values()
    ensures { Hold truth_values }
{}

/// Calls, casts, comparisons and arrays.
pub fn calls_and_comparisons()
    ensures { Hold calls_and_comparisons }
{}

/// Queries inside expressions.
pub fn queries_inside()
    ensures { Hold queries_inside }
{}

/// FROM, joins, WHERE, DISTINCT, ORDER BY, LIMIT, WITH and set operations.
pub fn selects()
    ensures { Hold selects }
{}

/// Groups and aggregates.
pub fn groups()
    ensures { Hold groups }
{}

/// INSERT, UPDATE and DELETE.
pub fn data_changes()
    ensures { Hold data_changes }
{}

/// Parameters and their arguments.
pub fn arguments()
    ensures { Hold arguments }
{}
