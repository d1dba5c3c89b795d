// What is true of plans, best costs and bounds, each stated by the contract of a function that does
// nothing, so that the check asks for its proof.
ghost use Rattle.plan.specs.Facts.{EveryPlanCosts, EveryStateHasOneBest, LawfulIsBelowBest, LawfulIsKeptAlways, MarksMakePlans};

// A closed and proper plan has exactly one cost, and a plan that has a cost is closed and proper.
pub fn every_plan_costs()
    ensures { EveryPlanCosts }
{}

// Every state has exactly one best cost.
pub fn every_state_has_one_best()
    ensures { EveryStateHasOneBest }
{}

// Lawful bounds are at most the best costs.
pub fn lawful_is_below_best()
    ensures { LawfulIsBelowBest }
{}

// A raise and a price that rises keep bounds lawful, and so does knowing nothing.
pub fn lawful_is_kept()
    ensures { LawfulIsKeptAlways }
{}

// What is kept at planned states is a plan that costs the bound, which is the best cost.
pub fn marks_make_plans()
    ensures { MarksMakePlans }
{}
