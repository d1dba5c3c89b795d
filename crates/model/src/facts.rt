// What is true of Trim over any model, stated by the contract of a function that does nothing, so
// that the check asks for its proof.
ghost use Rattle.model.specs.TrimFacts.{TrimBarsReturns};

// Trim bars each action that lists its own state, and changes nothing else.
pub fn trim_bars_returns()
    ensures { TrimBarsReturns }
{}
