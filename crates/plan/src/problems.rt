// What plans are costed by.
use cost::PriceList;

// What plans are costed by: a model, a rule that counts the costs of an action's outcomes, and the
// prices of the tasks.
#[derive_where(Clone, Copy)]
pub struct Problem<'a, M, R> {
    pub model: &'a M,
    pub rule: &'a R,
    pub prices: &'a PriceList,
}
