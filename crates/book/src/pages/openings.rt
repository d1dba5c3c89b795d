// Setting a book at opening, and dropping what it knows.
ghost use Rattle.std.specs.Prelude.{◌≡◌, ℕ, List, if◌then◌else◌, MatchResult, OnOk};
ghost use Rattle.std.specs.Result.{result_err};
ghost use Rattle.cost.specs.Prices.{figures};
ghost use Rattle.model.specs.Meaning.{is_end, state_at};
ghost use Rattle.model.specs.Reading.{Opens};
ghost use Rattle.plan.specs.Bounds.{LawfulBounds};
ghost use Rattle.book.specs.Estimates.{estimate_fault};
ghost use Rattle.book.specs.Openings.{emptied_page, entries_of, opened_page, opening_bound, unmarked_page};
ghost use Rattle.book.specs.Pages.{Sound, bound_at, page};

use super::{Book, STATES};
use crate::estimates::{check_estimates, estimate};
use crate::faults::EstimateFault;
use cost::{Cost, Rule};
use model::Model;
use plan::Problem;

impl Book {
    // Opens the book with estimates, or without any: they become the bounds, ends are planned and no
    // open state. Estimates of which something is wrong change nothing.
    pub fn open<M: Model, R: Rule>(
        &mut self,
        problem: &Problem<'_, M, R>,
        estimates: &[u32],
    ) -> Result<(), EstimateFault>
        ensures fault { result_err result ≡ estimate_fault (M.Model.meaning problem.now.model.now) R.Rule.value (figures problem.now.prices.now) estimates.now }
        ensures after { MatchResult result (λ _. page self.new ≡ opened_page (M.Model.meaning problem.now.model.now) estimates.now (page self.old)) (λ _. page self.new ≡ page self.old) }
        ensures sound { OnOk result (Opens (M.Model.meaning problem.now.model.now) → Sound (M.Model.meaning problem.now.model.now) R.Rule.value (figures problem.now.prices.now) (page self.new)) }
    {
        check_estimates(problem, estimates)?;
        self.set_up(problem.model, estimates);
        Ok(())
    }

    // Sets the bounds to the estimates, or to what is known without any, and drops all marks but
    // those of ends.
    fn set_up<M: Model>(&mut self, model: &M, estimates: &[u32])
        ensures { page self.new ≡ opened_page (M.Model.meaning model.now) estimates.now (page self.old) }
    {
        self.drop_marks(model);
        let known = &mut self.bounds[..entries(model)];
        // `empty` writes other bounds by the same loop: one function for both would be handed the
        // bound of a state as a closure, and its contract would say in more words what that gives.
        for (state, bound) in known.iter_mut().enumerate() {
            *bound = opening_bound(model, estimates, state);
        }
    }

    // Drops the marks of all open states, and sets their bounds to 0. A book with lawful bounds is
    // then sound at any prices.
    pub fn empty<M: Model>(&mut self, model: &M)
        ensures after { page self.new ≡ emptied_page (M.Model.meaning model.now) (page self.old) }
        ensures sound { (value : List ℕ → ℕ) (old new : List ℕ) → Opens (M.Model.meaning model.now) → LawfulBounds (M.Model.meaning model.now) value old (bound_at (page self.old)) → Sound (M.Model.meaning model.now) value new (page self.new) }
    {
        self.drop_marks(model);
        let known = &mut self.bounds[..entries(model)];
        for (state, bound) in known.iter_mut().enumerate() {
            *bound = emptied_bound(model, state, *bound);
        }
    }

    // Drops the marks of all open states; ends are planned. A book with lawful bounds is then sound.
    pub fn drop_marks<M: Model>(&mut self, model: &M)
        ensures after { page self.new ≡ unmarked_page (M.Model.meaning model.now) (page self.old) }
        ensures sound { (value : List ℕ → ℕ) (prices : List ℕ) → Opens (M.Model.meaning model.now) → LawfulBounds (M.Model.meaning model.now) value prices (bound_at (page self.old)) → Sound (M.Model.meaning model.now) value prices (page self.new) }
    {
        let known = &mut self.planned[..entries(model)];
        for (state, planned) in known.iter_mut().enumerate() {
            *planned = model.is_end(state);
        }
    }
}

// How many of a model's states a book has entries for.
fn entries<M: Model>(model: &M) -> usize
    ensures { result ≡ entries_of (M.Model.meaning model.now) }
{
    model.states().min(STATES)
}

// The bound of a state at opening.
fn opening_bound<M: Model>(model: &M, estimates: &[u32], state: usize) -> Cost
    ensures { result.value ≡ opening_bound (M.Model.meaning model.now) estimates.now state }
{
    if estimates.is_empty() {
        Cost::new(model.end_cost(state))
    } else {
        Cost::new(estimate(estimates, state))
    }
}

// The bound of a state once nothing is known of open states.
fn emptied_bound<M: Model>(model: &M, state: usize, bound: Cost) -> Cost
    ensures { result.value ≡ (if is_end (state_at (M.Model.meaning model.now) state) then bound.value else 0) }
{
    if model.is_end(state) {
        bound
    } else {
        Cost::new(0)
    }
}
