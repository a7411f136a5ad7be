//! Laws that relate the definitions to one another. A law is its contract: it computes nothing.

ghost use Rattle.std.specs.Prelude.{◌≡◌, ℕ, ℤ, List};
ghost use Rattle.th_search.specs.Limits.{max_arcs, max_cost, max_vertices};
ghost use Rattle.th_search.specs.Potentials.{ArePotentials, IsFeasible};
ghost use Rattle.th_search.specs.Walks.{IsNegativeCycle};
ghost use Rattle.th_search.specs.declared.arcs.Arc.{Arc as AnArc};

use crate::limits::{MAX_ARCS, MAX_COST, MAX_VERTICES};

/// The constants are the limits that contracts cite.
pub fn constants_are_the_limits()
    ensures vertices { MAX_VERTICES ≡ max_vertices }
    ensures arcs { MAX_ARCS ≡ max_arcs }
    ensures cost { MAX_COST ≡ max_cost }
{}

/// If there are potentials, no cycle costs less than 0: along each arc the potential rises by at
/// most the arc's cost, and round a cycle the rises sum to 0. So each network has only one of the
/// two kinds of answers.
pub fn potentials_exclude_negative_cycles()
    ensures { (arcs : List AnArc) (values : List ℤ) (walk : List ℕ)
        → IsFeasible arcs values → ¬ IsNegativeCycle arcs walk }
{}
