//! Laws that relate the definitions to one another. A law is its contract: it computes nothing.

ghost use Rattle.std.specs.Prelude.{◌≡◌, ◌≢◌, ℕ, ◌+◌, ◌-◌, ◌*◌, ◌<◌, ◌≤◌, ℤ, pos, ◌+ℤ◌, ◌-ℤ◌, Bool, true, false, List, ◌∷◌, ◌++◌, ◌⊎◌, ◌↔◌, All, Any, Contains, Option, map, min, unsigned_abs};
ghost use Rattle.th_observations.specs.Observed.{Observed};
ghost use Rattle.th_cuts.specs.CutWeights.{cut_weight};
ghost use Rattle.th_network.specs.Heights.{IsHeights, Least, residual};
ghost use Rattle.th_network.specs.Networks.{Survey, points_of, surveyed};
ghost use Rattle.th_network.specs.Vertices.{vertex_of};
ghost use Rattle.th_network.specs.Walks.{Anchored};
ghost use Rattle.th_points.specs.Points.{points};
ghost use Rattle.th_reliability.specs.Fits.{AllElseFits, AllFit, ErrAlike, FitsButAt};
ghost use Rattle.th_reliability.specs.Moves.{ErrsAt, IsMovable, IsOffAt, erred, moved, way, with_height};
ghost use Rattle.th_reliability.specs.Benchmarks.{has_end};
ghost use Rattle.th_reliability.specs.Costs.{cost_outside, cost_up_to};
ghost use Rattle.th_reliability.specs.Blunders.{weight_in};
ghost use Rattle.th_reliability.specs.Cuts.{IsControl, IsFreeSet, IsStrength, crosses, cut};
ghost use Rattle.th_reliability.specs.Edges.{edges_of, names_in, vertices_in};
ghost use Rattle.th_reliability.specs.Groups.{IsGroupControl};
ghost use Rattle.th_reliability.specs.Mistakes.{mistake_of};
ghost use Rattle.th_reliability.specs.Singles.{CrossesAlone, IsOnly, single_mistake_of};
ghost use Rattle.th_reliability.specs.SharedMistakes.{IsFreeWithPoint, IsLeastSet, IsSharedMistake, shared_mistake_of};
ghost use Rattle.th_reliability.specs.Numbers.{HasControl};
ghost use Rattle.th_reliability.specs.declared.mistakes.Mistake.TheVariants as mistake;
ghost use Rattle.th_reliability.specs.declared.mistakes.SharedMistake.{SharedMistake};
ghost use Rattle.th_reliability.specs.declared.mistakes.SharedMistake.TheVariants.{Drags, Shows, Ties, Unchecked};
ghost use Rattle.th_tables.specs.Rows.{AreWeights, BenchmarkRows, WeightRows, weight_of};

/// A cut of a network is a cut of the graph over its vertices.
///
/// The names whose vertices are inside a set without vertex 0 are a free set with the same cut. For
/// each free set, the vertices of its points are such a set.
pub fn vertices_have_the_cuts_of_names()
    ensures vertices { (observations : List Observed) (benchmarks : BenchmarkRows)
        (weights : WeightRows) (inside : ℕ → Bool)
        → inside 0 ≡ false
        → IsFreeSet benchmarks (names_in observations benchmarks inside)
        × (cut_weight inside (edges_of observations benchmarks weights)
        ≡ cut observations weights (names_in observations benchmarks inside)) }
    ensures names { (observations : List Observed) (benchmarks : BenchmarkRows)
        (weights : WeightRows) (inside : List ℕ → Bool)
        → IsFreeSet benchmarks inside
        → (vertices_in observations benchmarks inside 0 ≡ false)
        × (cut_weight (vertices_in observations benchmarks inside)
        (edges_of observations benchmarks weights) ≡ cut observations weights inside)
        × All (λ name. vertices_in observations benchmarks inside
        (vertex_of observations benchmarks name) ≡ inside name) (points observations benchmarks) }
{}

/// A mistake in an observation that weighs more than the others that check it hides.
///
/// Whatever such an observation says, best heights agree with it and others are blamed: moving a
/// set of points that holds one of its ends by one unit costs the others less than it gains. If
/// nothing checks it, nothing is blamed: the others keep their residuals, whatever it says.
pub fn mistake_hides()
    ensures hidden { (survey : Survey) (heights : List ℕ → ℤ) (o : Observed) (control : ℕ)
        → Contains survey.observations o
        → IsControl survey.observations survey.benchmarks survey.weights o control
        → control < weight_of survey.weights o.station o.target
        → Least survey.observations survey.benchmarks survey.weights heights
        → residual o heights ≡ pos 0 }
    ensures unchecked { (before after : List Observed) (benchmarks : BenchmarkRows)
        (weights : WeightRows) (heights : List ℕ → ℤ) (o : Observed) (difference : ℤ)
        → AreWeights weights
        → IsControl (before ++ o ∷ after) benchmarks weights o 0
        → Least (before ++ o ∷ after) benchmarks weights heights
        → (others : List ℕ → ℤ)
        × Least (before ++ record o { difference = difference } ∷ after) benchmarks weights others
        × All (λ other. residual other others ≡ residual other heights) (before ++ after) }
{}

/// A mistake in an observation that weighs less than the others that check it shows.
///
/// If all other observations fit the true heights exactly, best heights are the true ones, so that
/// observation's residual is the whole mistake. The same holds between two benchmarks, where there
/// is no control.
pub fn mistake_shows()
    ensures shown { (before after : List Observed) (benchmarks : BenchmarkRows)
        (weights : WeightRows) (truth heights : List ℕ → ℤ) (o : Observed) (control : Option ℕ)
        → AreWeights weights
        → Anchored (before ++ o ∷ after) benchmarks
        → HasControl (surveyed (before ++ o ∷ after) benchmarks weights) o control
        → mistake_of control (weight_of weights o.station o.target) ≡ mistake.Shows
        → AllFit (before ++ after) benchmarks truth
        → Least (before ++ o ∷ after) benchmarks weights heights
        → All (λ point. heights point ≡ truth point) (points (before ++ o ∷ after) benchmarks)
        × (residual o heights ≡ residual o truth) }
{}

/// A mistake in an observation that weighs as much as the others that check it may show or hide.
///
/// If all other observations fit the true heights exactly, these are best unless it weighs more
/// than the others that check it. If it weighs as much, heights that it fits are as good.
pub fn mistake_ties()
    ensures least { (before after : List Observed) (benchmarks : BenchmarkRows)
        (weights : WeightRows) (truth : List ℕ → ℤ) (o : Observed) (control : ℕ)
        → IsControl (before ++ o ∷ after) benchmarks weights o control
        → weight_of weights o.station o.target ≤ control
        → AllFit (before ++ after) benchmarks truth
        → Least (before ++ o ∷ after) benchmarks weights truth }
    ensures agrees { (before after : List Observed) (benchmarks : BenchmarkRows)
        (weights : WeightRows) (truth : List ℕ → ℤ) (o : Observed) (control : ℕ)
        → IsControl (before ++ o ∷ after) benchmarks weights o control
        → control ≡ weight_of weights o.station o.target
        → AllFit (before ++ after) benchmarks truth
        → (others : List ℕ → ℤ)
        × Least (before ++ o ∷ after) benchmarks weights others
        × (residual o others ≡ pos 0) }
{}

/// Errors reach a point only as far as its strength lets them.
///
/// The distance of its best height from the true one, times its strength, is at most twice what the
/// true heights cost, if no residual counts more than that distance. So a few large blunders count
/// no more than as many small ones.
pub fn errors_reach_a_point()
    ensures bounded { (survey : Survey) (truth heights : List ℕ → ℤ) (point : List ℕ) (strength : ℕ)
        → IsStrength survey.observations survey.benchmarks survey.weights point strength
        → IsHeights survey.benchmarks truth
        → Least survey.observations survey.benchmarks survey.weights heights
        → unsigned_abs (heights point -ℤ truth point) * strength
        ≤ 2 * cost_up_to survey.observations survey.weights
        (unsigned_abs (heights point -ℤ truth point)) truth }
{}

/// A point withstands blunders that weigh less than half its strength together.
///
/// However wrong they are, the best height of the point is off the true one by no more than the
/// small errors of the good observations allow. If these have none, it is the true one.
pub fn blunders_are_withstood()
    ensures near { (survey : Survey) (truth heights : List ℕ → ℤ) (blunder : Observed → Bool)
        (point : List ℕ) (strength : ℕ)
        → IsStrength survey.observations survey.benchmarks survey.weights point strength
        → IsHeights survey.benchmarks truth
        → Least survey.observations survey.benchmarks survey.weights heights
        → unsigned_abs (heights point -ℤ truth point)
        * (strength - 2 * weight_in survey.observations survey.weights blunder)
        ≤ 2 * cost_outside survey.observations survey.weights blunder truth }
    ensures exact { (survey : Survey) (truth heights : List ℕ → ℤ) (blunder : Observed → Bool)
        (point : List ℕ) (strength : ℕ)
        → IsStrength survey.observations survey.benchmarks survey.weights point strength
        → 2 * weight_in survey.observations survey.weights blunder < strength
        → AllElseFits survey blunder truth
        → Least survey.observations survey.benchmarks survey.weights heights
        → heights point ≡ truth point }
{}

/// Where a mistake that a group of observations shares shows, best heights are the true ones if all
/// other observations fit these exactly.
///
/// So each of the group has its whole error as its residual. (The errors may differ, and so may the
/// stations.) The mistake shows if the group's control is above its weight
/// (`control_decides_shared_mistake`).
pub fn shared_mistake_shows()
    ensures shown { (survey : Survey) (truth heights : List ℕ → ℤ) (group : Observed → Bool)
        → IsSharedMistake survey group Shows
        → AllElseFits survey group truth
        → Least survey.observations survey.benchmarks survey.weights heights
        → All (λ point. heights point ≡ truth point) (points_of survey)
        × All (λ o. residual o heights ≡ residual o truth) survey.observations }
{}

/// Where a mistake shows, the heights move no further than the small errors of the others allow.
///
/// A group of observations may err as it likes. The distance of a point's best height from any
/// heights that keep the benchmarks, times what the control is above the weight, is at most twice
/// what these heights cost the other observations. If one observation errs, it is so with the lesser
/// of what its control is above its weight and of the point's strength.
pub fn mistake_that_shows_moves_little()
    ensures near { (survey : Survey) (truth heights : List ℕ → ℤ) (group : Observed → Bool)
        (control : ℕ) (point : List ℕ)
        → IsGroupControl survey.observations survey.benchmarks survey.weights group control
        → IsHeights survey.benchmarks truth
        → Least survey.observations survey.benchmarks survey.weights heights
        → Contains (points_of survey) point
        → unsigned_abs (heights point -ℤ truth point)
        * (control - weight_in survey.observations survey.weights group)
        ≤ 2 * cost_outside survey.observations survey.weights group truth }
    ensures one { (survey : Survey) (truth heights : List ℕ → ℤ) (group : Observed → Bool)
        (o : Observed) (control : ℕ) (point : List ℕ) (strength : ℕ)
        → IsOnly survey.observations group o
        → IsControl survey.observations survey.benchmarks survey.weights o control
        → IsStrength survey.observations survey.benchmarks survey.weights point strength
        → IsHeights survey.benchmarks truth
        → Least survey.observations survey.benchmarks survey.weights heights
        → unsigned_abs (heights point -ℤ truth point)
        * min (control - weight_of survey.weights o.station o.target) strength
        ≤ 2 * cost_outside survey.observations survey.weights group truth }
{}

/// A mistake that the sights of one station share may show or drag where it ties: if their control
/// equals their weight.
///
/// If all other observations fit the true heights exactly, these are best where the mistake of any
/// group shows or ties. Where it ties, heights with a point off by the whole mistake are as good.
pub fn shared_mistake_ties()
    ensures least { (survey : Survey) (truth : List ℕ → ℤ) (group : Observed → Bool)
        (mistake : SharedMistake)
        → IsSharedMistake survey group mistake
        → (mistake ≡ Shows) ⊎ (mistake ≡ Ties)
        → AllElseFits survey group truth
        → Least survey.observations survey.benchmarks survey.weights truth }
    ensures drags { (survey : Survey) (truth : List ℕ → ℤ) (group : Observed → Bool)
        (station : List ℕ) (error : ℤ)
        → IsSharedMistake survey group Ties
        → ErrAlike survey group station error truth
        → AllElseFits survey group truth
        → (others : List ℕ → ℤ)
        × Least survey.observations survey.benchmarks survey.weights others
        × Any (λ point. unsigned_abs (others point -ℤ truth point) ≡ unsigned_abs error)
        (points_of survey) }
{}

/// A mistake that the sights of one station share drags points along if their control is below
/// their weight: others are blamed, or nothing checks it.
///
/// Best heights never leave all such sights with the same residual other than 0. So if they all err
/// by the same amount from the true heights, best heights are not the true ones, whatever the
/// others say.
pub fn shared_mistake_drags()
    ensures agrees { (survey : Survey) (heights : List ℕ → ℤ) (group : Observed → Bool)
        (mistake : SharedMistake) (station : List ℕ) (error : ℤ)
        → IsSharedMistake survey group mistake
        → (mistake ≡ Drags) ⊎ (mistake ≡ Unchecked)
        → ErrAlike survey group station error heights
        → Least survey.observations survey.benchmarks survey.weights heights
        → error ≡ pos 0 }
    ensures drags { (survey : Survey) (truth heights : List ℕ → ℤ) (group : Observed → Bool)
        (mistake : SharedMistake) (station : List ℕ) (error : ℤ)
        → IsSharedMistake survey group mistake
        → (mistake ≡ Drags) ⊎ (mistake ≡ Unchecked)
        → ErrAlike survey group station error truth
        → error ≢ pos 0
        → Least survey.observations survey.benchmarks survey.weights heights
        → ¬ All (λ point. heights point ≡ truth point) (points_of survey) }
{}

/// A mistake at a point that does not show moves a set of points by the whole mistake, and others
/// are blamed for it.
///
/// All observations of a group err by the mistake, seen from the point, and all others fit the true
/// heights exactly. If a set is movable, the true heights, with that set moved by the mistake, are
/// best. In these the others that cross the set have residuals as large as the mistake, and those
/// of the group that cross it have none. All that do not cross it keep their residuals, so the rest
/// of the others have none.
///
/// There is a least set if some free set holds a point, and it is movable unless the mistake shows.
/// In a group of one observation, each set that its control is of is movable, unless the control is
/// above the weight.
pub fn mistake_moves_a_least_set()
    ensures least { (survey : Survey) (truth : List ℕ → ℤ) (group : Observed → Bool)
        (inside : List ℕ → Bool) (point : List ℕ) (error : ℤ)
        → IsMovable survey group inside
        → All (λ o. group o ≡ true → ErrsAt point error truth o) survey.observations
        → AllElseFits survey group truth
        → Least survey.observations survey.benchmarks survey.weights
        (moved inside (way (inside point) error) truth) }
    ensures blames { (survey : Survey) (truth : List ℕ → ℤ) (group : Observed → Bool)
        (inside : List ℕ → Bool) (point : List ℕ) (error : ℤ)
        → All (λ o. group o ≡ true → ErrsAt point error truth o) survey.observations
        → All (λ o. group o ≡ false → residual o truth ≡ pos 0) survey.observations
        → All (λ o. group o ≡ false → crosses inside o ≡ true
        → unsigned_abs (residual o (moved inside (way (inside point) error) truth))
        ≡ unsigned_abs error) survey.observations
        × All (λ o. group o ≡ true → crosses inside o ≡ true
        → residual o (moved inside (way (inside point) error) truth) ≡ pos 0) survey.observations
        × All (λ o. crosses inside o ≡ false
        → residual o (moved inside (way (inside point) error) truth)
        ≡ residual o truth) survey.observations }
    ensures found { (survey : Survey) (group : Observed → Bool) (inside : List ℕ → Bool)
        → IsFreeWithPoint survey inside
        → (other : List ℕ → Bool) × IsLeastSet survey group other }
    ensures unshown { (survey : Survey) (group : Observed → Bool) (mistake : SharedMistake)
        (inside : List ℕ → Bool)
        → IsLeastSet survey group inside
        → IsSharedMistake survey group mistake
        → mistake ≢ Shows
        → IsMovable survey group inside }
    ensures one { (survey : Survey) (group : Observed → Bool) (o : Observed) (control : ℕ)
        (inside : List ℕ → Bool)
        → IsOnly survey.observations group o
        → IsControl survey.observations survey.benchmarks survey.weights o control
        → control ≤ weight_of survey.weights o.station o.target
        → IsFreeSet survey.benchmarks inside
        → crosses inside o ≡ true
        → cut survey.observations survey.weights inside
        ≡ control + weight_of survey.weights o.station o.target
        → IsMovable survey group inside }
{}

/// Nothing checks a mistake at a point if all of the group that shares it crosses a free set, and
/// nothing else does. A group has such a set just where its control is 0. The word `Unchecked` says
/// by its definition that it has one.
///
/// Whatever the mistake, best heights move that set along, and all residuals stay as they were.
pub fn shared_mistake_unchecked()
    ensures unmarked { (survey : Survey) (heights : List ℕ → ℤ) (group : Observed → Bool)
        (inside : List ℕ → Bool) (point : List ℕ) (error : ℤ)
        → IsFreeSet survey.benchmarks inside
        → All (λ o. crosses inside o ≡ group o) survey.observations
        → All (λ o. group o ≡ true → (o.station ≡ point) ⊎ (o.target ≡ point)) survey.observations
        → Least survey.observations survey.benchmarks survey.weights heights
        → Least (map (erred group point error) survey.observations) survey.benchmarks survey.weights
        (moved inside (way (inside point) error) heights)
        × All (λ o. residual (erred group point error o) (moved inside (way (inside point) error)
        heights) ≡ residual o heights) survey.observations }
    ensures alone { (survey : Survey) (group : Observed → Bool) (inside : List ℕ → Bool)
        → AreWeights survey.weights
        → CrossesAlone survey group inside
        → All (λ o. crosses inside o ≡ group o) survey.observations }
    ensures control { (survey : Survey) (group : Observed → Bool)
        → IsGroupControl survey.observations survey.benchmarks survey.weights group 0
        ↔ ((inside : List ℕ → Bool) × IsFreeWithPoint survey inside
        × CrossesAlone survey group inside) }
{}

/// A wrong height of a benchmark is a mistake that all observations with an end there share.
///
/// The table has the true heights, but for one benchmark, whose height it has wrong. If all
/// observations fit the true heights exactly: where the mistake shows, best heights are the true
/// ones at every other point, and each observation at the benchmark has the whole mistake as its
/// residual; where it ties, these are best, but so are others; where it drags or nothing checks it,
/// they are not best; where it does not show, a least set moves along with the benchmark. If they
/// err (`near`), best heights are off by no more than the errors of those that have no end there
/// allow.
pub fn wrong_benchmark()
    ensures shows { (survey : Survey) (truth heights : List ℕ → ℤ) (point : List ℕ) (error : ℤ)
        → IsSharedMistake survey (has_end point) Shows
        → FitsButAt survey point error truth
        → All (λ o. o.station ≢ o.target) survey.observations
        → Least survey.observations survey.benchmarks survey.weights heights
        → All (λ name. name ≢ point → heights name ≡ truth name) (points_of survey)
        × All (λ o. (o.station ≡ point → residual o heights ≡ error)
        × (o.target ≡ point → residual o heights ≡ pos 0 -ℤ error)
        × (has_end point o ≡ false → residual o heights ≡ pos 0)) survey.observations }
    ensures near { (survey : Survey) (truth heights : List ℕ → ℤ) (point : List ℕ) (error : ℤ)
        (control : ℕ) (name : List ℕ)
        → IsGroupControl survey.observations survey.benchmarks survey.weights (has_end point) control
        → IsOffAt survey.benchmarks point error truth
        → Least survey.observations survey.benchmarks survey.weights heights
        → Contains (points_of survey) name
        → name ≢ point
        → unsigned_abs (heights name -ℤ truth name)
        * (control - weight_in survey.observations survey.weights (has_end point))
        ≤ 2 * cost_outside survey.observations survey.weights (has_end point) truth }
    ensures ties { (survey : Survey) (truth : List ℕ → ℤ) (point : List ℕ) (error : ℤ)
        → IsSharedMistake survey (has_end point) Ties
        → FitsButAt survey point error truth
        → Least survey.observations survey.benchmarks survey.weights
        (with_height point (truth point +ℤ error) truth) }
    ensures ties_too { (survey : Survey) (truth : List ℕ → ℤ) (point : List ℕ) (error : ℤ)
        → IsSharedMistake survey (has_end point) Ties
        → FitsButAt survey point error truth
        → All (λ o. o.station ≢ o.target) survey.observations
        → (others : List ℕ → ℤ)
        × Least survey.observations survey.benchmarks survey.weights others
        × Any (λ name. (name ≢ point)
        × (unsigned_abs (others name -ℤ truth name) ≡ unsigned_abs error)) (points_of survey) }
    ensures drags { (survey : Survey) (truth heights : List ℕ → ℤ) (mistake : SharedMistake)
        (point : List ℕ) (error : ℤ)
        → IsSharedMistake survey (has_end point) mistake
        → (mistake ≡ Drags) ⊎ (mistake ≡ Unchecked)
        → FitsButAt survey point error truth
        → All (λ o. o.station ≢ o.target) survey.observations
        → error ≢ pos 0
        → Least survey.observations survey.benchmarks survey.weights heights
        → ¬ All (λ name. name ≢ point → heights name ≡ truth name) (points_of survey) }
    ensures moves { (survey : Survey) (truth : List ℕ → ℤ) (inside : List ℕ → Bool)
        (point : List ℕ) (error : ℤ)
        → IsMovable survey (has_end point) inside
        → FitsButAt survey point error truth
        → All (λ o. o.station ≢ o.target) survey.observations
        → Least survey.observations survey.benchmarks survey.weights
        (moved inside error (with_height point (truth point +ℤ error) truth)) }
{}

/// A group has a control if some free set holds a point. So a shared mistake does one of four
/// things in each group, whether its control is known or not.
pub fn group_has_a_control()
    ensures control { (survey : Survey) (group : Observed → Bool) (inside : List ℕ → Bool)
        → IsFreeWithPoint survey inside
        → (control : ℕ)
        × IsGroupControl survey.observations survey.benchmarks survey.weights group control }
    ensures word { (survey : Survey) (group : Observed → Bool)
        → (mistake : SharedMistake) × IsSharedMistake survey group mistake }
{}

/// The control of a group and its weight decide what a shared mistake does, and it does one thing
/// only. If no free set holds a point, it shows: all heights are given.
///
/// In a group of one observation, that observation's control decides. If it has none, its ends are
/// benchmarks, and the mistake shows.
pub fn control_decides_shared_mistake()
    ensures decided { (survey : Survey) (group : Observed → Bool) (control : ℕ)
        → IsGroupControl survey.observations survey.benchmarks survey.weights group control
        → IsSharedMistake survey group (shared_mistake_of control
        (weight_in survey.observations survey.weights group)) }
    ensures single { (survey : Survey) (group : Observed → Bool) (o : Observed) (control : Option ℕ)
        → AreWeights survey.weights
        → Anchored survey.observations survey.benchmarks
        → IsOnly survey.observations group o
        → HasControl survey o control
        → IsSharedMistake survey group (single_mistake_of control
        (weight_of survey.weights o.station o.target)) }
    ensures one { (survey : Survey) (group : Observed → Bool) (first second : SharedMistake)
        → IsSharedMistake survey group first
        → IsSharedMistake survey group second
        → first ≡ second }
    ensures none { (survey : Survey) (group : Observed → Bool)
        → ((inside : List ℕ → Bool) → ¬ IsFreeWithPoint survey inside)
        → IsSharedMistake survey group Shows }
{}

/// A mistake in an observation shows in its own residual, as exactly as the others' small errors allow.
///
/// One observation may err as it likes. The difference between its residual and its error, times what
/// its control is above its weight, is at most twice what the true heights cost the other observations.
pub fn mistake_shows_in_its_residual()
    ensures near { (survey : Survey) (truth heights : List ℕ → ℤ) (group : Observed → Bool)
        (o : Observed) (control : ℕ)
        → IsOnly survey.observations group o
        → IsControl survey.observations survey.benchmarks survey.weights o control
        → IsHeights survey.benchmarks truth
        → Least survey.observations survey.benchmarks survey.weights heights
        → unsigned_abs (residual o heights -ℤ residual o truth)
        * (control - weight_of survey.weights o.station o.target)
        ≤ 2 * cost_outside survey.observations survey.weights group truth }
    ensures marked { (survey : Survey) (truth heights : List ℕ → ℤ) (group : Observed → Bool)
        (o : Observed) (control limit : ℕ)
        → IsOnly survey.observations group o
        → IsControl survey.observations survey.benchmarks survey.weights o control
        → IsHeights survey.benchmarks truth
        → Least survey.observations survey.benchmarks survey.weights heights
        → limit * (control - weight_of survey.weights o.station o.target)
        + 2 * cost_outside survey.observations survey.weights group truth
        < unsigned_abs (residual o truth) * (control - weight_of survey.weights o.station o.target)
        → limit < unsigned_abs (residual o heights) }
{}

/// A mistake in one observation hardly changes the residual of another one, if both are checked.
///
/// `o` may err as it likes. How far the residual of `right` is from its own error is bounded by what
/// the true heights cost all but `o`, and by the controls and weights of the two (`near`). So a right
/// observation is not marked where its error and that bound are together at most the limit
/// (`unmarked`). Between two benchmarks an observation has no control, and its residual is its error.
pub fn right_sight_is_not_marked()
    ensures near { (survey : Survey) (truth heights : List ℕ → ℤ) (group : Observed → Bool)
        (o right : Observed) (control own : ℕ)
        → IsOnly survey.observations group o
        → IsControl survey.observations survey.benchmarks survey.weights o control
        → IsControl survey.observations survey.benchmarks survey.weights right own
        → IsHeights survey.benchmarks truth
        → Least survey.observations survey.benchmarks survey.weights heights
        → unsigned_abs (residual right heights -ℤ residual right truth)
        * ((own + weight_of survey.weights right.station right.target)
        * (control - weight_of survey.weights o.station o.target))
        ≤ 2 * (cost_outside survey.observations survey.weights group truth
        * (control + weight_of survey.weights o.station o.target)) }
    ensures unmarked { (survey : Survey) (truth heights : List ℕ → ℤ) (group : Observed → Bool)
        (o right : Observed) (control own limit : ℕ)
        → IsOnly survey.observations group o
        → IsControl survey.observations survey.benchmarks survey.weights o control
        → IsControl survey.observations survey.benchmarks survey.weights right own
        → IsHeights survey.benchmarks truth
        → Least survey.observations survey.benchmarks survey.weights heights
        → weight_of survey.weights o.station o.target < control
        → 0 < own + weight_of survey.weights right.station right.target
        → unsigned_abs (residual right truth) ≤ limit
        → 2 * (cost_outside survey.observations survey.weights group truth
        * (control + weight_of survey.weights o.station o.target))
        ≤ (limit - unsigned_abs (residual right truth))
        * ((own + weight_of survey.weights right.station right.target)
        * (control - weight_of survey.weights o.station o.target))
        → unsigned_abs (residual right heights) ≤ limit }
{}
