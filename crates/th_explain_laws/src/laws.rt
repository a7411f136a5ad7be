//! Laws that relate the definitions to one another. A law is its contract: it computes nothing.

ghost use Rattle.std.specs.Prelude.{◌≡◌, ◌≢◌, ℕ, ◌≤◌, ◌<◌, ◌+◌, ◌*◌, ℤ, pos, ◌+ℤ◌, ◌-ℤ◌, ◌*ℤ◌, ◌≤ℤ◌, ◌<ℤ◌, List, [], ◌∷◌, ◌++◌, All, None, map, neg_ℤ, unsigned_abs, ◌⊎◌, Contains, length, slice_index_or};
ghost use Rattle.th_observations.specs.Observed.{Observed};
ghost use Rattle.th_tables.specs.Rows.{BenchmarkRows, WeightRows, height_of, weight_of};
ghost use Rattle.th_network.specs.Heights.{Least, cost, residual};
ghost use Rattle.th_network.specs.Circulation.{Shows};
ghost use Rattle.th_network.specs.Networks.{Survey, surveyed};
ghost use Rattle.th_reliability.specs.declared.sights.Sights.{Sights};
ghost use Rattle.th_changes.specs.declared.numbers.Number.{Number};
ghost use Rattle.th_changes.specs.declared.numbers.Number.TheVariants.{Added, Benchmark, Subtracted};
ghost use Rattle.th_changes.specs.Numbers.{changed, touch};
ghost use Rattle.th_changes.specs.Freed.{IsFreed, IsProposed, Keeps, cost_of};
ghost use Rattle.th_changes.specs.Flows.{Circulates, ShowsFreed, net, value};
ghost use Rattle.th_explain_laws.specs.Ties.{AreTied};
ghost use Rattle.th_explain_laws.specs.Parted.{IsParted, IsWithoutRow, parted};
ghost use Rattle.th_entries.specs.Several.{AreObserved};
ghost use Rattle.th_entries.specs.declared.reviews.BookReview.{BookReview};
ghost use Rattle.th_explain.specs.Explained.{IsExact, mildest};
ghost use Rattle.th_explain.specs.declared.freed.Freed.{Freed};
ghost use Rattle.th_explain_texts.specs.Ranks.{ranked, with_number};
ghost use Rattle.th_explain_texts.specs.Sentences.{most_rows};
ghost use Rattle.th_explain_texts.specs.declared.rows.Row.{Row};
ghost use Rattle.th_explain_rows.specs.Explanations.{AreExplained};
ghost use Rattle.th_meant.specs.Doubted.{IsMeant};
ghost use Rattle.th_meant.specs.Keyed.{tolerance_of};
ghost use Rattle.th_numbers.specs.Lists.{in_order, listed_of};
ghost use Rattle.th_explain_laws.specs.Printed.{IsAmongRows, IsLed, IsOfBook, IsOfNumber, filter_of};
ghost use Rattle.th_explain_rows.specs.Rows.{IsRow, LeavesNoMore, Passes, beyond, half_of, limit_size};
ghost use Rattle.th_explain_rows.specs.declared.rows.Filter.{Filter};
ghost use Rattle.th_changes.specs.Reach.{reach_of};
ghost use Rattle.th_numbers.specs.Candidates.{given_of, number_of, whole_of};
ghost use Rattle.th_explain_laws.specs.OnePoint.{IsAtOnePoint};
ghost use Rattle.th_explain_laws.specs.OneWrong.{IsMended};
ghost use Rattle.th_explain_laws.specs.Word33.{AreReviews, IsWord33};
ghost use Rattle.th_numbers.specs.declared.candidates.Candidate.{Candidate};
ghost use Rattle.th_explain_rows.specs.declared.findings.Explanations.{Explanations};
ghost use Rattle.th_numbers.specs.Readings.{word_33};
ghost use Rattle.th_review_rows.specs.Entries.{entries_of};

use th_book::laws::observation_is_of_a_sight;
use th_entries::laws::{entry_has_the_height_of_its_sights, sights_from_line_to_last_use_it};
use th_explain::laws::freed_is_one;
use th_meant::row_laws::named_may_have_been_meant;

/// Changes of a number add up, and a change by 0 is none.
pub fn changes_add_up()
    ensures none { (survey : Survey) (number : Number) → changed number (pos 0) survey ≡ survey }
    ensures sum { (survey : Survey) (number : Number) (x y : ℤ)
        → changed number y (changed number x survey) ≡ changed number (x +ℤ y) survey }
{}

/// A circulation bounds what a survey costs, whatever a number is changed by and whatever the
/// heights.
///
/// Each weighted size of a residual is at least the flow times that residual. Summed, the flows'
/// balance takes the heights away, and leaves the value and the net times the change.
pub fn flows_bound_cost()
    ensures { (survey : Survey) (number : Number) (flows : List ℤ) (x : ℤ) (heights : List ℕ → ℤ)
        → Circulates survey flows
        → Keeps (changed number x survey) heights
        → unsigned_abs (value survey flows +ℤ x *ℤ net number survey flows)
        ≤ cost_of (changed number x survey) heights }
{}

/// A circulation without net through a number bounds what is left if that number is freed.
pub fn flow_without_net_bounds_freed()
    ensures cost { (survey : Survey) (number : Number) (flows : List ℤ) (x : ℤ)
        (heights : List ℕ → ℤ)
        → Circulates survey flows
        → net number survey flows ≡ pos 0
        → Keeps (changed number x survey) heights
        → unsigned_abs (value survey flows) ≤ cost_of (changed number x survey) heights }
    ensures freed { (survey : Survey) (number : Number) (flows : List ℤ) (freed : ℕ)
        → Circulates survey flows
        → net number survey flows ≡ pos 0
        → IsFreed survey number freed
        → unsigned_abs (value survey flows) ≤ freed }
{}

/// Heights for a change, and a circulation without net of the same value, show what is left if the
/// number is freed. So do heights that the circulation shows, one observation at a time. A
/// circulation that shows best heights as they are, and has no net through the number, shows that
/// the number explains nothing.
pub fn freed_is_shown()
    ensures value { (survey : Survey) (number : Number) (flows : List ℤ) (x : ℤ)
        (heights : List ℕ → ℤ)
        → Circulates survey flows
        → net number survey flows ≡ pos 0
        → Keeps (changed number x survey) heights
        → value survey flows ≡ pos (cost_of (changed number x survey) heights)
        → IsFreed survey number (cost_of (changed number x survey) heights) }
    ensures each { (survey : Survey) (number : Number) (flows : List ℤ) (x : ℤ)
        (heights : List ℕ → ℤ)
        → ShowsFreed survey number x heights flows
        → IsFreed survey number (cost_of (changed number x survey) heights)
        × IsProposed survey number x }
    ensures nothing { (survey : Survey) (number : Number) (flows : List ℤ) (heights : List ℕ → ℤ)
        → Circulates survey flows
        → net number survey flows ≡ pos 0
        → Keeps survey heights
        → Shows survey.observations survey.weights flows heights
        → IsFreed survey number (cost_of survey heights) }
{}

/// A number that one observation alone has is freed by leaving that observation out.
///
/// Best heights of the others then cost what is left. So a sight is freed by the adjustment of a
/// network with one sight less.
pub fn sight_left_out_is_freed()
    ensures { (number : Number) (before after : List Observed) (o : Observed)
        (benchmarks : BenchmarkRows) (weights : WeightRows) (heights : List ℕ → ℤ)
        → touch number o ≡ pos 1
        → All (λ other. touch number other ≡ pos 0) (before ++ after)
        → Least (before ++ after) benchmarks weights heights
        → IsFreed (surveyed (before ++ o ∷ after) benchmarks weights) number
        (cost (before ++ after) weights heights) }
{}

/// A benchmark is freed by leaving its row out.
///
/// Best heights of the survey without it cost what is left.
pub fn benchmark_left_out_is_freed()
    ensures { (survey : Survey) (name : List ℕ) (fewer : BenchmarkRows) (heights : List ℕ → ℤ)
        → IsWithoutRow survey.benchmarks name fewer
        → Least survey.observations fewer survey.weights heights
        → IsFreed survey (Benchmark name) (cost survey.observations survey.weights heights) }
{}

/// What is added to the sights of one station is freed by parting them: they are sighted from a new
/// point, with the weights that they had.
///
/// Best heights of the parted survey cost what is left.
pub fn parted_entry_is_freed()
    ensures { (survey : Survey) (sights : Sights) (station own : List ℕ) (new : WeightRows)
        (heights : List ℕ → ℤ)
        → own ≢ station
        → height_of survey.benchmarks own ≡ None
        → All (λ o. IsParted sights station own survey.weights new o) survey.observations
        → Least (map (parted sights own) survey.observations) survey.benchmarks new heights
        → IsFreed survey (Added sights)
        (cost (map (parted sights own) survey.observations) new heights) }
{}

/// What is proposed for a number is what best heights say of it in the network without it.
///
/// A sight that is changed by what is proposed is the difference of its ends in some best heights without
/// the sight, a benchmark its height in some best heights without its row, and the change of an entry is
/// by how much the point of its own is above the station in some best heights of the parted survey. And
/// each of these best heights proposes what it says. So the extremes over all of them are the lowest and
/// the highest proposed value. (`ties_are_of_the_network` has the same of what is subtracted.)
pub fn proposed_are_of_best_heights()
    ensures of_sight { (number : Number) (before after : List Observed) (o : Observed)
        (benchmarks : BenchmarkRows) (weights : WeightRows) (x : ℤ)
        → touch number o ≡ pos 1
        → All (λ other. touch number other ≡ pos 0) (before ++ after)
        → 0 < weight_of weights o.station o.target
        → IsProposed (surveyed (before ++ o ∷ after) benchmarks weights) number x
        → (heights : List ℕ → ℤ)
        × Least (before ++ after) benchmarks weights heights
        × (residual o heights +ℤ x ≡ pos 0) }
    ensures sight { (number : Number) (before after : List Observed) (o : Observed)
        (benchmarks : BenchmarkRows) (weights : WeightRows) (heights : List ℕ → ℤ)
        → touch number o ≡ pos 1
        → All (λ other. touch number other ≡ pos 0) (before ++ after)
        → Least (before ++ after) benchmarks weights heights
        → IsProposed (surveyed (before ++ o ∷ after) benchmarks weights) number
        (pos 0 -ℤ residual o heights) }
    ensures of_benchmark { (survey : Survey) (name : List ℕ) (fewer : BenchmarkRows) (x : ℤ)
        (without : IsWithoutRow survey.benchmarks name fewer)
        → IsProposed survey (Benchmark name) x
        → (heights : List ℕ → ℤ)
        × Least survey.observations fewer survey.weights heights
        × (heights name ≡ without.given +ℤ x) }
    ensures benchmark { (survey : Survey) (name : List ℕ) (fewer : BenchmarkRows)
        (heights : List ℕ → ℤ) (without : IsWithoutRow survey.benchmarks name fewer)
        → Least survey.observations fewer survey.weights heights
        → IsProposed survey (Benchmark name) (heights name -ℤ without.given) }
    ensures of_entry { (survey : Survey) (sights : Sights) (station own : List ℕ) (new : WeightRows)
        (x : ℤ)
        → own ≢ station
        → height_of survey.benchmarks own ≡ None
        → All (λ o. IsParted sights station own survey.weights new o) survey.observations
        → IsProposed survey (Added sights) x
        → (heights : List ℕ → ℤ)
        × Least (map (parted sights own) survey.observations) survey.benchmarks new heights
        × (heights own -ℤ heights station ≡ x) }
    ensures entry { (survey : Survey) (sights : Sights) (station own : List ℕ) (new : WeightRows)
        (heights : List ℕ → ℤ)
        → own ≢ station
        → height_of survey.benchmarks own ≡ None
        → All (λ o. IsParted sights station own survey.weights new o) survey.observations
        → Least (map (parted sights own) survey.observations) survey.benchmarks new heights
        → IsProposed survey (Added sights) (heights own -ℤ heights station) }
{}

/// A circulation shows that no change beyond some bound is proposed.
///
/// With a net below 0 it costs more than what is left to change the number by less; with a net
/// above 0, by more.
pub fn proposed_are_bounded()
    ensures low { (survey : Survey) (number : Number) (flows : List ℤ) (low x : ℤ) (freed : ℕ)
        → Circulates survey flows
        → IsFreed survey number freed
        → value survey flows +ℤ low *ℤ net number survey flows ≡ pos freed
        → net number survey flows <ℤ pos 0
        → IsProposed survey number x
        → low ≤ℤ x }
    ensures high { (survey : Survey) (number : Number) (flows : List ℤ) (high x : ℤ) (freed : ℕ)
        → Circulates survey flows
        → IsFreed survey number freed
        → value survey flows +ℤ high *ℤ net number survey flows ≡ pos freed
        → pos 0 <ℤ net number survey flows
        → IsProposed survey number x
        → x ≤ℤ high }
{}

/// Tied numbers explain equally, and the same changes of them are proposed, up or down.
///
/// The tie has no difference and no height in it. So that the books cannot say which of the two is
/// wrong is a fact, whatever was observed.
pub fn ties_are_of_the_network()
    ensures back { (survey : Survey) (first second : Number)
        → AreTied survey first second → AreTied survey second first }
    ensures freed { (survey : Survey) (first second : Number) (freed : ℕ)
        → AreTied survey first second
        → IsFreed survey first freed
        → IsFreed survey second freed }
    ensures proposed { (survey : Survey) (first second : Number) (x : ℤ)
        (tied : AreTied survey first second)
        → IsProposed survey first x
        → IsProposed survey second (x *ℤ tied.turn) }
    ensures lengths { (survey : Survey) (sights : Sights)
        → AreTied survey (Added sights) (Subtracted sights) }
{}

/// If one number of a right survey is wrong, another number leaves much.
///
/// How much is shown by any circulation without net through the other number: the mistake times its
/// net through the wrong one, less what the right survey costs. So the wrong number leads if that
/// product is more than twice the right survey's cost.
pub fn another_number_leaves()
    ensures much { (right : Survey) (number other : Number) (wrong : ℤ) (truth : List ℕ → ℤ)
        (flows : List ℤ) (freed : ℕ)
        → Circulates right flows
        → net other right flows ≡ pos 0
        → Keeps right truth
        → IsFreed (changed number wrong right) other freed
        → unsigned_abs wrong * unsigned_abs (net number right flows)
        ≤ freed + cost_of right truth }
    ensures leads { (right : Survey) (number other : Number) (wrong : ℤ) (truth : List ℕ → ℤ)
        (flows : List ℤ) (freed left : ℕ)
        → Circulates right flows
        → net other right flows ≡ pos 0
        → Keeps right truth
        → 2 * cost_of right truth < unsigned_abs wrong * unsigned_abs (net number right flows)
        → IsFreed (changed number wrong right) number freed
        → IsFreed (changed number wrong right) other left
        → freed < left }
{}

/// What is proposed for a wrong number is near the right value.
///
/// How near is shown by any circulation: the distance times its net through the number is at most
/// twice what the right survey costs. If that costs nothing, the right value alone is proposed.
pub fn proposed_is_near()
    ensures near { (right : Survey) (number : Number) (wrong x : ℤ) (truth : List ℕ → ℤ)
        (flows : List ℤ)
        → Circulates right flows
        → Keeps right truth
        → IsProposed (changed number wrong right) number x
        → unsigned_abs (wrong +ℤ x) * unsigned_abs (net number right flows)
        ≤ 2 * cost_of right truth }
    ensures exact { (right : Survey) (number : Number) (wrong x : ℤ) (truth : List ℕ → ℤ)
        (flows : List ℤ)
        → Circulates right flows
        → Keeps right truth
        → cost_of right truth ≡ 0
        → net number right flows ≢ pos 0
        → IsProposed (changed number wrong right) number x
        → x ≡ neg_ℤ wrong }
{}

/// What is proposed has no gap: each change between two that are proposed is proposed.
///
/// The sights of the number are from one station, as those of an entry are. Best heights with the one
/// change become those with the other step by step, and no step changes the number by more than 1.
pub fn proposed_have_no_gap()
    ensures { (survey : Survey) (number : Number) (low x high : ℤ)
        → IsAtOnePoint survey number
        → IsProposed survey number low
        → IsProposed survey number high
        → low ≤ℤ x
        → x ≤ℤ high
        → IsProposed survey number x }
{}

/// What explanations take for word 33 of a sight is word 33 in its line of its book.
///
/// They take the sight's difference without the instrument height and with the reflector height of the
/// entries that it is among. It is among one entry of each height that it has, which has that length.
pub fn word_33_is_that_of_the_book()
    ensures { (texts : List (List ℕ)) (observations : List Observed) (reviews : List BookReview)
        (o : Observed)
        → AreObserved 1 [] texts observations
        → AreReviews texts reviews
        → Contains observations o
        → IsWord33 texts o (word_33 (entries_of reviews) o) }
{
    observation_is_of_a_sight();
    sights_from_line_to_last_use_it();
    entry_has_the_height_of_its_sights();
}

/// Ranked rows are the rows that leave least, in that order.
///
/// Each is one of the rows, but for its number. A row that is not ranked leaves at least as much as each
/// of those that are, and these are as many as there may be.
pub fn ranked_rows_leave_least()
    ensures each { (rows : List Row)
        → All (λ row. (own : Row) × Contains rows own × (row ≡ with_number own row.number)) (ranked rows) }
    ensures sorted { (rows : List Row) (j k : ℕ) (d : Row)
        → j ≤ k
        → k < length (ranked rows)
        → (slice_index_or (ranked rows) j d).left ≤ (slice_index_or (ranked rows) k d).left }
    ensures complete { (rows : List Row) (own : Row)
        → Contains rows own
        → ((number : ℕ) × Contains (ranked rows) (with_number own number))
        ⊎ ((length (ranked rows) ≡ most_rows) × All (λ row. row.left ≤ own.left) (ranked rows)) }
{}

/// Each row that is printed is the exact row of a number that passes, or of a book.
pub fn printed_rows_are_exact()
    ensures { (survey : Survey) (reviews : List BookReview) (limit : ℤ) (explained : Explanations)
        (are : AreExplained survey reviews limit explained)
        → All (λ row. IsOfNumber survey (cost_of survey are.heights) (filter_of are)
        (in_order (listed_of survey (entries_of reviews) are.tied)) row
        ⊎ IsOfBook survey (entries_of reviews) (cost_of survey are.heights) limit reviews row) explained.rows.items }
{}

/// Each height that is named beside the rows may have been meant where a row with number 1 doubts another one.
pub fn named_heights_may_have_been_meant()
    ensures { (survey : Survey) (reviews : List BookReview) (limit : ℤ) (explained : Explanations)
        → AreExplained survey reviews limit explained
        → All (IsMeant (entries_of reviews) (tolerance_of limit) explained.rows.items) explained.named.items }
{
    named_may_have_been_meant();
}

/// The rows that explain most come first: none leaves more than one behind it.
pub fn printed_rows_are_sorted()
    ensures { (survey : Survey) (reviews : List BookReview) (limit : ℤ) (explained : Explanations)
        (j k : ℕ) (d : Row)
        → AreExplained survey reviews limit explained
        → j ≤ k
        → k < length explained.rows.items
        → (slice_index_or explained.rows.items j d).left ≤ (slice_index_or explained.rows.items k d).left }
{}

/// A number whose mildest change is not beyond the limit is printed only beside one that is, and it leaves no
/// more than the best of those.
pub fn printed_near_the_limit_lead()
    ensures { (survey : Survey) (reviews : List BookReview) (limit : ℤ) (explained : Explanations)
        (are : AreExplained survey reviews limit explained) (row : Row)
        (is : IsOfNumber survey (cost_of survey are.heights) (filter_of are)
        (in_order (listed_of survey (entries_of reviews) are.tied)) row)
        → mildest is.passes.freed.low is.passes.freed.high ≤ limit_size limit
        → IsLed survey limit (in_order (listed_of survey (entries_of reviews) are.tied)) row.left }
{}

/// No number is missing: one that passes is printed, or as many rows as there may be are printed, and
/// none of them explains less than it does. A number beyond the limit passes; so does one beyond half of it
/// that leaves no more than each number beyond the limit, if there is one.
pub fn printed_rows_are_complete()
    ensures printed { (survey : Survey) (reviews : List BookReview) (limit : ℤ) (explained : Explanations)
        (are : AreExplained survey reviews limit explained) (candidate : Candidate) (freed : Freed)
        → Contains (in_order (listed_of survey (entries_of reviews) are.tied)) candidate
        → Passes survey (filter_of are) candidate freed
        → IsAmongRows survey (cost_of survey are.heights) (filter_of are) candidate explained.rows.items
        ⊎ ((length explained.rows.items ≡ most_rows) × All (λ row. row.left ≤ freed.left) explained.rows.items) }
    ensures beyond { (survey : Survey) (reviews : List BookReview) (limit : ℤ) (explained : Explanations)
        (are : AreExplained survey reviews limit explained) (candidate : Candidate) (freed : Freed)
        → Passes survey (beyond limit) candidate freed
        → Passes survey (filter_of are) candidate freed }
    ensures half { (survey : Survey) (reviews : List BookReview) (limit : ℤ) (explained : Explanations)
        (are : AreExplained survey reviews limit explained) (candidate : Candidate) (freed : Freed)
        → Passes survey (beyond (half_of limit)) candidate freed
        → IsLed survey limit (in_order (listed_of survey (entries_of reviews) are.tied)) freed.left
        → Passes survey (filter_of are) candidate freed }
{
    freed_is_one();
}

/// Where one number alone is wrong and all else is exact, its row is printed, and the right value is the
/// only proposed one. Or as many rows as there may be are printed, and each explains all.
///
/// The mistake is above the limit and within reach, and something checks the number: some circulation
/// has a net through it.
pub fn one_wrong_number_is_printed()
    ensures { (right : Survey) (candidate : Candidate) (wrong : ℤ) (truth : List ℕ → ℤ)
        (flows : List ℤ) (reviews : List BookReview) (limit : ℤ) (explained : Explanations)
        (are : AreExplained (changed (number_of candidate) wrong right) reviews limit explained)
        → Circulates right flows
        → net (number_of candidate) right flows ≢ pos 0
        → Keeps right truth
        → cost_of right truth ≡ 0
        → limit_size limit < unsigned_abs wrong
        → unsigned_abs wrong < reach_of (number_of candidate)
        (changed (number_of candidate) wrong right).observations
        → Contains (in_order (listed_of (changed (number_of candidate) wrong right)
        (entries_of reviews) are.tied)) candidate
        → IsMended (given_of (changed (number_of candidate) wrong right).benchmarks candidate) wrong
        explained.rows.items
        ⊎ ((length explained.rows.items ≡ most_rows)
        × All (λ row. row.left ≡ 0) explained.rows.items) }
{
    freed_is_one();
}

/// Where one number is wrong and all else has small errors, its row is printed, and is ahead of others.
///
/// Its mistake, times some circulation's net through it, is above the limit by more than twice what the
/// right survey costs, and is within reach by as much. Then the number passes, and its row is printed,
/// or as many as there may be which leave no more (`printed`). A change that was forgotten must leave no
/// more than its whole entry. The rows of other numbers leave more where a circulation has no net
/// through the other number and enough through the wrong one (`ahead`). Without such a circulation the
/// two explain alike. `proposed_is_near` says how near the right value the proposed ones are.
pub fn wrong_number_leads()
    ensures printed { (right : Survey) (candidate : Candidate) (wrong : ℤ) (truth : List ℕ → ℤ)
        (flows : List ℤ) (reviews : List BookReview) (limit : ℤ) (explained : Explanations) (freed : Freed)
        (are : AreExplained (changed (number_of candidate) wrong right) reviews limit explained)
        → Circulates right flows
        → Keeps right truth
        → IsExact (changed (number_of candidate) wrong right) (number_of candidate) freed
        → LeavesNoMore (changed (number_of candidate) wrong right) (whole_of candidate) freed.left
        → limit_size limit * unsigned_abs (net (number_of candidate) right flows)
        + 2 * cost_of right truth
        < unsigned_abs wrong * unsigned_abs (net (number_of candidate) right flows)
        → unsigned_abs wrong * unsigned_abs (net (number_of candidate) right flows)
        + 2 * cost_of right truth
        < reach_of (number_of candidate) (changed (number_of candidate) wrong right).observations
        * unsigned_abs (net (number_of candidate) right flows)
        → Contains (in_order (listed_of (changed (number_of candidate) wrong right)
        (entries_of reviews) are.tied)) candidate
        → IsAmongRows (changed (number_of candidate) wrong right)
        (cost_of (changed (number_of candidate) wrong right) are.heights) (filter_of are) candidate
        explained.rows.items
        ⊎ ((length explained.rows.items ≡ most_rows)
        × All (λ row. row.left ≤ freed.left) explained.rows.items) }
    ensures ahead { (right : Survey) (candidate other : Candidate) (wrong : ℤ) (truth : List ℕ → ℤ)
        (flows : List ℤ) (filter : Filter) (cost : ℕ) (own row : Row)
        → Circulates right flows
        → net (number_of other) right flows ≡ pos 0
        → Keeps right truth
        → 2 * cost_of right truth
        < unsigned_abs wrong * unsigned_abs (net (number_of candidate) right flows)
        → IsRow (changed (number_of candidate) wrong right) cost filter candidate own
        → IsRow (changed (number_of candidate) wrong right) cost filter other row
        → own.left < row.left }
{
    freed_is_one();
}
