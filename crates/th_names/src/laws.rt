//! What readings leave, which of them fit, and how that is found. A law is its contract: it computes nothing.

ghost use Rattle.std.specs.Prelude.{◌≡◌, ◌≢◌, ℕ, ◌≤◌, ◌+◌, ◌*◌, ℤ, pos, ◌+ℤ◌, ◌-ℤ◌, ◌*ℤ◌, ◌≤ℤ◌, List, All, Some, None, map, unsigned_abs};
ghost use Rattle.th_observations.specs.Observed.{Observed};
ghost use Rattle.th_tables.specs.Rows.{WeightRows, height_of};
ghost use Rattle.th_network.specs.Heights.{Least, cost, residual};
ghost use Rattle.th_network.specs.Networks.{Survey};
ghost use Rattle.th_reliability.specs.declared.sights.Sights.{Sights};
ghost use Rattle.th_changes.specs.declared.numbers.Number.{Number};
ghost use Rattle.th_changes.specs.declared.numbers.Number.TheVariants.{Added, Benchmark};
ghost use Rattle.th_changes.specs.Flows.{Circulates, net, value};
ghost use Rattle.th_changes.specs.Freed.{IsFreed, Keeps, cost_of};
ghost use Rattle.th_changes.specs.Tilted.{tilted};
ghost use Rattle.th_explain.specs.Explained.{IsExact};
ghost use Rattle.th_explain.specs.declared.freed.Freed.{Freed};
ghost use Rattle.th_names.specs.Fits.{AreBestFreed, AreFrom, AreTo, above_begin, above_end, weight_at, weight_in};
ghost use Rattle.th_names.specs.Gaps.{IsBetween, IsNaming, LiesBy, MayBeRead, number_in, reading_with, weight_with};
ghost use Rattle.th_names.specs.Mended.{IsMended, KeepsWeights, WeighsNoLess, as_read, read};
ghost use Rattle.th_names.specs.Readings.{IsLeft, KeepsRead, Reading, aimed, of_observations, of_rows, read_cost, renamed_row, set_up, with_other_sign};
ghost use Rattle.th_names.specs.Rises.{AreExtremes};
ghost use Rattle.th_names.specs.declared.namings.Naming.{Naming};
ghost use Rattle.th_names.specs.declared.namings.Naming.TheVariants.{Row, Station, Target};

/// A reading is left by best heights of an ordinary survey: the one that is read so, with rows by which
/// each observation keeps its weight.
pub fn reading_is_ordinary()
    ensures { (survey : Survey) (reading : Reading) (weights : WeightRows) (heights : List ℕ → ℤ)
        → KeepsWeights survey reading weights
        → Least (map reading.observation survey.observations) (reading.rows survey.benchmarks) weights heights
        → IsLeft survey reading (cost (map reading.observation survey.observations) weights heights) }
{}

/// Circulations of the survey as it is read bound what is left, and one of the same value shows it. So
/// a circulation shows that a name does not fit, without an adjustment.
pub fn flows_bound_left()
    ensures bound { (survey : Survey) (reading : Reading) (weights : WeightRows) (flows : List ℤ) (left : ℕ)
        → KeepsWeights survey reading weights
        → Circulates (as_read survey reading weights) flows
        → IsLeft survey reading left
        → unsigned_abs (value (as_read survey reading weights) flows) ≤ left }
    ensures shown { (survey : Survey) (reading : Reading) (weights : WeightRows) (flows : List ℤ) (heights : List ℕ → ℤ)
        → KeepsWeights survey reading weights
        → Circulates (as_read survey reading weights) flows
        → KeepsRead survey reading heights
        → value (as_read survey reading weights) flows ≡ pos (read_cost survey reading heights)
        → IsLeft survey reading (read_cost survey reading heights) }
{}

/// A reading has one cost that is left.
pub fn left_is_one()
    ensures { (survey : Survey) (reading : Reading) (first second : ℕ)
        → IsLeft survey reading first
        → IsLeft survey reading second
        → first ≡ second }
{}

/// A name explains no more than its number: another target no more than the sights' differences, another
/// station no more than their instrument height, the other sign no more than the difference, and
/// another point no more than the benchmark's height.
pub fn reading_explains_no_more()
    ensures target { (survey : Survey) (sights : Sights) (target point : List ℕ) (freed left : ℕ)
        → AreTo sights target survey.observations
        → IsFreed survey (Added sights) freed
        → IsLeft survey (of_observations (aimed sights point)) left
        → freed ≤ left }
    ensures station { (survey : Survey) (sights : Sights) (station point : List ℕ) (freed left : ℕ)
        → AreFrom sights station survey.observations
        → IsFreed survey (Added sights) freed
        → IsLeft survey (of_observations (set_up sights point)) left
        → freed ≤ left }
    ensures sign { (survey : Survey) (sights : Sights) (word : ℤ) (freed left : ℕ)
        → IsFreed survey (Added sights) freed
        → IsLeft survey (of_observations (with_other_sign sights word)) left
        → freed ≤ left }
    ensures point { (survey : Survey) (benchmark point : List ℕ) (height : ℤ) (freed left : ℕ)
        → height_of survey.benchmarks benchmark ≡ Some height
        → height_of survey.benchmarks point ≡ None
        → point ≢ benchmark
        → IsFreed survey (Benchmark benchmark) freed
        → IsLeft survey (of_rows (renamed_row benchmark point)) left
        → freed ≤ left }
{}

/// A reading leaves little more than its number if it fits: with best heights where the number is set
/// free, it leaves at most the weight times the distance between these heights and what is read.
pub fn reading_leaves_little_more()
    ensures target { (survey : Survey) (sights : Sights) (target point : List ℕ) (freed left : ℕ)
        (x : ℤ) (heights : List ℕ → ℤ)
        → AreTo sights target survey.observations
        → AreBestFreed survey (Added sights) freed x heights
        → IsLeft survey (of_observations (aimed sights point)) left
        → left ≤ freed + weight_in survey sights * unsigned_abs ((heights target -ℤ heights point) -ℤ x) }
    ensures station { (survey : Survey) (sights : Sights) (station point : List ℕ) (freed left : ℕ)
        (x : ℤ) (heights : List ℕ → ℤ)
        → AreFrom sights station survey.observations
        → AreBestFreed survey (Added sights) freed x heights
        → IsLeft survey (of_observations (set_up sights point)) left
        → left ≤ freed + weight_in survey sights * unsigned_abs ((heights point -ℤ heights station) -ℤ x) }
    ensures sign { (survey : Survey) (sights : Sights) (word : ℤ) (freed left : ℕ)
        (x : ℤ) (heights : List ℕ → ℤ)
        → AreBestFreed survey (Added sights) freed x heights
        → IsLeft survey (of_observations (with_other_sign sights word)) left
        → left ≤ freed + weight_in survey sights * unsigned_abs ((pos 0 -ℤ pos 2 *ℤ word) -ℤ x) }
    ensures point { (survey : Survey) (benchmark point : List ℕ) (height : ℤ) (freed left : ℕ)
        (x : ℤ) (heights : List ℕ → ℤ)
        → height_of survey.benchmarks benchmark ≡ Some height
        → height_of survey.benchmarks point ≡ None
        → point ≢ benchmark
        → AreBestFreed survey (Benchmark benchmark) freed x heights
        → IsLeft survey (of_rows (renamed_row benchmark point)) left
        → left ≤ freed + weight_at survey point * unsigned_abs (height -ℤ heights point) }
{}

/// A reading that leaves as much as its number has heights, among the best where that number is set
/// free, which are what is read. (The law before this says the other way.)
pub fn equal_readings_fit()
    ensures target { (survey : Survey) (sights : Sights) (target point : List ℕ) (freed : ℕ)
        → AreTo sights target survey.observations
        → IsFreed survey (Added sights) freed
        → IsLeft survey (of_observations (aimed sights point)) freed
        → (heights : List ℕ → ℤ) × AreBestFreed survey (Added sights) freed (heights target -ℤ heights point) heights }
    ensures station { (survey : Survey) (sights : Sights) (station point : List ℕ) (freed : ℕ)
        → AreFrom sights station survey.observations
        → IsFreed survey (Added sights) freed
        → IsLeft survey (of_observations (set_up sights point)) freed
        → (heights : List ℕ → ℤ) × AreBestFreed survey (Added sights) freed (heights point -ℤ heights station) heights }
    ensures point { (survey : Survey) (benchmark point : List ℕ) (height : ℤ) (freed : ℕ)
        → height_of survey.benchmarks benchmark ≡ Some height
        → height_of survey.benchmarks point ≡ None
        → point ≢ benchmark
        → IsFreed survey (Benchmark benchmark) freed
        → IsLeft survey (of_rows (renamed_row benchmark point)) freed
        → (heights : List ℕ → ℤ) × AreBestFreed survey (Benchmark benchmark) freed (heights benchmark -ℤ height) heights
        × (heights point ≡ height) }
{}

/// How far from what is read all best heights are, where the number is set free: a circulation of the
/// survey as it is read, with little net through the number, shows it. With a net of one unit the distance
/// is at least its value less what is left of the number. So no name that fits better is missing.
pub fn fit_is_bounded()
    ensures target { (survey : Survey) (sights : Sights) (target point : List ℕ) (weights : WeightRows) (flows : List ℤ)
        (freed : ℕ) (x : ℤ) (heights : List ℕ → ℤ)
        → AreTo sights target survey.observations
        → KeepsWeights survey (of_observations (aimed sights point)) weights
        → Circulates (as_read survey (of_observations (aimed sights point)) weights) flows
        → AreBestFreed survey (Added sights) freed x heights
        → unsigned_abs (value (as_read survey (of_observations (aimed sights point)) weights) flows)
        ≤ freed + unsigned_abs ((heights target -ℤ heights point) -ℤ x) * unsigned_abs (net (Added sights) survey flows) }
    ensures station { (survey : Survey) (sights : Sights) (station point : List ℕ) (weights : WeightRows) (flows : List ℤ)
        (freed : ℕ) (x : ℤ) (heights : List ℕ → ℤ)
        → AreFrom sights station survey.observations
        → KeepsWeights survey (of_observations (set_up sights point)) weights
        → Circulates (as_read survey (of_observations (set_up sights point)) weights) flows
        → AreBestFreed survey (Added sights) freed x heights
        → unsigned_abs (value (as_read survey (of_observations (set_up sights point)) weights) flows)
        ≤ freed + unsigned_abs ((heights point -ℤ heights station) -ℤ x) * unsigned_abs (net (Added sights) survey flows) }
{}

/// Of two best heights where a number is set free, the lower ones and the higher ones are best too, each with
/// the change of one of them: counted from where sights to a target end, from where sights from a station
/// begin, or from any benchmark but the freed one. So over all best heights, the least and the greatest height of each
/// point above what is read are those at the least and the greatest change that is proposed: two adjustments
/// give them.
pub fn best_heights_meet()
    ensures target_low { (survey : Survey) (sights : Sights) (target : List ℕ) (freed : ℕ)
        (x y : ℤ) (heights others : List ℕ → ℤ)
        → AreTo sights target survey.observations
        → AreBestFreed survey (Added sights) freed x heights
        → AreBestFreed survey (Added sights) freed y others
        → x ≤ℤ y
        → (lower : List ℕ → ℤ) × AreBestFreed survey (Added sights) freed x lower
        × ((point : List ℕ) → above_end target x lower point ≤ℤ above_end target y others point) }
    ensures target_high { (survey : Survey) (sights : Sights) (target : List ℕ) (freed : ℕ)
        (x y : ℤ) (heights others : List ℕ → ℤ)
        → AreTo sights target survey.observations
        → AreBestFreed survey (Added sights) freed x heights
        → AreBestFreed survey (Added sights) freed y others
        → y ≤ℤ x
        → (higher : List ℕ → ℤ) × AreBestFreed survey (Added sights) freed x higher
        × ((point : List ℕ) → above_end target y others point ≤ℤ above_end target x higher point) }
    ensures station_low { (survey : Survey) (sights : Sights) (station : List ℕ) (freed : ℕ)
        (x y : ℤ) (heights others : List ℕ → ℤ)
        → AreFrom sights station survey.observations
        → AreBestFreed survey (Added sights) freed x heights
        → AreBestFreed survey (Added sights) freed y others
        → y ≤ℤ x
        → (lower : List ℕ → ℤ) × AreBestFreed survey (Added sights) freed x lower
        × ((point : List ℕ) → above_begin station x lower point ≤ℤ above_begin station y others point) }
    ensures station_high { (survey : Survey) (sights : Sights) (station : List ℕ) (freed : ℕ)
        (x y : ℤ) (heights others : List ℕ → ℤ)
        → AreFrom sights station survey.observations
        → AreBestFreed survey (Added sights) freed x heights
        → AreBestFreed survey (Added sights) freed y others
        → x ≤ℤ y
        → (higher : List ℕ → ℤ) × AreBestFreed survey (Added sights) freed x higher
        × ((point : List ℕ) → above_begin station y others point ≤ℤ above_begin station x higher point) }
    ensures point_low { (survey : Survey) (benchmark : List ℕ) (freed : ℕ)
        (x y : ℤ) (heights others : List ℕ → ℤ)
        → AreBestFreed survey (Benchmark benchmark) freed x heights
        → AreBestFreed survey (Benchmark benchmark) freed y others
        → x ≤ℤ y
        → (lower : List ℕ → ℤ) × AreBestFreed survey (Benchmark benchmark) freed x lower
        × ((point : List ℕ) → lower point ≤ℤ others point) }
    ensures point_high { (survey : Survey) (benchmark : List ℕ) (freed : ℕ)
        (x y : ℤ) (heights others : List ℕ → ℤ)
        → AreBestFreed survey (Benchmark benchmark) freed x heights
        → AreBestFreed survey (Benchmark benchmark) freed y others
        → y ≤ℤ x
        → (higher : List ℕ → ℤ) × AreBestFreed survey (Benchmark benchmark) freed x higher
        × ((point : List ℕ) → others point ≤ℤ higher point) }
{}

/// If one name is all that is wrong, its reading leaves at most what the right survey costs; nothing, if
/// all others are exact, whatever the weights. (Under its wrong name no observation may weigh more.)
pub fn wrong_name_is_found()
    ensures left { (right wrong : Survey) (reading : Reading) (truth : List ℕ → ℤ) (left : ℕ)
        → IsMended right wrong reading
        → WeighsNoLess wrong reading right.weights
        → Keeps right truth
        → IsLeft wrong reading left
        → left ≤ cost_of right truth }
    ensures exact { (right wrong : Survey) (reading : Reading) (truth : List ℕ → ℤ) (left : ℕ)
        → IsMended right wrong reading
        → Keeps right truth
        → All (λ o. residual o truth ≡ pos 0) right.observations
        → IsLeft wrong reading left
        → left ≡ 0 }
{}

/// The right name mends a wrong one. So does the other sign.
pub fn readings_mend()
    ensures target { (right : Survey) (sights : Sights) (target point : List ℕ)
        → AreTo sights target right.observations
        → IsMended right (read (of_observations (aimed sights point)) right) (of_observations (aimed sights target)) }
    ensures station { (right : Survey) (sights : Sights) (station point : List ℕ)
        → AreFrom sights station right.observations
        → IsMended right (read (of_observations (set_up sights point)) right) (of_observations (set_up sights station)) }
    ensures sign { (right : Survey) (sights : Sights) (word : ℤ)
        → IsMended right (read (of_observations (with_other_sign sights word)) right) (of_observations (with_other_sign sights (pos 0 -ℤ word))) }
    ensures point { (right : Survey) (benchmark point : List ℕ)
        → height_of right.benchmarks point ≡ None
        → IsMended right (read (of_rows (renamed_row benchmark point)) right) (of_rows (renamed_row point benchmark)) }
{}

/// Over all best heights where the number of a name is set free, the least and the greatest height of a point above
/// what is read are those above the name's point in two surveys: with the least and with the greatest change that is
/// proposed, moved to the differences.
pub fn two_adjustments_give_the_ends()
    ensures target { (survey : Survey) (sights : Sights) (target point : List ℕ) (freed : Freed) (a b c d : ℤ)
        → IsNaming survey (Target sights target)
        → IsExact survey (number_in (Target sights target)) freed
        → AreExtremes (tilted (number_in (Target sights target)) freed.low survey) target point a b
        → AreExtremes (tilted (number_in (Target sights target)) freed.high survey) target point c d
        → IsBetween survey (Target sights target) point (a +ℤ freed.low) (d +ℤ freed.high) }
    ensures station { (survey : Survey) (sights : Sights) (station point : List ℕ) (freed : Freed) (a b c d : ℤ)
        → IsNaming survey (Station sights station)
        → IsExact survey (number_in (Station sights station)) freed
        → AreExtremes (tilted (number_in (Station sights station)) freed.low survey) station point a b
        → AreExtremes (tilted (number_in (Station sights station)) freed.high survey) station point c d
        → IsBetween survey (Station sights station) point (c +ℤ (pos 0 -ℤ freed.high)) (b +ℤ (pos 0 -ℤ freed.low)) }
    ensures row { (survey : Survey) (benchmark point : List ℕ) (freed : Freed) (a b c d : ℤ)
        → IsNaming survey (Row benchmark)
        → benchmark ≢ point
        → IsExact survey (number_in (Row benchmark)) freed
        → AreExtremes (tilted (number_in (Row benchmark)) freed.low survey) benchmark point a b
        → AreExtremes (tilted (number_in (Row benchmark)) freed.high survey) benchmark point c d
        → IsBetween survey (Row benchmark) point (a +ℤ pos 0) (d +ℤ pos 0) }
{}

/// A name that fits leaves little more than its number: at most the weight of what is read times how far the
/// point is from it, at any best heights where the number is set free.
pub fn names_leave_little_more()
    ensures { (survey : Survey) (naming : Naming) (point : List ℕ) (freed left : ℕ) (own : ℤ)
        → IsNaming survey naming
        → MayBeRead survey naming point
        → IsFreed survey (number_in naming) freed
        → LiesBy survey naming point own
        → IsLeft survey (reading_with naming point) left
        → left ≤ freed + weight_with survey naming point * unsigned_abs own }
{}
