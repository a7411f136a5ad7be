//! The numbers that a review finds.
ghost use Rattle.std.specs.Prelude.{◌≡◌, length};
ghost use Rattle.th_network.specs.Networks.{points_of};
ghost use Rattle.th_review_rows.specs.Entries.{entries_of};

use th_entries::BookReview;
use th_network::Network;
use th_reliability::{BenchmarkEffect, Blame, Effect};

/// The numbers that a review finds of a network and of the entries of its books.
#[derive(Drop)]
pub struct Findings<'a> {
    pub network: &'a Network<'a>,
    /// The reviews of its books, in their order.
    pub reviews: &'a [BookReview],
    /// The strength of each point, in point order; a benchmark has none.
    pub strengths: Vec<Option<u32>>,
    /// The same where all weights are 1: a point that one observation alone holds has 1.
    pub unit_strengths: Vec<Option<u32>>,
    /// The control of each observation, in their order; one between two benchmarks has none.
    pub controls: Vec<Option<u32>>,
    /// What a mistake in each observation would move, in their order.
    pub blames: Vec<Option<Blame>>,
    /// What a mistake in each entry would do, in the order of books and entries.
    pub effects: Vec<Effect>,
    /// What a wrong height of each benchmark would do, in the order of their table.
    pub benchmarks: Vec<BenchmarkEffect>,
    pub ghost each_strength: { length strengths.items ≡ length (points_of network.now) },
    pub ghost each_unit_strength: { length unit_strengths.items ≡ length (points_of network.now) },
    pub ghost each_control: { length controls.items ≡ length network.now.observations },
    pub ghost each_blame: { length blames.items ≡ length network.now.observations },
    pub ghost each_effect: { length effects.items ≡ length (entries_of reviews.now) },
    pub ghost each_benchmark: { length benchmarks.items ≡ length network.now.benchmarks },
}
