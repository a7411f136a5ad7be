//! Surveys from texts of books and tables, and what is printed of them.
use std::alloc::Global;
use std::process::Abort;
use th_book::BookFeed;
use th_entries::{SeenNames, Tally};
use th_explain_rows::{Explanations, explanations_of};
use th_explain_texts::{explanations_csv, explanations_text};
use th_network::Network;
use th_progress::Silent;
use th_tables::{read_benchmarks, read_weights};

/// What explains the survey of some books, for a limit in units of 10 nm.
pub fn explained(
    rt: &impl Abort,
    alloc: Global,
    books: &[&[u8]],
    benchmarks: &[u8],
    weights: &[u8],
    limit: i64,
) -> Explanations {
    let benchmarks = read_benchmarks(alloc, benchmarks).expect(rt, "benchmarks");
    let weights = read_weights(alloc, weights).expect(rt, "weights");
    let mut observations = Vec::new(alloc);
    let mut reviews = Vec::new(alloc);
    for (place, book) in books.iter().enumerate() {
        assert!(rt; place < 16);
        let number = place as u32 + 1;
        let mut feed = BookFeed::new(alloc, number);
        let mut tally = Tally::new(alloc, number, SeenNames::new(alloc));
        feed.feed_to(book, &mut tally).expect(rt, "memory");
        let own = feed.finish_to(&mut tally).expect(rt, "no fault");
        observations
            .extend_from_slice(own.as_slice())
            .expect(rt, "memory");
        let (review, _) = tally.review().expect(rt, "memory");
        reviews.push(review).expect(rt, "memory");
    }
    assert!(rt; reviews.len() <= 16);
    let network = Network::build(alloc, observations, &benchmarks, &weights).expect(
        rt,
        "a network",
    );
    explanations_of(alloc, &network, &reviews, limit, &mut Silent).expect(rt, "memory")
}

/// Both texts are these.
pub fn are_printed(rt: &impl Abort, alloc: Global, own: &Explanations, table: &[u8], text: &[u8]) {
    let printed = explanations_csv(alloc, &own.rows, &own.named, &own.readings).expect(
        rt, "memory",
    );
    assert!(rt; printed.as_slice() == table);
    is_text(rt, alloc, own, text);
}

/// The text for people is this.
pub fn is_text(rt: &impl Abort, alloc: Global, own: &Explanations, text: &[u8]) {
    assert!(rt; text_of(rt, alloc, own).as_slice() == text);
}

/// The text for people ends with this.
pub fn ends_with(rt: &impl Abort, alloc: Global, own: &Explanations, wanted: &[u8]) {
    assert!(rt; text_of(rt, alloc, own).as_slice().ends_with(wanted));
}

/// The text for people.
fn text_of(rt: &impl Abort, alloc: Global, own: &Explanations) -> Vec<u8> {
    explanations_text(alloc, &own.summary, &own.rows, &own.named, &own.readings).expect(
        rt, "memory",
    )
}
