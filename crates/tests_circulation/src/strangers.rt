//! Settling over strange searches, compared with settling over the program's search.
use crate::randoms::{Random, Sample};
use crate::searches::{Manner, StrangeSearch};
use crate::settling::{are_alike, settled_over};
use crate::surveys::{network_of, tables_of};
use std::alloc::Global;
use std::process::Abort;
use th_search::LabelSearch;

/// Strange manners of answering.
const MANNERS: [Manner; 3] = [Manner::Longest, Manner::Turned, Manner::Lowest];

/// Settles a sample over a search of each manner, and compares what it gives with what the program's
/// search does.
fn settle_strangely(rt: &impl Abort, alloc: Global, sample: &Sample) {
    let tables = tables_of(rt, alloc, &sample.benchmarks, &sample.weights);
    let network = network_of(rt, alloc, &sample.book, &tables);
    let wanted = settled_over(rt, alloc, &network, LabelSearch::new());
    for manner in MANNERS {
        let given = settled_over(rt, alloc, &network, StrangeSearch::new(manner));
        assert!(rt; are_alike(&network, &given, &wanted), "{manner:?}");
    }
}

#[test]
fn strange_searches_settle_as_well(rt: HostRuntime) {
    let mut random = Random { state: 2 };
    for _ in 0..300 {
        let sample = Sample::new(&rt, rt.alloc(), &mut random);
        settle_strangely(&rt, rt.alloc(), &sample);
    }
}
