//! The settling of the network of the book, and once more after a failed allocation.
use crate::books::BOOK;
use std::alloc::Global;
use std::io;
use th_book::read_book;
use th_circulation::{Settled, Steps, settle};
use th_network::Network;
use th_search::LabelSearch;
use th_tables::{read_benchmarks, read_weights};

/// The benchmark A at 100 m.
const A_AT_100: &[u8] = b"point,height\nA,100\n";

/// A weight of a pair that the book does not observe.
const WEIGHTS: &[u8] = b"from,to,weight\nB,A,2\n";

/// More steps than the network needs, and than a search may have taken before it is called.
const MANY_STEPS: u128 = 1_000_000;

/// Settles the network of the book, and begins once more where a call before it wants memory.
pub fn print_settled<R: Print>(rt: &R, alloc: Global) -> io::Result<()> {
    if settle_book(rt, alloc)? || settle_book(rt, alloc)? {
        return Ok(());
    }
    println!(rt; "a network wants memory again")?;
    Ok(())
}

/// Settles the network of the book; whether there was memory for it.
fn settle_book<R: Print>(rt: &R, alloc: Global) -> io::Result<bool> {
    let Ok(observations) = read_book(alloc, 1, BOOK) else {
        return say_wanting(rt, "read_book");
    };
    let Ok(benchmarks) = read_benchmarks(alloc, A_AT_100) else {
        return say_wanting(rt, "read_benchmarks");
    };
    let Ok(weights) = read_weights(alloc, WEIGHTS) else {
        return say_wanting(rt, "read_weights");
    };
    let Ok(network) = Network::build(alloc, observations, &benchmarks, &weights) else {
        return say_wanting(rt, "Network::build");
    };
    settle_network(rt, alloc, &network)?;
    Ok(true)
}

fn say_wanting<R: Print>(rt: &R, call: &str) -> io::Result<bool> {
    println!(rt; "{call} wants memory")?;
    Ok(false)
}

/// Settles a network, and where that wants memory once more over the same search.
fn settle_network<R: Print>(rt: &R, alloc: Global, network: &Network) -> io::Result<()> {
    let mut search = LabelSearch::new();
    let mut steps = Steps::new();
    if let Ok(settled) = settle(alloc, network, &mut search, &mut steps) {
        return print_heights(rt, &settled);
    }
    println!(rt; "settle wants memory")?;
    if steps.count() > MANY_STEPS {
        return Ok(());
    }
    match settle(alloc, network, &mut search, &mut steps) {
        Ok(settled) => print_heights(rt, &settled),
        Err(_) => {
            println!(rt; "settle wants memory again")?;
            Ok(())
        }
    }
}

/// Prints the heights and the flows.
fn print_heights<R: Print>(rt: &R, settled: &Settled) -> io::Result<()> {
    for height in &settled.heights {
        println!(rt; "height {height}")?;
    }
    for flow in &settled.flows {
        println!(rt; "flow {flow}")?;
    }
    Ok(())
}
