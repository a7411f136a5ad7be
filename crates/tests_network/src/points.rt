//! Points beyond those of any network, whose names hash with a seed.
use gsi_word::{Name, name_of};
use std::alloc::Global;
use std::process::Abort;
use th_book::read_book;
use th_observations::Observation;
use th_points::Points;
use th_tables::{Benchmarks, read_benchmarks};

/// How many targets A has, and how many benchmarks there are. The first half of them are targets.
const MANY: u32 = 10_000;

/// A setup at A, and two sights to each target: first to all in turn, and then again.
fn observations_of(rt: &impl Abort, alloc: Global) -> Vec<Observation> {
    let setup = b"110001+0000000A 84..10+00000000 88..10+00001500 87..10+00001300 \n";
    let mut book = setup.to_vec(alloc).expect(rt, "memory");
    for sight in 0..2 * MANY {
        let target = 1 + sight % MANY;
        let line = format!(in alloc; "110002+{target:08} 33..00+00002345 \n").expect(rt, "memory");
        book.extend_from_slice(line.as_bytes()).expect(rt, "memory");
    }
    read_book(alloc, 1, &book).expect(rt, "a book")
}

fn benchmarks_of(rt: &impl Abort, alloc: Global) -> Benchmarks {
    let mut table = b"point,height\n".to_vec(alloc).expect(rt, "memory");
    for row in 0..MANY {
        let number = 1 + MANY / 2 + row;
        let line = format!(in alloc; "{number},1\n").expect(rt, "memory");
        table
            .extend_from_slice(line.as_bytes())
            .expect(rt, "memory");
    }
    read_benchmarks(alloc, &table).expect(rt, "benchmarks")
}

/// The name of a number's digits.
fn numbered(rt: &impl Abort, alloc: Global, number: u32) -> Name {
    let digits = format!(in alloc; "{number}").expect(rt, "memory");
    name_of(digits.as_bytes()).expect(rt, "a name")
}

#[test]
fn many_points_stand_in_their_order(rt: HostRuntime) {
    let observations = observations_of(&rt, rt.alloc());
    let benchmarks = benchmarks_of(&rt, rt.alloc());
    let points = Points::of(rt.alloc(), &observations, &benchmarks).expect(&rt, "memory");
    assert_eq!(rt; points.names.len(), 15_001);
    for number in 1..=MANY + MANY / 2 {
        let name = numbered(&rt, rt.alloc(), number);
        assert_eq!(rt; points.names.get_index_of(&name), Some(number as usize));
    }
    assert_eq!(rt; points.ends.len(), 20_000);
    for (sight, ends) in points.ends.iter().enumerate() {
        assert_eq!(rt; *ends, (0, 1 + sight % 10_000));
    }
}
