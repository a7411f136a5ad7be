//! Certificates of the worked surveys, record by record, and their texts with some records changed.
use std::alloc::Global;
use std::process::Abort;

/// The records of a certificate of version 1 for the round.
pub const OF_ROUND: [&[u8]; 10] = [
    b"kind,key,value\n",
    b"V,1,4\n",
    b"H,A,100.00000000\n",
    b"H,B,101.00000000\n",
    b"H,C,102.00000000\n",
    b"F,1,0\n",
    b"F,2,0\n",
    b"F,3,1\n",
    b"F,4,1\n",
    b"Z,cost,50000000\n",
];

/// The records of the certificate of version 2 for the pair of sights.
pub const OF_PAIR: [&[u8]; 11] = [
    b"kind,key,value\n",
    b"V,2,2\n",
    b"H,A,100.00000000\n",
    b"H,B,102.54500000\n",
    b"L,A,100.00000000\n",
    b"L,B,102.54500000\n",
    b"U,A,100.00000000\n",
    b"U,B,102.54700000\n",
    b"F,1,-1\n",
    b"F,2,1\n",
    b"Z,cost,200000\n",
];

/// The records of a certificate of version 1 for the sight between two benchmarks.
pub const OF_FIXED: [&[u8]; 6] = [
    b"kind,key,value\n",
    b"V,1,1\n",
    b"H,A,100.00000000\n",
    b"H,B,103.00000000\n",
    b"F,1,-1\n",
    b"Z,cost,45500000\n",
];

/// The records of the certificate of version 2 for no observations.
pub const OF_NOTHING: [&[u8]; 3] = [b"kind,key,value\n", b"V,2,0\n", b"Z,cost,0\n"];

/// Records by their numbers, counted from 1, and what replaces them.
pub type Changes = &'static [(usize, &'static [u8])];

/// The text of records, some of them changed.
pub fn changed(
    rt: &impl Abort,
    alloc: Global,
    records: &[&'static [u8]],
    changes: Changes,
) -> Vec<u8> {
    let mut text = Vec::new(alloc);
    for (k, record) in records.iter().enumerate() {
        text.extend_from_slice(in_place(k, record, changes))
            .expect(rt, "memory");
    }
    text
}

/// The record with this number, counted from 0 here, or what replaces it.
fn in_place(k: usize, record: &'static [u8], changes: Changes) -> &'static [u8] {
    for (number, text) in changes {
        if *number == k.wrapping_add(1) {
            return text;
        }
    }
    record
}
