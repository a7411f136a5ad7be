//! Projects that are adjusted, and what is printed is checked.
ghost use Rattle.std.specs.Prelude.{◌≤◌};
ghost use Rattle.th_devices.specs.Memory.{text_sink};
ghost use Rattle.th_runs.specs.Adjusted.{adjusting};
ghost use Rattle.th_run_parts.specs.Writes.{AreWritable};

use crate::helpers::{
    AT_CERTIFICATE, AT_HEIGHTS, Sinks, Texts, add, adjust, adjust_books, adjust_into, are_same,
    is_accepted, source,
};
use crate::projects::{
    A_AT_100, FAR_MISREAD_SIGHT, HEIGHTS, LIMIT, LONGEST_SIGHT, LOOP, LOOP_BEGINNING, LOOP_END,
    MISREAD_SIGHT, ONE_SIGHT, SETUP, SIGHT, SPAN_AND_ON, THERE_AND_BACK, TWO_SIGHTS, WIDE_SIGHT,
};
use std::process::Abort;
use th_devices::TextSink;

/// A book, its benchmarks and weights, the heights file, and the certificate where one circulation
/// alone shows the heights.
type Row = (
    &'static [u8],
    &'static [u8],
    &'static [u8],
    &'static str,
    Option<&'static str>,
);

const ROWS: [Row; 13] = [
    (
        ONE_SIGHT,
        A_AT_100,
        b"",
        "point,height,low,high\nA,100.00000000,100.00000000,100.00000000\nB,102.54500000,102.54500000,102.54500000\n",
        Some(
            "kind,key,value\nV,2,1\nH,A,100.00000000\nH,B,102.54500000\nL,A,100.00000000\nL,B,102.54500000\nU,A,100.00000000\nU,B,102.54500000\nF,1,0\nZ,cost,0\n",
        ),
    ),
    (
        WIDE_SIGHT,
        A_AT_100,
        b"",
        "point,height,low,high\nA,100.00000000,100.00000000,100.00000000\nB,102.54513120,102.54513120,102.54513120\n",
        None,
    ),
    (
        MISREAD_SIGHT,
        A_AT_100,
        b"",
        "point,height,low,high\nA,100.00000000,100.00000000,100.00000000\nB,102.54600000,102.54600000,102.54600000\n",
        Some(
            "kind,key,value\nV,2,3\nH,A,100.00000000\nH,B,102.54600000\nL,A,100.00000000\nL,B,102.54600000\nU,A,100.00000000\nU,B,102.54600000\nF,1,-1\nF,2,0\nF,3,1\nZ,cost,100000000\n",
        ),
    ),
    (
        TWO_SIGHTS,
        A_AT_100,
        b"",
        "point,height,low,high\nA,100.00000000,100.00000000,100.00000000\nB,102.54500000,102.54500000,102.54700000\n",
        Some(
            "kind,key,value\nV,2,2\nH,A,100.00000000\nH,B,102.54500000\nL,A,100.00000000\nL,B,102.54500000\nU,A,100.00000000\nU,B,102.54700000\nF,1,-1\nF,2,1\nZ,cost,200000\n",
        ),
    ),
    (
        LOOP,
        A_AT_100,
        b"",
        "point,height,low,high\nA,100.00000000,100.00000000,100.00000000\nB,101.00000000,101.00000000,101.00000000\nC,102.00000000,102.00000000,102.00000000\n",
        None,
    ),
    (
        THERE_AND_BACK,
        A_AT_100,
        b"from,to,weight\nA,B,3\n",
        "point,height,low,high\nA,100.00000000,100.00000000,100.00000000\nB,102.54500000,102.54500000,102.54500000\n",
        Some(
            "kind,key,value\nV,2,2\nH,A,100.00000000\nH,B,102.54500000\nL,A,100.00000000\nL,B,102.54500000\nU,A,100.00000000\nU,B,102.54500000\nF,1,-1\nF,2,-1\nZ,cost,1000000\n",
        ),
    ),
    (
        ONE_SIGHT,
        b"point,height\nA,100\nB,103\n",
        b"",
        "point,height,low,high\nA,100.00000000,100.00000000,100.00000000\nB,103.00000000,103.00000000,103.00000000\n",
        Some(
            "kind,key,value\nV,2,1\nH,A,100.00000000\nH,B,103.00000000\nL,A,100.00000000\nL,B,103.00000000\nU,A,100.00000000\nU,B,103.00000000\nF,1,-1\nZ,cost,45500000\n",
        ),
    ),
    (
        b"",
        A_AT_100,
        b"",
        "point,height,low,high\nA,100.00000000,100.00000000,100.00000000\n",
        Some(
            "kind,key,value\nV,2,0\nH,A,100.00000000\nL,A,100.00000000\nU,A,100.00000000\nZ,cost,0\n",
        ),
    ),
    (
        b"",
        b"point,height\n",
        b"",
        "point,height,low,high\n",
        Some("kind,key,value\nV,2,0\nZ,cost,0\n"),
    ),
    // B has a span, and C, which is sighted from B alone, has the same.
    (
        SPAN_AND_ON,
        A_AT_100,
        b"",
        "point,height,low,high\nA,100.00000000,100.00000000,100.00000000\nB,102.54500000,102.54500000,102.54700000\nC,103.54500000,103.54500000,103.54700000\n",
        Some(
            "kind,key,value\nV,2,3\nH,A,100.00000000\nH,B,102.54500000\nH,C,103.54500000\nL,A,100.00000000\nL,B,102.54500000\nL,C,103.54500000\nU,A,100.00000000\nU,B,102.54700000\nU,C,103.54700000\nF,1,-1\nF,2,1\nF,3,0\nZ,cost,200000\n",
        ),
    ),
    // A sight that is misread by nine kilometres moves no height.
    (
        FAR_MISREAD_SIGHT,
        A_AT_100,
        b"",
        "point,height,low,high\nA,100.00000000,100.00000000,100.00000000\nB,102.54600000,102.54600000,102.54600000\n",
        Some(
            "kind,key,value\nV,2,3\nH,A,100.00000000\nH,B,102.54600000\nL,A,100.00000000\nL,B,102.54600000\nU,A,100.00000000\nU,B,102.54600000\nF,1,-1\nF,2,0\nF,3,1\nZ,cost,900100000000\n",
        ),
    ),
    // The longest difference, and the largest residual.
    (
        LONGEST_SIGHT,
        A_AT_100,
        b"",
        "point,height,low,high\nA,100.00000000,100.00000000,100.00000000\nB,30100.00000000,30100.00000000,30100.00000000\n",
        Some(
            "kind,key,value\nV,2,1\nH,A,100.00000000\nH,B,30100.00000000\nL,A,100.00000000\nL,B,30100.00000000\nU,A,100.00000000\nU,B,30100.00000000\nF,1,0\nZ,cost,0\n",
        ),
    ),
    (
        LONGEST_SIGHT,
        b"point,height\nA,10000\nB,-10000\n",
        b"",
        "point,height,low,high\nA,10000.00000000,10000.00000000,10000.00000000\nB,-10000.00000000,-10000.00000000,-10000.00000000\n",
        Some(
            "kind,key,value\nV,2,1\nH,A,10000.00000000\nH,B,-10000.00000000\nL,A,10000.00000000\nL,B,-10000.00000000\nU,A,10000.00000000\nU,B,-10000.00000000\nF,1,1\nZ,cost,5000000000000\n",
        ),
    ),
];

/// Adjusts a project, looks at its heights and its certificate, and checks what is printed.
fn adjust_row<R: AllocGlobal + Abort>(rt: &R, row: &Row) {
    let (book, benchmarks, weights, heights, certificate) = *row;
    let texts: Texts = (book, benchmarks, weights);
    let (answer, outs) = adjust(rt, texts);
    assert_eq!(rt; answer, Ok(()), "{heights}");
    are_same(rt, outs[AT_HEIGHTS].bytes(), heights.as_bytes(), heights);
    let printed = outs[AT_CERTIFICATE].bytes();
    if let Some(certificate) = certificate {
        are_same(rt, printed, certificate.as_bytes(), heights);
    }
    is_accepted(rt, texts, printed);
}

#[test]
fn adjusts_projects_and_accepts_what_is_printed(rt: HostRuntime) {
    for row in &ROWS {
        adjust_row(&rt, row);
    }
}

#[test]
fn joins_two_books_without_weights(rt: HostRuntime) {
    let mut books = [source(LOOP_BEGINNING), source(LOOP_END)];
    let (answer, outs) = adjust_books(&rt, &mut books);
    assert_eq!(rt; answer, Ok(()));
    is_accepted(&rt, (LOOP, A_AT_100, b""), outs[AT_CERTIFICATE].bytes());
}

#[test]
fn adjusts_sixteen_books(rt: HostRuntime) {
    let mut books = [
        source(ONE_SIGHT),
        source(b""),
        source(ONE_SIGHT),
        source(b""),
        source(ONE_SIGHT),
        source(b""),
        source(ONE_SIGHT),
        source(b""),
        source(ONE_SIGHT),
        source(b""),
        source(ONE_SIGHT),
        source(b""),
        source(ONE_SIGHT),
        source(b""),
        source(b""),
        source(TWO_SIGHTS),
    ];
    let (answer, outs) = adjust_books(&rt, &mut books);
    assert_eq!(rt; answer, Ok(()));
    assert!(rt; outs[AT_HEIGHTS].bytes() == HEIGHTS);
}

/// A sink with room for the texts of a large network.
fn large_sink<R: AllocGlobal + Abort>(rt: &R) -> TextSink
    ensures { result.counts.calls ≤ 15 }
{
    TextSink::new(rt.alloc(), 10_000_000, 4_096, None).expect(rt, "memory")
}

/// Four of these.
fn large_sinks<R: AllocGlobal + Abort>(rt: &R) -> Sinks
    ensures { AreWritable text_sink adjusting.outputs result }
{
    [
        large_sink(rt),
        large_sink(rt),
        large_sink(rt),
        large_sink(rt),
    ]
}

/// Adjusts a large book whose sights agree to these heights, and checks what is printed.
fn adjust_large<R: AllocGlobal + Abort>(rt: &R, book: &[u8], heights: &[u8]) {
    let texts: Texts = (book, A_AT_100, b"");
    let mut outs = large_sinks(rt);
    let answer = adjust_into(rt, texts, LIMIT, &mut outs);
    assert_eq!(rt; answer, Ok(()));
    assert!(rt; outs[AT_HEIGHTS].bytes() == heights);
    let printed = outs[AT_CERTIFICATE].bytes();
    assert!(rt; printed.ends_with(b"Z,cost,0\n"));
    is_accepted(rt, texts, printed);
}

#[test]
fn adjusts_forty_thousand_sights(rt: HostRuntime) {
    let mut book = Vec::from_slice(rt.alloc(), SETUP).expect(&rt, "memory");
    add(&rt, &mut book, SIGHT, 40_000);
    adjust_large(&rt, &book, HEIGHTS);
}

#[test]
fn adjusts_four_thousand_points(rt: HostRuntime) {
    // Each point but A is sighted ten times from A.
    let mut book = Vec::from_slice(rt.alloc(), SETUP).expect(&rt, "memory");
    let rows: &[u8] = b"point,height,low,high\nA,100.00000000,100.00000000,100.00000000\n";
    let mut heights = Vec::from_slice(rt.alloc(), rows).expect(&rt, "memory");
    for target in 0..3_999_u32 {
        let sight = format!(in rt.alloc();
            "110002+000P{target:04} 33..00+00002345 87..10+00001300 \n"
        ).expect(&rt, "memory");
        add(&rt, &mut book, sight.as_bytes(), 10);
        let row = format!(in rt.alloc();
            "P{target:04},102.54500000,102.54500000,102.54500000\n"
        ).expect(&rt, "memory");
        add(&rt, &mut heights, row.as_bytes(), 1);
    }
    adjust_large(&rt, &book, &heights);
}
