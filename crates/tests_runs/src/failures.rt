//! Inputs that are refused in the order in which they are read, and devices that fail.
ghost use Rattle.std.specs.Prelude.{Option};
ghost use Rattle.th_devices.specs.Memory.{text_source};
ghost use Rattle.th_run_parts.specs.Reads.{AreRead, AreReady};

use crate::devices::{refuse_in_adjustment, refuse_nothing};
use crate::helpers::{
    AT_CERTIFICATE, AT_GSI, AT_HEIGHTS, AT_REPORT, Device, HELD_BEFORE, Sinks, adjust_books,
    adjust_from, are_untouched, is_refused, sink, source,
};
use crate::projects::{A_AT_100, CERTIFICATE, FAULTY_BOOK, FAULTY_TABLE, HEIGHTS, ONE_SIGHT};
use gsi_word::name_of;
use std::process::Abort;
use th_book::{BookFault, BookKind};
use th_devices::TextSource;
use th_network::NetFault;
use th_runs::{Input, Output, Refusal, run_check};
use th_tables::{TableFault, TableKind};

/// The fault of the faulty book.
const BOOK_FAULT: BookFault = BookFault {
    line: 2,
    kind: BookKind::NoReflectorHeight,
};

/// The fault of the faulty table.
const BAD_HEADER: TableFault = TableFault {
    row: 1,
    kind: TableKind::BadHeader,
};

/// A table whose points are no end of a sight.
const Z_AT_100: &[u8] = b"point,height\nZ,100\n";

/// Looks at the answer of an adjustment that has to be refused so before an output is touched.
fn is_answer<R: Abort>(rt: &R, answer: Result<(), Refusal>, outs: &Sinks, refusal: Refusal) {
    assert_eq!(rt; answer, Err(refusal));
    assert!(rt; are_untouched(outs), "{refusal}");
}

/// Adjusts books over tables, which has to be refused so before an output is touched.
fn refuse_books<R: AllocGlobal + Abort>(
    rt: &R,
    books: &mut [TextSource<'_>],
    benchmarks: &mut TextSource<'_>,
    weights: &mut Option<TextSource<'_>>,
    refusal: Refusal,
)
    requires { AreReady text_source text_source text_source books.old benchmarks.old weights.old }
    ensures { (answer : Option Refusal) × AreRead text_source text_source text_source answer
        books.old books.new benchmarks.old benchmarks.new weights.old weights.new }
{
    let (answer, outs) = adjust_from(rt, books, benchmarks, weights);
    is_answer(rt, answer, &outs, refusal);
}

#[test]
fn the_first_input_that_is_refused_decides(rt: HostRuntime) {
    let mut books = [source(ONE_SIGHT), source(FAULTY_BOOK)];
    let mut benchmarks = TextSource::new(A_AT_100, 50, Some(1));
    let mut weights = Some(source(FAULTY_TABLE));
    let of_book = Refusal::Book(2, BOOK_FAULT);
    refuse_books(&rt, &mut books, &mut benchmarks, &mut weights, of_book);

    // The benchmarks were not read: their first read is still to fail.
    let mut books = [source(ONE_SIGHT)];
    let of_read = Refusal::Read(Input::Benchmarks);
    refuse_books(&rt, &mut books, &mut benchmarks, &mut weights, of_read);

    // The weights were not read: they still have their fault.
    let mut books = [source(ONE_SIGHT)];
    let of_weights = Refusal::Weights(BAD_HEADER);
    refuse_books(&rt, &mut books, &mut benchmarks, &mut weights, of_weights);
}

#[test]
fn a_network_is_refused_behind_its_inputs(rt: HostRuntime) {
    let name = name_of(b"A").expect(&rt, "a name");
    let untied = Refusal::Network(NetFault::NoBenchmark(name));
    is_refused(&rt, (ONE_SIGHT, Z_AT_100, b""), untied);
    let weights = Refusal::Weights(BAD_HEADER);
    is_refused(&rt, (ONE_SIGHT, Z_AT_100, FAULTY_TABLE), weights);
    let benchmarks = Refusal::Benchmarks(BAD_HEADER);
    is_refused(&rt, (ONE_SIGHT, FAULTY_TABLE, FAULTY_TABLE), benchmarks);
}

#[test]
fn a_table_has_at_most_1_mib(rt: HostRuntime) {
    let table = vec![in rt.alloc(); b' '; 1_048_577].expect(&rt, "memory");
    let fault = TableFault {
        row: 0,
        kind: TableKind::TableTooLong,
    };
    is_refused(&rt, (ONE_SIGHT, &table, b""), Refusal::Benchmarks(fault));
    is_refused(&rt, (ONE_SIGHT, A_AT_100, &table), Refusal::Weights(fault));
}

#[test]
fn a_read_of_a_book_that_fails_is_answered(rt: HostRuntime) {
    // The book comes in three reads, and a fourth finds its end.
    for fail_at in 1..6_u8 {
        let mut books = [TextSource::new(ONE_SIGHT, 50, Some(u128::from(fail_at)))];
        let (answer, outs) = adjust_books(&rt, &mut books);
        if fail_at == 5 {
            assert_eq!(rt; answer, Ok(()));
        } else {
            is_answer(&rt, answer, &outs, Refusal::Read(Input::Book(1)));
        }
    }
}

/// A check in which a device fails: its book, the reads of benchmarks and weights that fail, its
/// certificate, how many bytes of that a read gives and which read of it fails, the call of the sink that
/// fails, the refusal, and what the sink holds then.
#[derive(Clone, Copy)]
struct Failing {
    book: &'static [u8],
    of_benchmarks: Option<u128>,
    of_weights: Option<u128>,
    certificate: &'static [u8],
    piece: usize,
    of_certificate: Option<u128>,
    of_sink: Option<u8>,
    refusal: Refusal,
    held: &'static [u8],
}

/// A certificate of no points.
const NO_POINTS: &[u8] = b"kind,key,value\nV,1,0\nZ,cost,0\n";

/// A check whose certificate is not read.
const NOT_READ: Failing = Failing {
    book: ONE_SIGHT,
    of_benchmarks: None,
    of_weights: None,
    certificate: b"kind,key,value\n",
    piece: 50,
    of_certificate: Some(1),
    of_sink: None,
    refusal: Refusal::Read(Input::Certificate),
    held: HELD_BEFORE,
};

/// A check whose verdict is not written.
const NOT_WRITTEN: Failing = Failing {
    certificate: NO_POINTS,
    of_certificate: None,
    refusal: Refusal::Write(Output::Verdict),
    ..NOT_READ
};

const FAILING: [Failing; 8] = [
    // The inputs in order.
    Failing {
        book: FAULTY_BOOK,
        of_benchmarks: Some(1),
        of_weights: Some(1),
        refusal: Refusal::Book(1, BOOK_FAULT),
        ..NOT_READ
    },
    Failing {
        of_benchmarks: Some(1),
        of_weights: Some(1),
        refusal: Refusal::Read(Input::Benchmarks),
        ..NOT_READ
    },
    Failing {
        of_weights: Some(1),
        refusal: Refusal::Read(Input::Weights),
        ..NOT_READ
    },
    NOT_READ,
    // A later read of the certificate.
    Failing {
        piece: 5,
        of_certificate: Some(2),
        ..NOT_READ
    },
    // The sink: `begin`, one write and `finish`.
    Failing {
        of_sink: Some(1),
        ..NOT_WRITTEN
    },
    Failing {
        of_sink: Some(2),
        held: b"",
        ..NOT_WRITTEN
    },
    Failing {
        of_sink: Some(3),
        held: b"no: points differ\n",
        ..NOT_WRITTEN
    },
];

/// Checks where a device fails.
fn refuse<R: AllocGlobal + Abort>(rt: &R, failing: &Failing) {
    let mut books = [source(failing.book)];
    let mut benchmarks = TextSource::new(A_AT_100, 50, failing.of_benchmarks);
    let mut weights = Some(TextSource::new(b"", 50, failing.of_weights));
    assert!(rt; failing.piece >= 1);
    let mut certificate = TextSource::new(
        failing.certificate,
        failing.piece,
        failing.of_certificate,
    );
    let mut outs = [sink(rt, failing.of_sink)];
    let answer = run_check(
        rt.alloc(),
        &mut books,
        &mut benchmarks,
        &mut weights,
        &mut certificate,
        None,
        &mut outs,
    );
    let refusal = failing.refusal;
    assert_eq!(rt; answer, Err(refusal));
    assert!(rt; outs[0].bytes() == failing.held, "{refusal}");
}

#[test]
fn a_check_is_refused_where_a_device_fails(rt: HostRuntime) {
    for failing in &FAILING {
        refuse(&rt, failing);
    }
}

/// An output, the call of it that fails, and how many bytes of its text it holds then; none where it
/// holds what it held before.
const BROKEN: [(Device, u8, Option<usize>); 13] = [
    (Device::Heights, 1, None),
    // The calls are `begin`, six writes and `finish`.
    (Device::Heights, 8, Some(104)),
    (Device::Certificate, 1, None),
    // The calls are `begin`, seven writes and `finish`.
    (Device::Certificate, 2, Some(0)),
    (Device::Certificate, 3, Some(20)),
    (Device::Certificate, 4, Some(40)),
    (Device::Certificate, 5, Some(60)),
    (Device::Certificate, 6, Some(80)),
    (Device::Certificate, 7, Some(100)),
    (Device::Certificate, 8, Some(120)),
    (Device::Certificate, 9, Some(138)),
    (Device::Report, 1, None),
    (Device::Gsi, 1, None),
];

/// What an output holds.
fn held_by(outs: &Sinks, output: Device) -> &[u8] {
    match output {
        Device::Heights => outs[AT_HEIGHTS].bytes(),
        Device::Certificate => outs[AT_CERTIFICATE].bytes(),
        Device::Report => outs[AT_REPORT].bytes(),
        _ => outs[AT_GSI].bytes(),
    }
}

/// So many bytes of the front of an output's text.
fn beginning_of(output: Device, count: usize) -> &'static [u8] {
    let text = if output == Device::Heights {
        HEIGHTS
    } else {
        CERTIFICATE
    };
    text.get(..count).unwrap_or(text)
}

#[test]
fn an_output_that_is_not_written_has_a_beginning(rt: HostRuntime) {
    let whole = refuse_nothing(&rt, Device::Verdict, 1);
    for (output, call, count) in BROKEN {
        let outs = refuse_in_adjustment(&rt, output, call, &whole);
        let wanted = match count {
            Some(count) => beginning_of(output, count),
            None => HELD_BEFORE,
        };
        assert!(rt; held_by(&outs, output) == wanted, "{output:?} call {call}");
    }
}
