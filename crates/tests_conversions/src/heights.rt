//! Books with heights, the books that they become, and the lists of these.
use gsi_block::BlockFault::BadWord;
use gsi_word::WordFault::Short;
use std::process::Abort;
use th_book::BookKind::{
    BadName, BadNumber, BadUnit, Block, NoPointNumber, RepeatedWord, SightBeforeSetup,
    SightToItself, TooLarge,
};
use th_book::read_book;
use th_conversions::HeightKind::{Book, FarTarget, HasDifference, NoStationHeight, NoUnit};
use th_conversions::{HeightFault, HeightKind, book_of_heights};
use th_report::list_text;

/// A book with heights, the words that its lines get, and the list of the printed book.
type Row = (&'static [u8], &'static [u8], &'static [u8]);

const BOOKS: [Row; 7] = [
    // The example of the page for the instrument, without what is not read.
    (
        b"110001+00000KO1 84..40+01000000 86..40+00250112 88..10+00001545 \r
110002+0000BM12 31..00+00027472 83..00+00251384 87..10+00001500 \r
110003+00000KO2 31..00+00053041 83..00+00252907 87..10+00002000 \r
110004+00000KO2 84..40+01000000 86..40+00252907 88..10+00001573 \r
110005+00000KO1 31..00+00053041 83..00+00250114 87..10+00001500 \r
",
        b"110001+00000KO1 84..40+01000000 86..40+00250112 88..10+00001545 \r
110002+0000BM12 31..00+00027472 83..00+00251384 87..10+00001500 33..48+00122700 \r
110003+00000KO2 31..00+00053041 83..00+00252907 87..10+00002000 33..48+00325000 \r
110004+00000KO2 84..40+01000000 86..40+00252907 88..10+00001573 \r
110005+00000KO1 31..00+00053041 83..00+00250114 87..10+00001500 33..48-00286600 \r
",
        b"number,from,to,difference\n1,KO1,BM12,1.27200000\n2,KO1,KO2,2.79500000\n3,KO2,KO1,-2.79300000\n",
    ),
    // Heights of zero where none runs, once for a setup; other blocks and blank lines stay.
    (
        b"*110001+000000000000000A 86..40+0000000000100000\n\n*110002+000000000000000B 22.322+0000000000000000 83..40+0000000000101500\r*110003+000000000000000C 32..00+0000000000000000 83..48+0000000000000001\n*41....+0000000000000001",
        b"*110001+000000000000000A 86..40+0000000000100000\r\n\r\n*110002+000000000000000B 22.322+0000000000000000 83..40+0000000000101500 88..48+0000000000000000 87..48+0000000000000000 33..48+0000000000150000 \r\n*110003+000000000000000C 32..00+0000000000000000 83..48+0000000000000001 33..48-0000000009999999 \r\n*41....+0000000000000001\r\n",
        b"number,from,to,difference\n1,A,B,1.50000000\n2,A,C,-99.99999000\n",
    ),
    // A height of the instrument that comes behind the first sight counts from there on.
    (
        b"110001+0000000A 86..40+00000000\n110002+0000000B 21..00+00000000 83..00+00001000\n41....+00000001 88..10+00000500\n110003+0000000C 21..00+00000000 83..00+00001000\n",
        b"110001+0000000A 86..40+00000000\r\n110002+0000000B 21..00+00000000 83..00+00001000 88..48+00000000 87..48+00000000 33..48+00100000 \r\n41....+00000001 88..10+00000500\r\n110003+0000000C 21..00+00000000 83..00+00001000 33..48+00050000 \r\n",
        b"number,from,to,difference\n1,A,B,1.00000000\n2,A,C,1.00000000\n",
    ),
    // Feet.
    (
        b"110001+0000000A 86..41+00000001 88..11+00000000 87..11+00000000\n110002+0000000B 31..01+00000000 83..01+00000003\n",
        b"110001+0000000A 86..41+00000001 88..11+00000000 87..11+00000000\r\n110002+0000000B 31..01+00000000 83..01+00000003 33..47+00000020 \r\n",
        b"number,from,to,difference\n1,A,B,0.00060960\n",
    ),
    // A block with a height and nothing measured is no sight, and a sight with a coordinate no setup.
    (
        b"110001+0000000A 86..40+00000000 87..10+00000000 88..10+00000000\n110002+0000000B 83..00+00001000\n110003+0000000C 84..40+00000001 22..00+00000001 83..00+00002000\n",
        b"110001+0000000A 86..40+00000000 87..10+00000000 88..10+00000000\r\n110002+0000000B 83..00+00001000\r\n110003+0000000C 84..40+00000001 22..00+00000001 83..00+00002000 33..48+00200000 \r\n",
        b"number,from,to,difference\n1,A,C,2.00000000\n",
    ),
    // The largest number of GSI-8.
    (
        b"110001+0000000A 86..48+00000000 87..10+00000000 88..10+00000000\n110002+0000000B 21..00+00000001 83..48-99999999\n",
        b"110001+0000000A 86..48+00000000 87..10+00000000 88..10+00000000\r\n110002+0000000B 21..00+00000001 83..48-99999999 33..48-99999999 \r\n",
        b"number,from,to,difference\n1,A,B,-999.99999000\n",
    ),
    (b"", b"", b"number,from,to,difference\n"),
];

#[test]
fn a_book_with_heights_is_printed_with_differences(rt: HostRuntime) {
    for (heights, book, list) in BOOKS {
        is_printed(&rt, heights, book, list);
    }
}

/// The book with heights becomes this book, which gives this list.
fn is_printed(rt: &(impl AllocGlobal + Abort), heights: &[u8], book: &[u8], list: &[u8]) {
    let printed = book_of_heights(rt.alloc(), heights)
        .ok()
        .expect(rt, "a book");
    let shown = String::from_utf8_lossy(rt.alloc(), printed.as_slice()).expect(rt, "memory");
    assert!(rt; printed.as_slice() == book, "{shown}");
    let observations = read_book(rt.alloc(), 1, printed.as_slice())
        .ok()
        .expect(rt, "observations");
    let listed = list_text(rt.alloc(), observations.as_slice())
        .ok()
        .expect(rt, "a list");
    assert!(rt; listed.as_slice() == list);
}

/// Books with heights that are refused, the line and the kind of the fault.
const REFUSED: [(&[u8], u32, HeightKind); 16] = [
    (b"110001+0000000A 33..00+00000001\n", 1, HasDifference),
    (
        b"110001+0000000A 86..40+00000000\n110002+0000000B 21..00+00000001 33..00+00000001 83..00+00001000\n",
        2,
        HasDifference,
    ),
    (
        b"110001+0000000A 86..40+00000000\n110002+0000000B 21..00+00000001 83..00+00000001 83..00+00001000\n",
        2,
        Book(RepeatedWord),
    ),
    (b"110001+0000000A 86..40+0000000A\n", 1, Book(BadNumber)),
    (b"110001+0000000A 83..09+00000000\n", 1, Book(BadUnit)),
    (b"110001+0000000A 83..00+99999999\n", 1, Book(TooLarge)),
    (
        b"110002+0000000B 21..00+00000001 83..00+00001000\n",
        1,
        Book(SightBeforeSetup),
    ),
    (
        b"110001+0000000A 84..40+00000000\n110002+0000000B 21..00+00000001 83..00+00001000\n",
        2,
        NoStationHeight,
    ),
    (
        b"110001+0000000A 86..40+00000000\n110002+0000000A 21..00+00000001 83..00+00001000\n",
        2,
        Book(SightToItself),
    ),
    (
        b"110001+0000000A 86..40+00000000\n110002+         21..00+00000001 83..00+00001000\n",
        2,
        Book(BadName),
    ),
    (b"x", 1, Book(Block(BadWord(1, Short)))),
    // Not a whole number of 1/100 mm, nor of 1/10,000 ft.
    (
        b"110001+0000000A 86..48+00000001\n110002+0000000B 21..00+00000001 83..01+00000001\n",
        2,
        NoUnit,
    ),
    // More than the data of GSI-8 hold.
    (
        b"110001+0000000A 86..48+00000001\n110002+0000000B 21..00+00000001 83..48-99999999\n",
        2,
        FarTarget,
    ),
    // A fault of a book counts where it comes first.
    (
        b"41....+00000001 84..40+00000000\n110001+0000000A 86..40+0000000A\n",
        1,
        Book(NoPointNumber),
    ),
    // A height of a reflector or an instrument that is wrong is in force, and no zero comes in its place.
    (
        b"110001+0000000A 86..10+00000000\n110002+0000000B 83..10+00001000 31..00+00000001 87..10+0000A500\n",
        2,
        Book(BadNumber),
    ),
    (
        b"110001+0000000A 86..10+00000000 88..19+00001500\n",
        1,
        Book(BadUnit),
    ),
];

#[test]
fn a_faulty_book_is_refused(rt: HostRuntime) {
    for (heights, line, kind) in REFUSED {
        is_refused(&rt, heights, line, kind);
    }
}

fn is_refused(rt: &(impl AllocGlobal + Abort), heights: &[u8], line: u32, kind: HeightKind) {
    let answer = book_of_heights(rt.alloc(), heights);
    let fault = answer.err().expect(rt, "a fault");
    assert_eq!(rt; fault, HeightFault { line, kind }, "{fault}");
}
