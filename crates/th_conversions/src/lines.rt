//! The lines of a book with heights, as they are printed.
ghost use Rattle.std.specs.Prelude.{◌≡◌, ◌<◌, ◌≤◌, ◌+◌, ◌*◌, ◌+ℤ◌, ◌-ℤ◌, ◌++◌, IfErr, IfOk, OnOk, Some, length, map, unsigned_abs};
ghost use Rattle.gsi_block.specs.Blocks.{block_parts};
ghost use Rattle.gsi_block.specs.Limits.{max_words};
ghost use Rattle.gsi_block.specs.Spelled.{AreSpelled};
ghost use Rattle.gsi_word.specs.Words.{parts_of};
ghost use Rattle.th_book.specs.Books.{known};
ghost use Rattle.th_units.specs.Limits.{max_len};
ghost use Rattle.th_conversions.specs.Inside.Stops.{IsPrinted, IsStopOf};
ghost use Rattle.th_conversions.specs.Printed.{ended, line_of, longer, longer_line, printed_line, sight_above, sight_from, sight_line, sighted};
ghost use Rattle.th_conversions.specs.Words.{zero_height};

use crate::height_faults::HeightKind;
use crate::height_words::Written;
use crate::running::Running;
use crate::sights::{height_fault, is_height_sight, length_in};
use arrayvec::ArrayVec;
use gsi_block::{Block, BlockFault, MAX_WORDS, read_block, write_block};
use gsi_word::laws::spelling_of_is_the_spelling;
use gsi_word::{
    HEIGHT_DIFFERENCE, INSTRUMENT_HEIGHT, REFLECTOR_HEIGHT, TARGET_HEIGHT, Width, Word,
};
use std::alloc::AllocError;
use th_book::BookKind;
use th_units::Len;

/// The most words of a height sight with those that it gets.
const MAX_LONGER: usize = MAX_WORDS + 3;

/// Why a line was not printed.
#[derive(Clone, Copy, Debug)]
pub(crate) enum Stop {
    /// It has a fault of this kind.
    Fault(HeightKind),
    /// Memory ran out.
    NoMemory,
}

impl Stop {
    ghost use Rattle.std.specs.Prelude.{◌≡◌};
    ghost use Rattle.th_conversions.specs.Inside.Stops.{stop_kind};

    /// The kind of the fault to report.
    pub(crate) fn kind(self) -> HeightKind
        ensures { result ≡ stop_kind self }
    {
        match self {
            Stop::Fault(kind) => kind,
            Stop::NoMemory => HeightKind::Book(BookKind::NoMemory),
        }
    }
}

impl From<AllocError> for Stop {
    ghost use Rattle.std.specs.Prelude.{◌≡◌};
    ghost use Rattle.th_conversions.specs.declared.lines.Stop.TheVariants.{NoMemory};

    ghost from_gives = { λ _ stop. stop ≡ NoMemory };

    fn from(_error: AllocError) -> Stop {
        Stop::NoMemory
    }
}

impl From<HeightKind> for Stop {
    ghost use Rattle.std.specs.Prelude.{◌≡◌};
    ghost use Rattle.th_conversions.specs.declared.lines.Stop.TheVariants.{Fault};

    ghost from_gives = { λ kind stop. stop ≡ Fault kind };

    fn from(kind: HeightKind) -> Stop {
        Stop::Fault(kind)
    }
}

/// Appends a line as it is printed, with its end, and enters it into what runs.
pub(crate) fn print_line(
    running: &mut Option<Running>,
    line: &[u8],
    text: &mut Vec<u8>,
) -> Result<(), Stop>
    ensures printed { OnOk result (IsPrinted (printed_line running.old line.now) running.new
        text.old.items text.new.items) }
    ensures fault { IfErr result (IsStopOf (printed_line running.old line.now)
        text.old.items text.new.items) }
{
    match read_block(line) {
        Ok(Some(block)) => {
            if let Some(kind) = height_fault(block.words()) {
                return Err(Stop::Fault(kind));
            }
            if is_height_sight(block.words()) {
                return print_sight(running, &block, text);
            }
            *running = Running::after(running, block.words());
        }
        Ok(None) => {}
        Err(fault) => return Err(Stop::Fault(HeightKind::Book(BookKind::Block(fault)))),
    }
    Ok(print_as_it_is(line, text)?)
}

/// Appends a line as it is, with its end.
fn print_as_it_is(line: &[u8], text: &mut Vec<u8>) -> Result<(), AllocError>
    ensures { OnOk result (text.new.items ≡ text.old.items ++ ended line.now) }
{
    text.extend_from_slice(line)?;
    text.extend_from_slice(b"\r\n")
}

/// Appends a height sight with its word 33, and with heights of zero where none runs.
fn print_sight(
    running: &mut Option<Running>,
    block: &Block<'_>,
    text: &mut Vec<u8>,
) -> Result<(), Stop>
    ensures printed { OnOk result (IsPrinted (sight_line running.old (block_parts block.now)) running.new
        text.old.items text.new.items) }
    ensures fault { IfErr result (IsStopOf (sight_line running.old (block_parts block.now))
        text.old.items text.new.items) }
{
    match print_in(*running, block, text) {
        Ok(next) => {
            *running = Some(next);
            Ok(())
        }
        Err(stop) => Err(stop),
    }
}

/// Appends a height sight in a running setup, and answers the setup that runs after it.
fn print_in(
    running: Option<Running>,
    block: &Block<'_>,
    text: &mut Vec<u8>,
) -> Result<Running, Stop>
    ensures printed { IfOk result (λ next. IsPrinted (sight_line running (block_parts block.now)) (Some next)
        text.old.items text.new.items) }
    ensures fault { IfErr result (IsStopOf (sight_line running (block_parts block.now))
        text.old.items text.new.items) }
{
    match running {
        Some(setup) => print_from(&setup, setup.station, block, text),
        None => Err(Stop::Fault(HeightKind::Book(BookKind::SightBeforeSetup))),
    }
}

/// Appends a height sight in a setup whose station may have a height.
fn print_from(
    setup: &Running,
    station: Option<Len>,
    block: &Block<'_>,
    text: &mut Vec<u8>,
) -> Result<Running, Stop>
    ensures printed { IfOk result (λ next. IsPrinted (sight_from setup.now (block_parts block.now) station)
        (Some next) text.old.items text.new.items) }
    ensures fault { IfErr result (IsStopOf (sight_from setup.now (block_parts block.now) station)
        text.old.items text.new.items) }
{
    match station {
        Some(station) => print_above(setup, station, block, text),
        None => Err(Stop::Fault(HeightKind::NoStationHeight)),
    }
}

/// Appends a height sight in a setup whose station has this height.
fn print_above(
    setup: &Running,
    station: Len,
    block: &Block<'_>,
    text: &mut Vec<u8>,
) -> Result<Running, Stop>
    ensures printed { IfOk result (λ next. IsPrinted (sight_above setup.now (block_parts block.now) station)
        (Some next) text.old.items text.new.items) }
    ensures fault { IfErr result (IsStopOf (sight_above setup.now (block_parts block.now) station)
        text.old.items text.new.items) }
{
    let heights = setup.with_heights(block.words());
    let target = length_in(TARGET_HEIGHT, block.words());
    match Written::of(block.width(), sighted(target, station, &heights)) {
        Ok(written) => print_longer(setup, block, &heights, &written, text),
        Err(kind) => Err(Stop::Fault(kind)),
    }
}

/// Appends a height sight with this word 33.
fn print_longer(
    setup: &Running,
    block: &Block<'_>,
    heights: &Running,
    written: &Written,
    text: &mut Vec<u8>,
) -> Result<Running, Stop>
    ensures printed { IfOk result (λ next.
        IsPrinted (longer_line setup.now (block_parts block.now) heights.now written.now)
        (Some next) text.old.items text.new.items) }
    ensures fault { IfErr result
        (IsStopOf (longer_line setup.now (block_parts block.now) heights.now written.now)
        text.old.items text.new.items) }
{
    let zero = Written::zero();
    let words = longer(block, heights, &zero, written);
    print_words(setup, words.as_slice(), block.width(), text)
}

/// Appends the line of some words, if a block may have so many, and answers the setup that runs after
/// it.
fn print_words(
    setup: &Running,
    words: &[Word<'_>],
    width: Width,
    text: &mut Vec<u8>,
) -> Result<Running, Stop>
    requires some { 0 < length words.now }
    requires spelled { AreSpelled width (map parts_of words.now) }
    ensures printed { IfOk result (λ next.
        IsPrinted (line_of setup.now (record { width = width; words = map parts_of words.now }))
        (Some next) text.old.items text.new.items) }
    ensures fault { IfErr result
        (IsStopOf (line_of setup.now (record { width = width; words = map parts_of words.now }))
        text.old.items text.new.items) }
{
    if words.len() > MAX_WORDS {
        let kind = BookKind::Block(BlockFault::TooManyWords);
        return Err(Stop::Fault(HeightKind::Book(kind)));
    }
    write_block(&block_of(words, width), text)?;
    Ok(setup.with_heights(words))
}

/// The words of a height sight, with its word 33 and with heights of zero where none runs.
fn longer<'b>(
    block: &'b Block<'b>,
    heights: &Running,
    zero: &'b Written,
    written: &'b Written,
) -> ArrayVec<Word<'b>, MAX_LONGER>
    requires { zero.now ≡ zero_height }
    ensures words { map parts_of result.items ≡ longer (block_parts block.now) heights.now written.now }
    ensures some { 0 < length result.items }
{
    let width = block.width();
    let mut words = ArrayVec::new();
    let _ = words.try_extend_from_slice(block.words());
    if heights.instrument.is_none() {
        words.push(zero.word(width, INSTRUMENT_HEIGHT));
    }
    if heights.reflector.is_none() {
        words.push(zero.word(width, REFLECTOR_HEIGHT));
    }
    words.push(written.word(width, HEIGHT_DIFFERENCE));
    words
}

/// The block of some words of a width.
fn block_of<'a>(words: &[Word<'a>], width: Width) -> Block<'a>
    requires some { 0 < length words.now }
    requires few { length words.now ≤ max_words }
    requires spelled { AreSpelled width (map parts_of words.now) }
    ensures { block_parts result ≡ record { width = width; words = map parts_of words.now } }
{
    spelling_of_is_the_spelling();
    match Block::of(words) {
        Some(block) => block,
        None => unreachable!(),
    }
}

/// The height difference from the tilting axis to the reflector that makes 83 less 86 with both
/// heights.
fn sighted(target: Option<Len>, station: Len, heights: &Running) -> i64
    ensures { result ≡ sighted (known target) station heights.now }
{
    let above = less(known(target), station.get());
    let from_axis = less(above, known(heights.instrument));
    more(from_axis, known(heights.reflector))
}

/// A length and another.
fn more(length: i64, other: i64) -> i64
    requires length { unsigned_abs length ≤ 3 * max_len }
    requires other { unsigned_abs other ≤ max_len }
    ensures { result ≡ length +ℤ other }
{
    length + other
}

/// A length less another.
fn less(length: i64, other: i64) -> i64
    requires length { unsigned_abs length ≤ 2 * max_len }
    requires other { unsigned_abs other ≤ max_len }
    ensures value { result ≡ length -ℤ other }
    ensures range { unsigned_abs result ≤ unsigned_abs length + unsigned_abs other }
{
    length - other
}

/// A length, 0 where there is none.
fn known(length: Option<Len>) -> i64
    ensures value { result ≡ known length }
    ensures range { unsigned_abs result ≤ max_len }
{
    match length {
        Some(length) => length.get(),
        None => 0,
    }
}
