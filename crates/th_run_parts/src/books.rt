//! The books of a run, read one after the other.
ghost use Rattle.std.specs.Prelude.{◌≡◌, ◌∷◌, ◌++◌, ◌+◌, ◌≤◌, List, IfErr, OnOk, Ok, [], All, length};
ghost use Rattle.th_limits.specs.Limits.{max_books};
ghost use Rattle.th_observations.specs.Observed.{Observed};
ghost use Rattle.th_run_parts.specs.Inputs.{Meets, MeetsRefusal, given, givens, owed_for_book, owed_for_books, told_by};
ghost use Rattle.th_run_parts.specs.Readers.{HasReadBooks};
ghost use Rattle.th_run_parts.specs.Reads.{EachBook, IsOfBook, IsOfBooks, IsReadFor, refused};
ghost use Rattle.th_devices.specs.Devices.{IsReady};

use crate::readers::BookReader;
use crate::refusals::Refusal;
use std::alloc::{AllocError, Global};
use th_devices::Source;
use th_inputs::Input;
use th_observations::Observation;

/// Reads books one after the other, up to the first that is refused, and puts their observations
/// behind those of the books before. The first of them has this number.
pub(crate) fn read_books<R: BookReader, S: Source>(
    alloc: Global,
    number: u32,
    reader: &mut R,
    books: &mut [S],
    joined: &mut Vec<Observation>,
) -> Result<(), Refusal>
    requires ready { All (λ book. IsReady (S.state book).counts) books.old }
    requires few { number + length books.old ≤ max_books + 1 }
    requires first { 1 ≤ number }
    ensures ok { OnOk result (Meets (owed_for_books number joined.old.items
        (givens S.state books.old books.new)) (Ok joined.new.items)) }
    ensures read { OnOk result (HasReadBooks R.has_read number (told_by S.state books.old)
        joined.old.items joined.new.items reader.old reader.new) }
    ensures refused { IfErr result (MeetsRefusal (owed_for_books number joined.old.items
        (givens S.state books.old books.new))) }
    ensures named { IfErr result (IsOfBooks number (number + length books.old)) }
    ensures books { EachBook (λ own. IsReadFor S.state (Input.Book own) (refused result))
        number books.old books.new }
{
    let Some((book, later)) = books.split_first_mut() else {
        return Ok(());
    };
    read_book(alloc, number, reader, book, joined)?;
    read_books(alloc, number + 1, reader, later, joined)
}

/// Reads the book with this number, and puts its observations behind those of the books before.
fn read_book<R: BookReader, S: Source>(
    alloc: Global,
    number: u32,
    reader: &mut R,
    book: &mut S,
    joined: &mut Vec<Observation>,
) -> Result<(), Refusal>
    requires ready { IsReady (S.state book.old).counts }
    requires first { 1 ≤ number }
    ensures ok { OnOk result (Meets (owed_for_books number joined.old.items
        (given S.state book.old book.new ∷ [])) (Ok joined.new.items)) }
    ensures read { OnOk result ((observations : List Observed)
        × R.has_read number (S.state book.old).left observations reader.old reader.new
        × (joined.new.items ≡ joined.old.items ++ observations)) }
    ensures refused { IfErr result (MeetsRefusal
        (owed_for_book number (given S.state book.old book.new))) }
    ensures named { IfErr result (IsOfBook number) }
    ensures book { IsReadFor S.state (Input.Book number) (refused result) book.old book.new }
{
    let observations = reader.read(alloc, number, book)?;
    join(joined, observations)?;
    Ok(())
}

/// Puts observations behind others. Those of a first book are kept where they are.
fn join(joined: &mut Vec<Observation>, more: Vec<Observation>) -> Result<(), AllocError>
    ensures { OnOk result (joined.new.items ≡ joined.old.items ++ more.items) }
{
    if joined.is_empty() {
        *joined = more;
        return Ok(());
    }
    joined.extend_from_slice(more.as_slice())
}
