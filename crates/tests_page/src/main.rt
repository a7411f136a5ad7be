//! Prints the page of the rows on standard input. `tests/second_office/compare_page.py` runs it on
//! random projects, and compares the page with its own. `lines` says what they are.
#![tactic(auto)]

mod lines;
mod words;

use anyhow::Result;
use lines::Rows;
use std::alloc::Global;
use std::io::{self, Write};
use th_inputs::{Input, Sum, add_sum};
use th_page::{Explained, Shown, page_text};

fn main(rt: HostRuntime) -> Result<()> {
    let text = io::read_to_string(rt.alloc(), rt.reader())?;
    let rows = Rows::read(rt.alloc(), text.as_str())?;
    let page = page_of(rt.alloc(), &rows)?;
    io::writer(&rt).write_all(&page)?;
    Ok(())
}

/// The page of rows.
fn page_of(alloc: Global, rows: &Rows) -> Result<Vec<u8>> {
    let names = lent(alloc, &rows.books)?;
    let sums = sums_of(alloc, &names)?;
    let says = lent(alloc, &rows.says)?;
    let notes = lent(alloc, &rows.notes)?;
    let page = page_text(
        alloc,
        &Shown {
            title: &rows.title,
            names: &names,
            sums: &sums,
            points: &rows.points,
            sights: &rows.sights,
            entries: &rows.entries,
            benchmarks: &rows.benchmarks,
            says: &says,
            notes: &notes,
            explained: Explained {
                cost: rows.cost,
                limit: rows.limit,
                rows: &rows.explanations,
                sentences: b"",
                answer: &rows.answer,
            },
        },
    )?;
    Ok(page)
}

/// The sums of books that consist of the bytes of their names.
fn sums_of(alloc: Global, books: &[&[u8]]) -> Result<Vec<Sum>> {
    let mut sums = Vec::with_capacity(alloc, books.len())?;
    let mut number = 0u32;
    for book in books {
        number = number.saturating_add(1);
        add_sum(&mut sums, Input::Book(number), book)?;
    }
    Ok(sums)
}

/// The texts, lent.
fn lent<'a>(alloc: Global, texts: &'a [Vec<u8>]) -> Result<Vec<&'a [u8]>> {
    let mut all = Vec::with_capacity(alloc, texts.len())?;
    for text in texts {
        all.push(text.as_slice())?;
    }
    Ok(all)
}
