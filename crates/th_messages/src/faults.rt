//! The texts of faults, put on a line part by part.
ghost use Rattle.gsi_block.specs.Faults.{fault_text as block_text};
ghost use Rattle.th_book.specs.Texts.{fault_text as book_text, kind_text as book_kind_text};
ghost use Rattle.th_certificate.specs.Faults.{fault_text as certificate_text};
ghost use Rattle.th_conversions.specs.HeightFaults.{fault_text as height_text, kind_text as height_kind_text};
ghost use Rattle.th_conversions.specs.Texts.{fault_text as difference_text};
ghost use Rattle.th_messages.specs.Lines.{HasRoom, IsPut};
ghost use Rattle.th_mend.specs.Faults.{row_text};
ghost use Rattle.th_mend.specs.Texts.{fault_text as change_text};
ghost use Rattle.th_network.specs.Texts.{fault_text as network_text};
ghost use Rattle.th_tables.specs.Texts.{fault_text as table_text};

use crate::lines::Line;
use gsi_block::BlockFault;
use th_book::{BookFault, BookKind};
use th_certificate::CertFault;
use th_conversions::{DifferenceFault, HeightFault, HeightKind};
use th_devices::{Failed, Sink};
use th_mend::{ChangeFault, RowFault};
use th_network::NetFault;
use th_tables::TableFault;

/// Puts the text of a fault of a book.
#[tactic(auto, using(crate::proofs::LineLemmas::appended))]
pub fn put_book_fault<K: Sink>(line: &mut Line<K>, fault: &BookFault) -> Result<(), Failed>
    requires { HasRoom 8 line.old }
    ensures { IsPut 8 (book_text fault.now) line.old line.new result }
{
    line.put("line ")?;
    line.put_number(fault.line)?;
    line.put(": ")?;
    put_book_kind(line, fault.kind)
}

/// Puts the text of a kind of fault of a book.
#[tactic(auto, using(crate::proofs::LineLemmas::appended))]
fn put_book_kind<K: Sink>(line: &mut Line<K>, kind: BookKind) -> Result<(), Failed>
    requires { HasRoom 5 line.old }
    ensures { IsPut 5 (book_kind_text kind) line.old line.new result }
{
    match kind {
        BookKind::Block(fault) => {
            line.put(kind.beginning())?;
            put_block_fault(line, fault)
        }
        _ => line.put(kind.beginning()),
    }
}

/// Puts the text of a fault of a book with heights.
#[tactic(auto, using(crate::proofs::LineLemmas::appended))]
pub fn put_height_fault<K: Sink>(line: &mut Line<K>, fault: &HeightFault) -> Result<(), Failed>
    requires { HasRoom 8 line.old }
    ensures { IsPut 8 (height_text fault.now) line.old line.new result }
{
    line.put("line ")?;
    line.put_number(fault.line)?;
    line.put(": ")?;
    put_height_kind(line, fault.kind)
}

/// Puts the text of a kind of fault of a book with heights.
fn put_height_kind<K: Sink>(line: &mut Line<K>, kind: HeightKind) -> Result<(), Failed>
    requires { HasRoom 5 line.old }
    ensures { IsPut 5 (height_kind_text kind) line.old line.new result }
{
    match kind {
        HeightKind::Book(kind) => put_book_kind(line, kind),
        other => line.put(other.beginning()),
    }
}

/// Puts the text of a line that is no block.
#[tactic(auto, using(crate::proofs::LineLemmas::appended))]
fn put_block_fault<K: Sink>(line: &mut Line<K>, fault: BlockFault) -> Result<(), Failed>
    requires { HasRoom 4 line.old }
    ensures { IsPut 4 (block_text fault) line.old line.new result }
{
    match fault {
        BlockFault::BadWord(number, bad) => {
            line.put(fault.beginning())?;
            line.put_number(number)?;
            line.put(": ")?;
            line.put(bad.text())
        }
        BlockFault::BadSeparator(number) => {
            line.put(fault.beginning())?;
            line.put_number(number)
        }
        _ => line.put(fault.beginning()),
    }
}

/// Puts the text of a fault of a table.
#[tactic(auto, using(crate::proofs::LineLemmas::appended))]
pub fn put_table_fault<K: Sink>(line: &mut Line<K>, fault: &TableFault) -> Result<(), Failed>
    requires { HasRoom 4 line.old }
    ensures { IsPut 4 (table_text fault.now) line.old line.new result }
{
    line.put("record ")?;
    line.put_number(fault.row)?;
    line.put(": ")?;
    line.put(fault.kind.text())
}

/// Puts the text of a fault of a certificate.
#[tactic(auto, using(crate::proofs::LineLemmas::appended))]
pub fn put_certificate_fault<K: Sink>(line: &mut Line<K>, fault: &CertFault) -> Result<(), Failed>
    requires { HasRoom 4 line.old }
    ensures { IsPut 4 (certificate_text fault.now) line.old line.new result }
{
    line.put("record ")?;
    line.put_number(fault.row)?;
    line.put(": ")?;
    line.put(fault.kind.text())
}

/// Puts the text of a fault of a table of changes.
#[tactic(auto, using(crate::proofs::LineLemmas::appended))]
pub fn put_change_fault<K: Sink>(line: &mut Line<K>, fault: &ChangeFault) -> Result<(), Failed>
    requires { HasRoom 4 line.old }
    ensures { IsPut 4 (change_text fault.now) line.old line.new result }
{
    line.put("record ")?;
    line.put_number(fault.row)?;
    line.put(": ")?;
    line.put(fault.kind.text())
}

/// Puts the text of a change that has no place in a book.
#[tactic(auto, using(crate::proofs::LineLemmas::appended))]
pub fn put_row_fault<K: Sink>(line: &mut Line<K>, fault: &RowFault) -> Result<(), Failed>
    requires { HasRoom 4 line.old }
    ensures { IsPut 4 (row_text fault.now) line.old line.new result }
{
    line.put("record ")?;
    line.put_number(fault.row)?;
    line.put(": ")?;
    line.put(fault.kind.text())
}

/// Puts the text of a fault of a table of differences.
#[tactic(auto, using(crate::proofs::LineLemmas::appended))]
pub fn put_difference_fault<K: Sink>(
    line: &mut Line<K>,
    fault: &DifferenceFault,
) -> Result<(), Failed>
    requires { HasRoom 4 line.old }
    ensures { IsPut 4 (difference_text fault.now) line.old line.new result }
{
    line.put("record ")?;
    line.put_number(fault.row)?;
    line.put(": ")?;
    line.put(fault.kind.text())
}

/// Puts the text of a fault of a network.
#[tactic(auto, using(crate::proofs::LineLemmas::appended))]
pub fn put_network_fault<K: Sink>(line: &mut Line<K>, fault: &NetFault) -> Result<(), Failed>
    requires { HasRoom 2 line.old }
    ensures { IsPut 2 (network_text fault.now) line.old line.new result }
{
    match fault {
        NetFault::NoBenchmark(name) => {
            line.put(fault.beginning())?;
            line.put_name(name)
        }
        _ => line.put(fault.beginning()),
    }
}
