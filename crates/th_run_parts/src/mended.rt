//! The mended book of a table of changes and a book that sources give.
ghost use Rattle.std.specs.Prelude.{◌≡◌, ◌≢◌, ◌⊎◌, ◌≤◌, IfErr, IfOk, Ok, length};
ghost use Rattle.th_devices.specs.Devices.{IsReady};
ghost use Rattle.th_mend.specs.Limits.{max_changes};
ghost use Rattle.th_run_parts.specs.Mended.{IsOfChanged, IsOfChanges, owed_for_changed, owed_for_changes, owed_for_mended, refusal_for};
ghost use Rattle.th_run_parts.specs.Inputs.{Meets, MeetsRefusal, given};
ghost use Rattle.th_run_parts.specs.Reads.{IsReadFor, refused};

use crate::inputs::read_text;
use crate::readers::refusal_of;
use crate::refusals::Refusal;
use std::alloc::Global;
use th_book::BookKind;
use th_devices::Source;
use th_inputs::Input;
use th_mend::{Change, ChangeKind, MendFault, mended, read_changes};

/// The mended book of the table of changes and the book that sources give.
pub(crate) fn mended_from<C: Source, S: Source>(
    alloc: Global,
    table: &mut C,
    book: &mut S,
) -> Result<Vec<u8>, Refusal>
    requires table { IsReady (C.state table.old).counts }
    requires book { IsReady (S.state book.old).counts }
    ensures text { IfOk result (λ text. Meets (owed_for_mended
        (given C.state table.old table.new) (given S.state book.old book.new)) (Ok text.items)) }
    ensures refused { IfErr result (MeetsRefusal (owed_for_mended
        (given C.state table.old table.new) (given S.state book.old book.new))) }
    ensures named { IfErr result (λ own. IsOfChanges own ⊎ IsOfChanged own) }
    ensures table { IsReadFor C.state Input.Changes (refused result) table.old table.new }
    ensures book { IsReadFor S.state (Input.Book 1) (refused result) book.old book.new }
{
    let changes = changes_from(alloc, table)?;
    mended_by(alloc, changes.as_slice(), book)
}

/// The changes of the table that a source gives.
fn changes_from<C: Source>(alloc: Global, table: &mut C) -> Result<Vec<Change>, Refusal>
    requires { IsReady (C.state table.old).counts }
    ensures changes { IfOk result (λ changes.
        Meets (owed_for_changes (given C.state table.old table.new)) (Ok changes.items)) }
    ensures few { IfOk result (λ changes. length changes.items ≤ max_changes) }
    ensures refused { IfErr result (MeetsRefusal
        (owed_for_changes (given C.state table.old table.new))) }
    ensures named { IfErr result IsOfChanges }
    ensures table { IsReadFor C.state Input.Changes (refused result) table.old table.new }
{
    let text = read_text(alloc, Input::Changes, table)?;
    match read_changes(alloc, text.as_slice()) {
        Ok(changes) => Ok(changes),
        Err(fault) => match fault.kind {
            ChangeKind::NoMemory => Err(Refusal::NoMemory),
            _ => Err(Refusal::Changes(fault)),
        },
    }
}

/// The book that a source gives, mended by changes.
fn mended_by<S: Source>(alloc: Global, changes: &[Change], book: &mut S) -> Result<Vec<u8>, Refusal>
    requires few { length changes.now ≤ max_changes }
    requires book { IsReady (S.state book.old).counts }
    ensures text { IfOk result (λ text.
        Meets (owed_for_changed changes.now (given S.state book.old book.new)) (Ok text.items)) }
    ensures refused { IfErr result (MeetsRefusal
        (owed_for_changed changes.now (given S.state book.old book.new))) }
    ensures named { IfErr result IsOfChanged }
    ensures book { IsReadFor S.state (Input.Book 1) (refused result) book.old book.new }
{
    let text = read_text(alloc, Input::Book(1), book)?;
    match mended(alloc, changes, text.as_slice()) {
        Ok(text) => Ok(text),
        Err(fault) => Err(refusal_for(fault)),
    }
}

/// The refusal for why there is no mended book.
fn refusal_for(fault: MendFault) -> Refusal
    ensures refusal { result ≢ Refusal.NoMemory → result ≡ refusal_for fault }
    ensures named { IsOfChanged result }
{
    match fault {
        MendFault::Book(fault) => refusal_of(1, fault),
        MendFault::Row(fault) => Refusal::Unfit(fault),
        MendFault::Mended(fault) => match fault.kind {
            BookKind::NoMemory => Refusal::NoMemory,
            _ => Refusal::Mended(fault),
        },
        MendFault::NoMemory => Refusal::NoMemory,
    }
}
