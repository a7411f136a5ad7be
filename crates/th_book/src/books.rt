//! Books by their lines, which are given one by one or as the bytes of a whole book.
ghost use Rattle.std.specs.Prelude.{◌≡◌, ◌≢◌, ◌<◌, ◌≤◌, ◌+◌, [], List, ℕ, None, Some, length, map, take, IfErr, IfOk, OnErr, OnOk};
ghost use Rattle.gsi_block.specs.Lines.{lines_of};
ghost use Rattle.gsi_word.specs.Words.{parts_of, result_map};
ghost use Rattle.th_book.specs.Books.{lines_answer, book_answer, too_long};
ghost use Rattle.th_book.specs.Limits.{max_book};
ghost use Rattle.th_book.specs.Faults.{fault_in};
ghost use Rattle.th_book.specs.Due.{due, empty, EndsWithSight, IsAnswered};
ghost use Rattle.th_book.specs.Inside.Countings.{counted_in};
ghost use Rattle.th_book.specs.Inside.Feeds.{IsGiven};
ghost use Rattle.th_book.specs.Inside.Entries.{setup_by};
ghost use Rattle.th_book.specs.Inside.Effects.{IsBlockLine, IsKept, IsObserved, IsTakenIn, IsWantingFor, stamped, state_observing, state_refusing};
ghost use Rattle.th_book.specs.Inside.Witnesses.{IsSeenNext};

use crate::countings::Counted;
use crate::entries::Entered;
use crate::faults::{BookFault, BookKind};
use crate::limits::MAX_BOOK;
use crate::setups::{Setup, Sight};
use crate::witnesses::Witness;
use arrayvec::ArrayVec;
use gsi_block::{LineCursor, MAX_WORDS, read_words};
use gsi_word::Word;
use std::alloc::Global;
use std::marker::Model;
use th_observations::Observation;

/// A book that is read line by line: it keeps the running setup, the observations and the first
/// fault, but no line.
#[derive(Drop)]
pub struct Book {
    number: u32,
    lines: u32,
    setup: Option<Setup>,
    observations: Vec<Observation>,
    fault: Option<BookFault>,
}

impl Model for Book {
    ghost use Rattle.std.specs.Prelude.{vec_capacity};
    ghost use Rattle.th_book.specs.Due.{BookState, IsLasting};

    ghost Value = { BookState };

    ghost view = { λ b. record {
      book = b.number;
      lines = b.lines;
      setup = b.setup;
      observations = b.observations.items;
      room = vec_capacity b.observations;
      fault = b.fault;
    } };

    ghost invariant = { λ b. IsLasting b.fault };
}

impl Book {
    /// A book with its number, from 1, before its first line.
    pub fn new(alloc: Global, book: u32) -> Book
        ensures holds { result ≡ empty book }
        ensures owes { (lines : List (List ℕ)) → due result lines ≡ lines_answer book lines }
    {
        Book {
            number: book,
            lines: 0,
            setup: None,
            observations: Vec::new(alloc),
            fault: None,
        }
    }

    /// Takes the next line, without its end. There may be as many as a book has bytes.
    ///
    /// A fault is kept: this call, each later one and `finish` return it. `NoMemory` means that one
    /// more observation could not be allocated. It is not kept: the book is as before the line,
    /// which may be passed again.
    pub fn line(&mut self, line: &[u8]) -> Result<(), BookFault>
        requires { self.old.lines < max_book }
        ensures { IsAnswered self.old self.new line.now result }
    {
        self.read(line, &mut ArrayVec::new(), &mut ())
    }

    /// Takes the next line, which a witness sees. Its words are read into an array that is lent: to make
    /// one for each line would take longer than all else.
    pub(crate) fn read<'a, W: Witness>(
        &mut self,
        line: &'a [u8],
        words: &mut ArrayVec<Word<'a>, MAX_WORDS>,
        witness: &mut W,
    ) -> Result<(), BookFault>
        requires { self.old.lines < max_book }
        ensures answered { IsAnswered self.old self.new line.now result }
        ensures seen { OnOk result (IsSeenNext W.has_seen self.old self.new line.now witness.old witness.new) }
    {
        if let Some(fault) = self.fault {
            return Err(fault);
        }
        match read_words(line, words) {
            Ok(Some(_)) => self.read_block(words.as_slice(), witness),
            Ok(None) => {
                witness.blank();
                self.lines += 1;
                Ok(())
            }
            Err(fault) => Err(self.refuse(BookKind::Block(fault))),
        }
    }

    /// Takes the next line, a block of these words, which a witness sees.
    #[inline(always)]
    fn read_block<W: Witness>(
        &mut self,
        words: &[Word<'_>],
        witness: &mut W,
    ) -> Result<(), BookFault>
        requires room { self.old.lines < max_book }
        requires sound { self.old.fault ≡ None }
        ensures answered { (line : List ℕ) → IsBlockLine words.now line →
            IsAnswered self.old self.new line result }
        ensures seen { (line : List ℕ) → IsBlockLine words.now line →
            OnOk result (IsSeenNext W.has_seen self.old self.new line witness.old witness.new) }
    {
        let mut counted = Counted::nothing();
        counted.count(words);
        if counted.is_nothing() {
            witness.block(&self.setup, &Entered::nothing(), words);
            self.lines += 1;
            return Ok(());
        }
        self.take_block(&counted, words, witness)
    }

    /// Takes the next line, a block of these words, by what they count. A witness sees it.
    #[inline(always)]
    fn take_block<W: Witness>(
        &mut self,
        counted: &Counted,
        words: &[Word<'_>],
        witness: &mut W,
    ) -> Result<(), BookFault>
        requires room { self.old.lines < max_book }
        requires sound { self.old.fault ≡ None }
        requires counted { counted.now ≡ counted_in (map parts_of words.now) }
        ensures answered { (line : List ℕ) → IsBlockLine words.now line →
            IsAnswered self.old self.new line result }
        ensures seen { (line : List ℕ) → IsBlockLine words.now line →
            OnOk result (IsSeenNext W.has_seen self.old self.new line witness.old witness.new) }
    {
        match Entered::of(counted, words) {
            Ok(entry) => {
                witness.block(&self.setup, &entry, words);
                self.take(&entry)
            }
            Err(kind) => Err(self.refuse(kind)),
        }
    }

    /// Counts an empty line, which says nothing, unless a fault came before it.
    pub(crate) fn pass_empty<W: Witness>(&mut self, witness: &mut W)
        requires { self.old.lines < max_book }
        ensures given { IsGiven self.old self.new [] }
        ensures seen { IsSeenNext W.has_seen self.old self.new [] witness.old witness.new }
    {
        if self.fault.is_none() {
            witness.blank();
            self.lines += 1;
        }
    }

    /// How many lines were taken, a faulty one included.
    pub fn lines(&self) -> u32
        ensures { result ≡ self.now.lines }
    {
        self.lines
    }

    /// The observations in the order of their sights, or the fault of the first line that has one.
    pub fn finish(self) -> Result<Vec<Observation>, BookFault>
        ensures answer { result_map (λ observations. observations.items) result ≡ due self [] }
        ensures lasting { IfErr result (λ fault. fault.kind ≢ BookKind.NoMemory) }
    {
        let Book {
            observations,
            fault,
            ..
        } = self;
        match fault {
            Some(fault) => Err(fault),
            None => Ok(observations),
        }
    }

    // Not inlined: readers with different witnesses call it.
    /// Takes what the next line enters. A fault of its sight is kept.
    #[inline(never)]
    fn take(&mut self, entry: &Entered) -> Result<(), BookFault>
        requires { self.old.lines < max_book }
        ensures taken { OnOk result (IsTakenIn self.old self.new entry.now) }
        ensures kept { IfErr result (λ fault. fault.kind ≢ BookKind.NoMemory →
            IsKept (setup_by entry.now self.old.setup) self.old self.new entry.now fault) }
        ensures wanting { IfErr result (λ fault. fault.kind ≡ BookKind.NoMemory →
            IsWantingFor (setup_by entry.now self.old.setup) self.old self.new entry.now fault) }
    {
        let mut setup = self.setup;
        Setup::enter(&mut setup, entry);
        self.observe(&setup, entry)?;
        self.setup = setup;
        self.lines += 1;
        Ok(())
    }

    /// Adds the observation of what the next line enters, if that is a sight, in the setup that has its
    /// heights. A fault of the sight is kept.
    fn observe(&mut self, setup: &Option<Setup>, entry: &Entered) -> Result<(), BookFault>
        requires { self.old.lines < max_book }
        ensures observed { OnOk result (IsObserved setup.now self.old self.new entry.now) }
        ensures kept { IfErr result (λ fault. fault.kind ≢ BookKind.NoMemory →
            IsKept setup.now self.old self.new entry.now fault) }
        ensures wanting { IfErr result (λ fault. fault.kind ≡ BookKind.NoMemory →
            IsWantingFor setup.now self.old self.new entry.now fault) }
    {
        match (entry.target, entry.sighted) {
            (Some(target), Some(sighted)) => match Setup::sight(*setup, target, sighted) {
                Ok(sight) => self.add(&sight),
                Err(kind) => Err(self.refuse(kind)),
            },
            _ => Ok(()),
        }
    }

    /// Adds the observation of a sight in the next line.
    fn add(&mut self, sight: &Sight) -> Result<(), BookFault>
        requires { self.old.lines < max_book }
        ensures added { OnOk result (self.new
            ≡ state_observing self.old (Some (stamped self.old.book (self.old.lines + 1) sight.now)) self.new.room) }
        ensures room { OnOk result (self.old.room ≤ self.new.room) }
        ensures wanting { IfErr result
            (λ fault. (self.new ≡ self.old) × (fault ≡ fault_in self.old.lines BookKind.NoMemory)) }
        ensures full { OnErr result (self.old.room ≤ length self.old.observations) }
    {
        let line = self.lines + 1;
        if self.observations.reserve(1).is_err() {
            return Err(BookFault {
                line,
                kind: BookKind::NoMemory,
            });
        }
        self.observations.push_reserved(sight.at(self.number, line));
        Ok(())
    }

    /// Keeps a fault of the next line.
    fn refuse(&mut self, kind: BookKind) -> BookFault
        requires room { self.old.lines < max_book }
        requires lasting { kind ≢ BookKind.NoMemory }
        ensures fault { result ≡ fault_in self.old.lines kind }
        ensures kept { self.new ≡ state_refusing self.old kind }
    {
        self.lines += 1;
        let fault = BookFault {
            line: self.lines,
            kind,
        };
        self.fault = Some(fault);
        fault
    }
}

/// The observations of a whole book, in the order of their sights, or its fault.
///
/// A book of more than `MAX_BOOK` bytes has that fault, at line 0, before all others. `NoMemory`
/// has the line whose observation could not be allocated.
pub fn read_book(alloc: Global, book: u32, bytes: &[u8]) -> Result<Vec<Observation>, BookFault>
    ensures ok { IfOk result
        (λ observations. book_answer book bytes.now ≡ Ok observations.items) }
    ensures fault { IfErr result
        (λ fault. fault.kind ≢ BookKind.NoMemory → book_answer book bytes.now ≡ Err fault) }
    ensures too_long { max_book < length bytes.now → result ≡ Err too_long }
    ensures wanting { IfErr result
        (λ fault. fault.kind ≡ BookKind.NoMemory
        → EndsWithSight (lines_answer book (take fault.line (lines_of bytes.now))) fault.line) }
{
    let size = bytes.len();
    if size > MAX_BOOK {
        return Err(BookFault {
            line: 0,
            kind: BookKind::BookTooLong,
        });
    }
    let mut reader = Book::new(alloc, book);
    let mut cursor = LineCursor::new(bytes);
    let mut words = ArrayVec::new();
    'lines: while let Some(line) = cursor.next() {
        reader.read(line, &mut words, &mut ())?;
    }
    reader.finish()
}
