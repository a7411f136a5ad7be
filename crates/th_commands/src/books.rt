//! The names of a command's books: at least one, and no more than a command takes.
ghost use Rattle.std.specs.Prelude.{◌≤◌, length};
ghost use Rattle.th_commands.specs.PlanLimits.{max_books};

use arrayvec::ArrayVec;
use th_limits::MAX_BOOKS;

/// The names of the books that a command is to read, in order: 1 to `MAX_BOOKS` of them.
#[derive(Debug, Drop)]
pub struct Books<'a> {
    names: ArrayVec<&'a str, MAX_BOOKS>,
    ghost some: { 1 ≤ length names.items },
    ghost few: { length names.items ≤ max_books },
}

impl<'a> Books<'a> {
    ghost use Rattle.std.specs.Prelude.{◌≡◌, map, option_map};
    ghost use Rattle.th_commands.specs.Asked.{books_of};
    ghost use Rattle.th_commands.specs.Books.{names_in};

    /// The books of these names; `None` if there is no name, or more than `MAX_BOOKS`.
    pub fn of(names: &[&'a str]) -> Option<Books<'a>>
        ensures { option_map names_in result ≡ books_of (map (λ name. name.now) names.now) }
    {
        let mut books = ArrayVec::new();
        if names.is_empty() || books.try_extend_from_slice(names).is_err() {
            return None;
        }
        Some(Books { names: books })
    }

    /// The names, in order.
    pub fn names(&self) -> &[&'a str]
        ensures names { map (λ name. name.now) result.now ≡ names_in self.now }
        ensures some { 1 ≤ length result.now }
        ensures few { length result.now ≤ max_books }
    {
        self.names.as_slice()
    }
}
