//! The words before and between the numbers in the text of a book without sights. A page and a line for
//! standard error take that text in different ways, and both use these parts.
ghost use Rattle.std.specs.Prelude.{◌≡◌};
ghost use Rattle.th_entries.specs.Sights.{blocks_end, separator, words_lead};

/// The text after the count of a book's blocks.
pub fn blocks_end(blocks: u32) -> &'static str
    ensures { result.now ≡ blocks_end blocks }
{
    if blocks == 1 {
        " block (no word 33"
    } else {
        " blocks (no word 33"
    }
}

/// The text before the numbers of the words that a book has in place of sights.
pub fn words_lead(numbers: &[u16]) -> &'static str
    ensures { result.now ≡ words_lead numbers.now }
{
    match numbers.len() {
        0 => "",
        1 => "; it has word ",
        _ => "; it has words ",
    }
}

/// The text between a number and the rest of the numbers.
pub fn separator(rest: &[u16]) -> &'static str
    ensures { result.now ≡ separator rest.now }
{
    match rest.len() {
        0 => "",
        1 => " and ",
        _ => ", ",
    }
}
