//! Laws of a page beside other runs. A law is its contract: it computes nothing.

ghost use Rattle.std.specs.Prelude.{◌≡◌, ℕ, ℤ, true, List};
ghost use Rattle.th_circulation.specs.Best.{Best, IsBest};
ghost use Rattle.th_entries.specs.declared.listed.Listed.{Listed};
ghost use Rattle.th_entries.specs.declared.reviews.BookReview.{BookReview};
ghost use Rattle.th_entries.specs.declared.spellings.Spelling.{Spelling};
ghost use Rattle.th_inputs.specs.Inputs.{NamedInput};
ghost use Rattle.th_network.specs.Networks.{Survey, at_points_of};
ghost use Rattle.th_page.specs.Laws.{are_reasoned};
ghost use Rattle.th_page.specs.Pages.{page_text};
ghost use Rattle.th_page.specs.Shown.{shown_of};
ghost use Rattle.th_review_rows.specs.Found.{FoundNumbers, found_rows};
ghost use Rattle.th_runs.specs.Paged.{IsPaged, explained_with, shown_in};
ghost use Rattle.th_runs.specs.Reviewed.{AreFound};

use th_circulation::laws::lowest_and_highest_are_one;
use th_page::laws::no_name_is_markup;
use th_points::laws::points_are_ends_and_benchmarks;
use th_reliability::laws::control_decides_shared_mistake;

/// A page shows what an adjustment and a review of the same books print.
///
/// Each run has best heights of its own, and findings of its own. Whichever an adjustment or a review
/// prints, the page is the page of these: best heights, strengths, controls and words are one. Only of
/// several sets that a mistake may move a review counts one, and no page shows which.
pub fn page_shows_what_others_print()
    ensures { (survey : Survey) (title : List ℕ) (inputs : List NamedInput) (books : List BookReview)
        (spellings : Listed Spelling) (limit : ℤ) (text : List ℕ)
        (page : IsPaged survey title inputs books spellings limit text) (answer : Best) (found : FoundNumbers)
        → IsBest survey answer
        → AreFound survey books found
        → text ≡ page_text (shown_of title (found_rows survey (at_points_of survey answer.low)
        (at_points_of survey answer.high) found books spellings) inputs
        (explained_with page.explained page.meaning limit)) }
{
    points_are_ends_and_benchmarks();
    lowest_and_highest_are_one();
    control_decides_shared_mistake();
    no_name_is_markup();
}

/// Red means something: each page that is made accuses a sight for a reason. A sight is in question only where a row
/// explains most, and else accused only if it is marked. So `th_page::laws::good_pages_have_no_red` speaks of it.
pub fn pages_accuse_for_a_reason()
    ensures { (survey : Survey) (title : List ℕ) (inputs : List NamedInput) (books : List BookReview)
        (spellings : Listed Spelling) (limit : ℤ) (text : List ℕ)
        (page : IsPaged survey title inputs books spellings limit text)
        → are_reasoned (shown_in survey title inputs books spellings limit text page) ≡ true }
{
    points_are_ends_and_benchmarks();
    lowest_and_highest_are_one();
}
