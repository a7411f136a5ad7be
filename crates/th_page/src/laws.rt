//! Laws of the definitions. A law is its contract: it computes nothing.
ghost use Rattle.th_page.specs.Laws.{GoodPagesHaveNoRed, PagesAreOfPieces};

/// No name is markup, nor is a note: a page is a list of fixed pieces and of texts from outside, each of
/// which is escaped.
///
/// The pieces stay the same if texts of the same lengths come in place of those from outside. So no byte of
/// one decides what else is on the page; only how long names are decides how they are written.
/// `th_html::laws::escaped_text_makes_no_markup` says that none has a byte of markup. Nor does the page show
/// what is blamed for a mistake, or the strength of a benchmark.
pub fn no_name_is_markup()
    ensures { PagesAreOfPieces }
{}

/// Red means something: a page whose verdict is good has no sight in question and no marked one, and strikes
/// out no height.
///
/// This holds wherever a sight is in question only if a row explains most, and else is accused only if it is
/// marked. `th_runs::page_laws::pages_accuse_for_a_reason` says that this is so of each page that is made.
pub fn good_pages_have_no_red()
    ensures { GoodPagesHaveNoRed }
{}
