//! The texts that every page has.
ghost use Rattle.std.specs.Prelude.{◌≡◌, ◌++◌, OnOk};
ghost use Rattle.th_page.specs.Fixed.{ask_end, ask_middle, ask_start, benchmark_start, body_text, caption_text, details_end, explanation_start, head_text, height_note, height_start, hiding_start, note_start, picture_start, residual_start, section_end, style_text, title_end, weak_benchmarks_start, weak_entries_start, weak_sights_start};

use std::alloc::AllocError;
use th_columns::Page;

/// What is before the title.
const HEAD: &[u8] = b"\
<!DOCTYPE html>\n\
<html lang=\"en\">\n\
<head>\n\
<meta charset=\"utf-8\">\n\
<meta name=\"viewport\" content=\"width=device-width, initial-scale=1\">\n\
<title>";

/// What is between the title and the style.
const TITLE_END: &[u8] = b"\
: heights</title>\n\
<style>\n\
";

/// The style.
const STYLE: &[u8] = b"\
:root{color-scheme:light}\n\
body{margin:0 auto;padding:1em 1em 3em;max-width:54em;background:#fff;color:#16191d;font:1em/1.4 system-ui,Helvetica,Arial,sans-serif}\n\
h1{margin:0;font-size:1.6em;line-height:1.2;overflow-wrap:anywhere}\n\
h2{margin:1.8em 0 .3em;font-size:1.15em}\n\
p,ul{margin:.4em 0;padding:0}\n\
ul{list-style:none}\n\
figure{margin:1.4em 0 0}\n\
figcaption,.of,.note{color:#555d66;font-size:.88em}\n\
bdi,li,p,th{overflow-wrap:anywhere}\n\
code{font:.92em ui-monospace,Menlo,Consolas,monospace}\n\
.verdict{margin:.8em 0;padding:.3em 0 .4em .9em;border-left:.4em solid #c4161c}\n\
.verdict h2{margin:0 0 .2em;font-size:1.3em;line-height:1.25}\n\
.verdict.good{border-left:.4em double #2a7d4f}\n\
.verdict.care{border-left:.4em dashed #2f5d8a}\n\
.facts{display:flex;flex-wrap:wrap;gap:.4em 2em;color:#555d66;font-size:.88em}\n\
.facts b{display:block;color:#16191d;font-size:1.4em;line-height:1.2;font-variant-numeric:tabular-nums}\n\
.w,.col{overflow-x:auto}\n\
table{border-collapse:collapse;font-variant-numeric:tabular-nums}\n\
th,td{padding:.15em .7em .15em 0;text-align:right;white-space:nowrap;border-bottom:1px solid #e2e5e8}\n\
th{font:1em ui-monospace,Menlo,Consolas,monospace;text-align:left;white-space:pre}\n\
th.t{font-family:inherit}\n\
thead th,thead td{color:#555d66;font:.85em system-ui,Helvetica,Arial,sans-serif;border-color:#16191d}\n\
.x th,.x td{border-bottom-color:#c4161c}\n\
.x>:first-child{box-shadow:inset .3em 0 #c4161c;padding-left:.7em}\n\
.x b,.r{color:#c4161c;font-weight:bold}\n\
s{text-decoration-color:#c4161c}\n\
.col{display:inline-block;box-sizing:border-box;max-width:100%;vertical-align:top;margin-bottom:1em;padding-right:2em;break-inside:avoid}\n\
summary{cursor:pointer;margin:.6em 0;color:#2f5d8a}\n\
svg{display:block;width:100%}\n\
path{fill:none}\n\
.n{font:110px ui-monospace,Menlo,Consolas,monospace;fill:#444}\n\
.e{text-anchor:end}\n\
.m{text-anchor:middle}\n\
.l{stroke:#e2e5e8;stroke-width:10}\n\
.d{stroke:#bbb;stroke-width:6;stroke-dasharray:6 24}\n\
.z{stroke:#555d66;stroke-width:10}\n\
rect{fill:#eef1f3}\n\
.q{stroke:#b4bcc5;stroke-width:6}\n\
.v{stroke:#2f5d8a;stroke-width:16;stroke-dasharray:120 30 20 30}\n\
.c{stroke:#16191d;stroke-width:14;stroke-dasharray:70 45}\n\
.s{stroke:#c4161c;stroke-width:14;stroke-dasharray:20 25}\n\
.a{stroke:#c4161c;stroke-width:16}\n\
.q.few{stroke:#8a949e;stroke-width:10}\n\
.v.few,.c.few,.s.few{stroke-width:20}\n\
.a.few{stroke-width:30}\n\
circle{fill:#fff;stroke:#16191d;stroke-width:14}\n\
.dots:has(:nth-child(1001)) circle{r:4px;stroke:#8a949e;stroke-width:8}\n\
.k{fill:#16191d;stroke:#fff;stroke-width:10}\n\
.p{stroke:#c46200;stroke-width:70;opacity:.4}\n\
.gap,.cross{stroke:#c4161c;stroke-width:18}\n\
.gap{stroke-dasharray:30 30}\n\
.bars path{stroke-width:inherit;stroke-dasharray:none}\n\
.legend{display:flex;flex-wrap:wrap;gap:.2em 1.4em;color:#555d66;font-size:.88em}\n\
.legend li{display:flex;align-items:center;gap:.5em}\n\
.legend svg{width:3em;flex:none}\n\
.legend path{stroke-width:24}\n\
#ask{margin-top:2.4em;border-top:1px solid #16191d;color:#555d66;font-size:.88em}\n\
#ask b{color:#16191d}\n\
@media screen{.col{content-visibility:auto;contain-intrinsic-size:auto 20em auto 36em}}\n\
@media screen and (max-width:40em){body{padding-top:.6em}h1{font-size:1.3em}.verdict{margin:.5em 0;padding:.1em 0 .2em .7em}.verdict h2{font-size:1.15em}.verdict p{margin:.25em 0;line-height:1.3}figure{margin:.6em 0 0}.w{margin:0 -1em;padding:0 1em}.w svg{overflow:visible}.n{font-size:150px}.n.e{font-size:190px}table{font-size:.9em}}\n\
@media print{@page{size:A4;margin:15mm}body{padding:0;max-width:none;font-size:9pt}th{white-space:pre-wrap}tr,figure,li,p,.verdict{break-inside:avoid}h2,h2+p{break-after:avoid}details{display:none}}\n\
";

/// What is between the style and the title above the page.
const BODY: &[u8] = b"\
</style>\n\
</head>\n\
<body>\n\
<h1>";

/// What is before the picture.
const PICTURE: &[u8] = b"\
<figure>\n\
<div class=\"w\">\n\
";

/// The caption of the picture, and the end of its figure.
const CAPTION: &[u8] = b"\
<figcaption>Heights in metres, points in the order of the books. Each sight is drawn from its station to where it puts its target. It bends up if it runs to the right, and down if to the left.</figcaption>\n\
</figure>\n\
";

/// The beginning of the section of heights.
const HEIGHTS: &[u8] = b"\
<section id=\"heights\">\n\
<h2>Heights</h2>\n\
<p class=\"note\">";

/// What heights are.
const HEIGHT_NOTE: &[u8] =
    b"In metres. Where there is a second height, any height up to it fits equally well if other points move with it. Strength is the least weight of sights that tie the point to the benchmarks. Wrong sights that weigh less than half of it together do not drag the point.</p>\n";

/// The beginning of the section of benchmarks.
const BENCHMARKS: &[u8] = b"\
<section id=\"benchmarks\">\n\
<h2>Benchmarks</h2>\n\
<p class=\"note\">The given heights, and what the other benchmarks say of each by the sights that lead there. With more than 4,000 sights it may be asked of the first rows alone.</p>\n\
";

/// The beginning of the section of residuals.
const RESIDUALS: &[u8] = b"\
<section id=\"residuals\">\n\
<h2>Residuals</h2>\n\
<p class=\"note\">By how much each sight puts its target above (+) or below (-) its height, in the order of the books. Grey: within the limit. A place such as 2:14 is line 14 of book 2.</p>\n\
<div class=\"w\">\n\
";

/// The beginning of the section of explanations.
const EXPLANATIONS: &[u8] = b"\
<section id=\"explanations\">\n\
<h2>What would explain it</h2>\n\
<p class=\"note\">One number changed at a time. With the proposed number nearest to the given one, the cost and the marks of the last two columns are left. Rows with the same number explain equally well.</p>\n\
";

/// The beginning of the section of where a mistake could hide.
const HIDING: &[u8] = b"\
<section id=\"hide\">\n\
<h2>What could hide</h2>\n\
<p class=\"note\">Where a single mistake would not show as its own residual. This is no fault that was found: one more sight or benchmark can check such a number. Ties: it or another sight is marked. Hides: other sights are marked. Drags: points move, and other sights are marked, or none. Unchecked: nothing is marked.</p>\n\
";

/// What is before the table of weak sights.
const WEAK_SIGHTS: &[u8] = b"\
<details>\n\
<summary>Weak sights</summary>\n\
";

/// What is before the table of weak benchmarks.
const WEAK_BENCHMARKS: &[u8] = b"\
<details>\n\
<summary>Weak benchmarks</summary>\n\
";

/// What is before the table of weak keyed-in heights.
const WEAK_ENTRIES: &[u8] = b"\
<details>\n\
<summary>Weak keyed-in heights</summary>\n\
";

/// The end of details.
const DETAILS_END: &[u8] = b"</details>\n";

/// The beginning of the section of notes.
const NOTES: &[u8] = b"\
<section id=\"notes\">\n\
<h2>Notes</h2>\n\
<p class=\"note\">What looks odd in the books and tables.</p>\n\
<ul>\n\
";

/// The beginning of the section of what a client may ask, up to the cost.
const ASK: &[u8] = b"\
<section id=\"ask\">\n\
<h2>What a client may ask</h2>\n\
<p><b>How were the heights found?</b> They keep the benchmarks, and the sum of weight times size over all residuals is ";

/// What is between the cost and the inputs.
const ASK_MIDDLE: &[u8] =
    b" m: no heights that keep the benchmarks have less. A sight that others outweigh does not pull them. All lengths are in metres, rounded to 0.1 mm.</p>\n\
<p><b>How can they be checked?</b> <code>height_office adjust</code> writes a certificate beside the heights. With it and these inputs <code>height_office check</code> prints yes.</p>\n\
<p><b>What were they made of?</b></p>\n\
<ul class=\"inputs\">\n\
";

/// The end of that section.
const ASK_END: &[u8] = b"\
</ul>\n\
<p>Height Office</p>\n\
</section>\n\
";

/// The end of a section.
const SECTION_END: &[u8] = b"</section>\n";

/// Writes what is before the title.
#[tactic(auto, unfolding(crate::specs::Fixed::head_text))]
pub(crate) fn write_head_text(page: &mut Page) -> Result<(), AllocError>
    ensures { OnOk result (page.new ≡ page.old ++ head_text) }
{
    page.add(HEAD)
}

/// Writes what is between the title and the style.
#[tactic(auto, unfolding(crate::specs::Fixed::title_end))]
pub(crate) fn write_title_end(page: &mut Page) -> Result<(), AllocError>
    ensures { OnOk result (page.new ≡ page.old ++ title_end) }
{
    page.add(TITLE_END)
}

/// Writes the style.
#[tactic(auto, unfolding(crate::specs::Fixed::style_text))]
pub(crate) fn write_style_text(page: &mut Page) -> Result<(), AllocError>
    ensures { OnOk result (page.new ≡ page.old ++ style_text) }
{
    page.add(STYLE)
}

/// Writes what is between the style and the title above the page.
#[tactic(auto, unfolding(crate::specs::Fixed::body_text))]
pub(crate) fn write_body_text(page: &mut Page) -> Result<(), AllocError>
    ensures { OnOk result (page.new ≡ page.old ++ body_text) }
{
    page.add(BODY)
}

/// Writes what is before the picture.
#[tactic(auto, unfolding(crate::specs::Fixed::picture_start))]
pub(crate) fn write_picture_start(page: &mut Page) -> Result<(), AllocError>
    ensures { OnOk result (page.new ≡ page.old ++ picture_start) }
{
    page.add(PICTURE)
}

/// Writes the caption of the picture, and the end of its figure.
#[tactic(auto, unfolding(crate::specs::Fixed::caption_text))]
pub(crate) fn write_caption_text(page: &mut Page) -> Result<(), AllocError>
    ensures { OnOk result (page.new ≡ page.old ++ caption_text) }
{
    page.add(CAPTION)
}

/// Writes the beginning of the section of heights.
#[tactic(auto, unfolding(crate::specs::Fixed::height_start))]
pub(crate) fn write_height_start(page: &mut Page) -> Result<(), AllocError>
    ensures { OnOk result (page.new ≡ page.old ++ height_start) }
{
    page.add(HEIGHTS)
}

/// Writes what heights are.
#[tactic(auto, unfolding(crate::specs::Fixed::height_note))]
pub(crate) fn write_height_note(page: &mut Page) -> Result<(), AllocError>
    ensures { OnOk result (page.new ≡ page.old ++ height_note) }
{
    page.add(HEIGHT_NOTE)
}

/// Writes the beginning of the section of benchmarks.
#[tactic(auto, unfolding(crate::specs::Fixed::benchmark_start))]
pub(crate) fn write_benchmark_start(page: &mut Page) -> Result<(), AllocError>
    ensures { OnOk result (page.new ≡ page.old ++ benchmark_start) }
{
    page.add(BENCHMARKS)
}

/// Writes the beginning of the section of residuals.
#[tactic(auto, unfolding(crate::specs::Fixed::residual_start))]
pub(crate) fn write_residual_start(page: &mut Page) -> Result<(), AllocError>
    ensures { OnOk result (page.new ≡ page.old ++ residual_start) }
{
    page.add(RESIDUALS)
}

/// Writes the beginning of the section of explanations.
#[tactic(auto, unfolding(crate::specs::Fixed::explanation_start))]
pub(crate) fn write_explanation_start(page: &mut Page) -> Result<(), AllocError>
    ensures { OnOk result (page.new ≡ page.old ++ explanation_start) }
{
    page.add(EXPLANATIONS)
}

/// Writes the beginning of the section of where a mistake could hide.
#[tactic(auto, unfolding(crate::specs::Fixed::hiding_start))]
pub(crate) fn write_hiding_start(page: &mut Page) -> Result<(), AllocError>
    ensures { OnOk result (page.new ≡ page.old ++ hiding_start) }
{
    page.add(HIDING)
}

/// Writes what is before the table of weak sights.
#[tactic(auto, unfolding(crate::specs::Fixed::weak_sights_start))]
pub(crate) fn write_weak_sights_start(page: &mut Page) -> Result<(), AllocError>
    ensures { OnOk result (page.new ≡ page.old ++ weak_sights_start) }
{
    page.add(WEAK_SIGHTS)
}

/// Writes what is before the table of weak benchmarks.
#[tactic(auto, unfolding(crate::specs::Fixed::weak_benchmarks_start))]
pub(crate) fn write_weak_benchmarks_start(page: &mut Page) -> Result<(), AllocError>
    ensures { OnOk result (page.new ≡ page.old ++ weak_benchmarks_start) }
{
    page.add(WEAK_BENCHMARKS)
}

/// Writes what is before the table of weak keyed-in heights.
#[tactic(auto, unfolding(crate::specs::Fixed::weak_entries_start))]
pub(crate) fn write_weak_entries_start(page: &mut Page) -> Result<(), AllocError>
    ensures { OnOk result (page.new ≡ page.old ++ weak_entries_start) }
{
    page.add(WEAK_ENTRIES)
}

/// Writes the end of details.
#[tactic(auto, unfolding(crate::specs::Fixed::details_end))]
pub(crate) fn write_details_end(page: &mut Page) -> Result<(), AllocError>
    ensures { OnOk result (page.new ≡ page.old ++ details_end) }
{
    page.add(DETAILS_END)
}

/// Writes the beginning of the section of notes.
#[tactic(auto, unfolding(crate::specs::Fixed::note_start))]
pub(crate) fn write_note_start(page: &mut Page) -> Result<(), AllocError>
    ensures { OnOk result (page.new ≡ page.old ++ note_start) }
{
    page.add(NOTES)
}

/// Writes the beginning of the section of what a client may ask, up to the cost.
#[tactic(auto, unfolding(crate::specs::Fixed::ask_start))]
pub(crate) fn write_ask_start(page: &mut Page) -> Result<(), AllocError>
    ensures { OnOk result (page.new ≡ page.old ++ ask_start) }
{
    page.add(ASK)
}

/// Writes what is between the cost and the inputs.
#[tactic(auto, unfolding(crate::specs::Fixed::ask_middle))]
pub(crate) fn write_ask_middle(page: &mut Page) -> Result<(), AllocError>
    ensures { OnOk result (page.new ≡ page.old ++ ask_middle) }
{
    page.add(ASK_MIDDLE)
}

/// Writes the end of that section.
#[tactic(auto, unfolding(crate::specs::Fixed::ask_end))]
pub(crate) fn write_ask_end(page: &mut Page) -> Result<(), AllocError>
    ensures { OnOk result (page.new ≡ page.old ++ ask_end) }
{
    page.add(ASK_END)
}

/// Writes the end of a section.
#[tactic(auto, unfolding(crate::specs::Fixed::section_end))]
pub(crate) fn write_section_end(page: &mut Page) -> Result<(), AllocError>
    ensures { OnOk result (page.new ≡ page.old ++ section_end) }
{
    page.add(SECTION_END)
}
