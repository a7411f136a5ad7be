//! Pages over devices in memory: what one shows of a misread sight, and each read and each write refused
//! in turn.
ghost use Rattle.std.specs.Prelude.{◌≤◌};
ghost use Rattle.th_devices.specs.Memory.{text_sink};
ghost use Rattle.th_runs.specs.Paged.{paging};
ghost use Rattle.th_run_parts.specs.Writes.{AreWritable};

use crate::helpers::{Device, HELD_BEFORE, failing_sources, refusal_of, source};
use crate::projects::{A_AT_100, LIMIT, MISREAD_SIGHT};
use std::process::Abort;
use th_devices::{TextSink, write_all};
use th_progress::Silent;
use th_runs::{MakePage, Refusal, ReviewReader, run_command};

/// The names of the inputs of which one call fails.
const NAMES: [&str; 4] = ["monday.gsi", "none.gsi", "marks.csv", "weights.csv"];

/// The title of a page.
const TITLE: &[u8] = b"<i>site";

/// How many bytes a sink takes a write.
const PIECE: usize = 4_096;

/// The devices of a run that makes a page, and how often each is called. The page has more bytes than two
/// writes take and at most as many as three do; the sink is called for `begin` and `finish` too.
const CALLS: [(Device, u8); 5] = [
    (Device::FirstBook, 4),
    (Device::SecondBook, 1),
    (Device::Benchmarks, 2),
    (Device::Weights, 2),
    (Device::Page, 5),
];

/// Lines of the page of a misread sight, in order. They are those of a program that shares no code with
/// this one.
const LINES: [&str; 15] = [
    "<title>&lt;i&gt;site: heights</title>\n",
    "<h1>&lt;i&gt;site</h1>\n<p class=\"of\">Heights from <bdi>&lt;b&gt; &amp; &#39;so&#39;.gsi</bdi>, <bdi>marks.csv</bdi>, <bdi>weights.csv</bdi> &middot; limit 20.0 mm</p>\n",
    "<div class=\"verdict care\">\n<h2>One wrong number explains all that does not fit.</h2>\n<p><b>1 of 3 sights marked.</b> Its residual is above the limit: see <a href=\"#residuals\">residuals</a>.</p>\n<p>One wrong number explains this: the sight of line 4.</p>\n<p>The sight of line 4: given 3.54500000, fits from 2.54500000 to 2.54600000.</p>\n<p>No height moves by more than 20.0 mm then.</p>\n<p>Nothing checks 2 keyed-in heights: a mistake there would not show.</p>\n",
    "<path d=\"M2650 3400Q3525 2726 4400 2090T6150 854\"><title>1:3 A to B, 0.0000</title></path>\n",
    "<g class=\"a few\">\n<path d=\"M2650 3400Q3525 2515 4400 1740T6150 300\"><title>1:4 A to B, +0.9990</title></path>\n",
    "<circle cx=\"6150\" cy=\"854\" r=\"38\"><title>B 102.5460</title></circle>\n",
    "<li><b>3</b>sights\n<li><b>1</b>new points\n<li><b>2</b>sights to spare\n<li><b>1.0 mm</b>largest residual within the limit\n",
    "<tr><th>A<td>100.0000<td><td>benchmark\n<tr><th>B<td>102.5460<td><td>3\n",
    "<tr><th>A<td>100.0000<td>3<td>nothing: it is the only one<td>\n",
    "<path class=\"a\" d=\"M6733 670V100\"/>\n",
    "<tr><td>1:4<th>A<th>B<td>3.5450<td>+0.9990<td>1<td>2<th class=\"t\">in question\n",
    "<tr class=\"x\"><td>1<td>1:4<th>sight<th>A to B<td>3.5450<td>2.5450<td>2.5460<td>0.0010<td>0\n",
    "<tr><td>1:1<th>instrument<th>A<td>1.5000<td>3<td>3<th>unchecked\n",
    "<li>weights record 2: B to A was never observed, but A to B was\n",
    "<li>book 1: <bdi>&lt;b&gt; &amp; &#39;so&#39;.gsi</bdi> <small>196 B, SHA-256 ee792ecd53e9be0d8c2f78ad2f5ce487418d40f7c53a952e55070151b5cb8493</small>\n<li>benchmarks: <bdi>marks.csv</bdi> <small>19 B, SHA-256 c15a70569a2e2d0025454e42e8ef947dc907df9de97213f74d4ed8795fbdba58</small>\n<li>weights: <bdi>weights.csv</bdi> <small>21 B, SHA-256 25342a3d84e0c31ca539d7c2a9b326eb2dbf6a51e13c8d5e1a0fe0bbe69eb97e</small>\n</ul>\n",
];

/// A sink with room for a page, which holds a text, and whose call with this number fails, counted from
/// then on.
fn page_sink<R: AllocGlobal + Abort>(rt: &R, fail_at: Option<u8>) -> TextSink
    ensures { result.counts.calls ≤ 15 }
{
    let fail_at = fail_at.map(|call| u128::from(call) + 3);
    let mut sink = TextSink::new(rt.alloc(), 20_000, PIECE, fail_at).expect(rt, "memory");
    let _ = write_all(&mut sink, HELD_BEFORE);
    sink
}

/// Makes the page of a book of one sight and of an empty one, where this call of a device fails.
fn page_where<R: AllocGlobal + Abort>(
    rt: &R,
    failing: Device,
    call: u8,
) -> (Result<(), Refusal>, [TextSink; 1]) {
    let (mut books, mut table, mut weights) = failing_sources(failing, call);
    let fail_at = if failing == Device::Page {
        Some(call)
    } else {
        None
    };
    let mut outs = [page_sink(rt, fail_at)];
    let answer = run_command(
        rt.alloc(),
        &MakePage {
            limit: LIMIT,
            title: TITLE,
            names: &NAMES,
        },
        &mut ReviewReader::new(rt.alloc()),
        &mut books,
        &mut table,
        &mut weights,
        &mut outs,
        &mut Silent,
    );
    (answer, outs)
}

/// What the sink holds of the page where this call of a device fails.
fn held(page: &[u8], failing: Device, call: u8) -> &[u8] {
    if failing != Device::Page || call == 1 {
        return HELD_BEFORE;
    }
    let written = usize::from(call).saturating_sub(2).saturating_mul(PIECE);
    page.get(..written).unwrap_or(page)
}

#[test]
fn each_call_of_a_page_is_refused_in_turn(rt: HostRuntime) {
    let (answer, whole) = page_where(&rt, Device::Verdict, 1);
    assert_eq!(rt; answer, Ok(()));
    let page = whole[0].bytes();
    assert!(rt; page.ends_with(b"</html>\n"));
    for (device, calls) in CALLS {
        for call in 1..=calls {
            let (answer, outs) = page_where(&rt, device, call);
            assert_eq!(rt; answer, Err(refusal_of(device)), "call {call}");
            assert!(rt;
                outs[0].bytes() == held(page, device, call),
                "{device:?} call {call}"
            );
        }
        let (answer, outs) = page_where(&rt, device, calls.wrapping_add(1));
        assert_eq!(rt; answer, Ok(()), "{device:?}");
        assert!(rt; outs[0].bytes() == page, "{device:?}");
    }
}

#[test]
fn a_misread_sight_is_shown(rt: HostRuntime) {
    let mut books = [source(MISREAD_SIGHT)];
    let mut benchmarks = source(A_AT_100);
    let mut weights = Some(source(b"from,to,weight\nB,A,7\n"));
    let mut outs = [page_sink(&rt, None)];
    let answer = run_command(
        rt.alloc(),
        &MakePage {
            limit: LIMIT,
            title: TITLE,
            names: &["client/<b> & 'so'.gsi", "marks.csv", "weights.csv"],
        },
        &mut ReviewReader::new(rt.alloc()),
        &mut books,
        &mut benchmarks,
        &mut weights,
        &mut outs,
        &mut Silent,
    );
    assert_eq!(rt; answer, Ok(()));
    let mut left = str::from_utf8(outs[0].bytes()).unwrap_or("");
    for line in LINES {
        let found = left.split_once(line);
        assert!(rt; found.is_some(), "{line}");
        left = found.map(|(_, behind)| behind).unwrap_or("");
    }
}
