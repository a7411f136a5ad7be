//! Each read and each write of an adjustment and of a check, refused in turn.
ghost use Rattle.th_devices.specs.Memory.{text_sink};
ghost use Rattle.th_runs.specs.Adjusted.{adjusting};
ghost use Rattle.th_runs.specs.Checked.{checking};
ghost use Rattle.th_run_parts.specs.Writes.{AreWritable};

use crate::helpers::{
    AT_CERTIFICATE, AT_GSI, AT_HEIGHTS, AT_REPORT, Device, HELD_BEFORE, Sinks, are_left,
    failing_sink, failing_source, failing_sources, held_before, refusal_of,
};
use crate::projects::{CERTIFICATE, HEIGHTS, LIMIT};
use std::process::Abort;
use th_checker::Verdict;
use th_devices::TextSink;
use th_runs::{Refusal, run_adjust, run_check};

/// The devices of an adjustment, and how often each is called: a source gives 50 bytes a read, and
/// the last read finds its end; a sink takes 20 bytes a write, beside `begin` and `finish`.
const OF_ADJUSTMENT: [(Device, u8); 8] = [
    (Device::FirstBook, 4),
    (Device::SecondBook, 1),
    (Device::Benchmarks, 2),
    (Device::Weights, 2),
    (Device::Heights, 8),
    (Device::Certificate, 9),
    (Device::Report, 33),
    (Device::Gsi, 8),
];

/// The devices of a check.
const OF_CHECK: [(Device, u8); 6] = [
    (Device::FirstBook, 4),
    (Device::SecondBook, 1),
    (Device::Benchmarks, 2),
    (Device::Weights, 2),
    (Device::Stated, 4),
    (Device::Verdict, 3),
];

/// Four sinks, one of whose calls may fail.
fn failing_sinks<R: AllocGlobal + Abort>(rt: &R, failing: Device, call: u8) -> Sinks
    ensures { AreWritable text_sink adjusting.outputs result }
{
    [
        failing_sink(rt, Device::Heights, failing, call),
        failing_sink(rt, Device::Certificate, failing, call),
        failing_sink(rt, Device::Report, failing, call),
        failing_sink(rt, Device::Gsi, failing, call),
    ]
}

/// Adjusts with a call that fails or never comes. Returns the answer and the sinks.
fn adjust_where<R: AllocGlobal + Abort>(
    rt: &R,
    failing: Device,
    call: u8,
) -> (Result<(), Refusal>, Sinks) {
    let (mut books, mut table, mut weights) = failing_sources(failing, call);
    let mut outs = failing_sinks(rt, failing, call);
    let answer = run_adjust(
        rt.alloc(),
        &mut books,
        &mut table,
        &mut weights,
        LIMIT,
        &mut outs,
    );
    (answer, outs)
}

/// Adjusts where a call fails, which has to be answered as such.
pub fn refuse_in_adjustment<R: AllocGlobal + Abort>(
    rt: &R,
    failing: Device,
    call: u8,
    whole: &Sinks,
) -> Sinks {
    let (answer, outs) = adjust_where(rt, failing, call);
    assert_eq!(rt; answer, Err(refusal_of(failing)), "call {call}");
    let outputs = [
        (
            Device::Heights,
            outs[AT_HEIGHTS].bytes(),
            whole[AT_HEIGHTS].bytes(),
        ),
        (
            Device::Certificate,
            outs[AT_CERTIFICATE].bytes(),
            whole[AT_CERTIFICATE].bytes(),
        ),
        (
            Device::Report,
            outs[AT_REPORT].bytes(),
            whole[AT_REPORT].bytes(),
        ),
        (Device::Gsi, outs[AT_GSI].bytes(), whole[AT_GSI].bytes()),
    ];
    are_left(rt, &outputs, failing, call);
    outs
}

/// Adjusts where the call that is to fail never comes.
pub fn refuse_nothing<R: AllocGlobal + Abort>(rt: &R, failing: Device, call: u8) -> Sinks {
    let (answer, outs) = adjust_where(rt, failing, call);
    assert_eq!(rt; answer, Ok(()), "{failing:?}");
    assert!(rt; outs[AT_HEIGHTS].bytes() == HEIGHTS, "{failing:?}");
    assert!(rt; outs[AT_CERTIFICATE].bytes() == CERTIFICATE, "{failing:?}");
    outs
}

#[test]
fn each_call_of_an_adjustment_is_refused_in_turn(rt: HostRuntime) {
    let whole = refuse_nothing(&rt, Device::Verdict, 1);
    for (device, calls) in OF_ADJUSTMENT {
        for call in 1..=calls {
            let _ = refuse_in_adjustment(&rt, device, call, &whole);
        }
        let outs = refuse_nothing(&rt, device, calls.wrapping_add(1));
        assert!(rt; outs[AT_GSI].bytes() == whole[AT_GSI].bytes(), "{device:?}");
    }
}

/// Checks a certificate where one call fails.
fn check_failing<R: AllocGlobal + Abort>(
    rt: &R,
    failing: Device,
    call: u8,
    outs: &mut [TextSink],
) -> Result<Verdict, Refusal>
    requires { AreWritable text_sink checking.outputs outs.old }
{
    let (mut books, mut benchmarks, mut weights) = failing_sources(failing, call);
    let mut certificate = failing_source(CERTIFICATE, Device::Stated, failing, call);
    run_check(
        rt.alloc(),
        &mut books,
        &mut benchmarks,
        &mut weights,
        &mut certificate,
        None,
        outs,
    )
}

/// Checks where a call fails, which has to be answered as such.
fn refuse_in_check<R: AllocGlobal + Abort>(rt: &R, failing: Device, call: u8) {
    let mut outs = [failing_sink(rt, Device::Verdict, failing, call)];
    let answer = check_failing(rt, failing, call, &mut outs);
    assert_eq!(rt; answer, Err(refusal_of(failing)), "call {call}");
    let is_written = failing == Device::Verdict;
    let wanted = if is_written {
        held_before(b"yes\n", call)
    } else {
        HELD_BEFORE
    };
    assert!(rt; outs[0].bytes() == wanted, "{failing:?} call {call}");
}

#[test]
fn each_call_of_a_check_is_refused_in_turn(rt: HostRuntime) {
    for (device, calls) in OF_CHECK {
        for call in 1..=calls {
            refuse_in_check(&rt, device, call);
        }
        let never = calls.wrapping_add(1);
        let mut outs = [failing_sink(&rt, Device::Verdict, device, never)];
        let answer = check_failing(&rt, device, never, &mut outs);
        assert_eq!(rt; answer, Ok(Verdict::Yes), "{device:?}");
        assert!(rt; outs[0].bytes() == b"yes\n".as_slice(), "{device:?}");
    }
}
