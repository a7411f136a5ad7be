//! What a run that explains writes, and each of its reads and writes, refused in turn.
ghost use Rattle.th_devices.specs.Memory.{text_sink};
ghost use Rattle.th_runs.specs.Explained.{explaining};
ghost use Rattle.th_run_parts.specs.Writes.{AreWritable};

use crate::helpers::{
    Device, HELD_BEFORE, failing_sink, failing_sources, held_before, refusal_of, source,
};
use crate::projects::{A_AT_100, LIMIT};
use std::process::Abort;
use th_devices::TextSink;
use th_progress::Silent;
use th_runs::{Explain, Form, Refusal, ReviewReader, run_command};

/// What is printed of a book of one sight.
const ONE_SIGHT_EXPLAINED: &[u8] = b"cost                          0.00000000
blunder limit                 0.02000000
marked                                 0
sights                                 1
entries                                0
changes                                0
benchmarks                             0
books                                  1
explanations                           0
  NO  BK    LINE  WORD  FROM              TO                     PROPOSED     COST LEFT BLUNDERS

Nothing to explain: no number has to be wrong by more than 0.02000000 m.
";

/// A book that leaves one number to explain: the second of three sights of a pair.
const THREE_SIGHTS: &[u8] =
    b"110001+0000000A 84..10+00000000 88..10+00001500 87..10+00001300 \n110002+0000000B 33..00+00002345 \n110003+0000000B 33..00+00002445 \n110004+0000000B 33..00+00002345 \n";

/// Its table.
const THREE_SIGHTS_TABLE: &[u8] =
    b"number,kind,book,line,word,from,to,sights,given,low,high,explains,left,blunders,last,poles,instruments,reading,name,fit
1,sight,1,3,,A,B,1,2.64500000,2.54500000,2.54500000,0.10000000,0.00000000,0,,,,,,
";

/// The devices of a run that explains, and how often each source is called.
const CALLS: [(Device, u8); 4] = [
    (Device::FirstBook, 4),
    (Device::SecondBook, 1),
    (Device::Benchmarks, 2),
    (Device::Weights, 2),
];

/// How often the sink is called: for 20 bytes a write, beside `begin` and `finish`.
const WRITES: u8 = 29;

/// Explains where one call fails.
fn explain_where<R: AllocGlobal + Abort>(
    rt: &R,
    failing: Device,
    call: u8,
    outs: &mut [TextSink],
) -> Result<(), Refusal>
    requires { AreWritable text_sink explaining.outputs outs.old }
{
    let (mut books, mut table, mut weights) = failing_sources(failing, call);
    run_command(
        rt.alloc(),
        &Explain {
            limit: LIMIT,
            form: Form::Text,
        },
        &mut ReviewReader::new(rt.alloc()),
        &mut books,
        &mut table,
        &mut weights,
        outs,
        &mut Silent,
    )
}

/// Explains where a call fails, which has to be answered as such.
fn refuse<R: AllocGlobal + Abort>(rt: &R, failing: Device, call: u8) {
    let mut outs = [failing_sink(rt, Device::Explanations, failing, call)];
    let answer = explain_where(rt, failing, call, &mut outs);
    assert_eq!(rt; answer, Err(refusal_of(failing)), "call {call}");
    let wanted = if failing == Device::Explanations {
        held_before(ONE_SIGHT_EXPLAINED, call)
    } else {
        HELD_BEFORE
    };
    assert!(rt; outs[0].bytes() == wanted, "{failing:?} call {call}");
}

/// Explains where the call that is to fail never comes.
fn refuse_nothing<R: AllocGlobal + Abort>(rt: &R, device: Device, calls: u8) {
    let never = calls.wrapping_add(1);
    let mut outs = [failing_sink(rt, Device::Explanations, device, never)];
    let answer = explain_where(rt, device, never, &mut outs);
    assert_eq!(rt; answer, Ok(()), "{device:?}");
    assert!(rt; outs[0].bytes() == ONE_SIGHT_EXPLAINED, "{device:?}");
}

#[test]
fn each_call_of_an_explanation_is_refused_in_turn(rt: HostRuntime) {
    for (device, calls) in CALLS {
        for call in 1..=calls {
            refuse(&rt, device, call);
        }
        refuse_nothing(&rt, device, calls);
    }
    for call in 1..=WRITES {
        refuse(&rt, Device::Explanations, call);
    }
    refuse_nothing(&rt, Device::Explanations, WRITES);
}

#[test]
fn a_sight_is_explained(rt: HostRuntime) {
    let mut books = [source(THREE_SIGHTS)];
    let mut benchmarks = source(A_AT_100);
    let mut weights = Some(source(b""));
    let mut outs = [failing_sink(&rt, Device::Explanations, Device::Verdict, 1)];
    let answer = run_command(
        rt.alloc(),
        &Explain {
            limit: LIMIT,
            form: Form::Table,
        },
        &mut ReviewReader::new(rt.alloc()),
        &mut books,
        &mut benchmarks,
        &mut weights,
        &mut outs,
        &mut Silent,
    );
    assert_eq!(rt; answer, Ok(()));
    assert!(rt; outs[0].bytes() == THREE_SIGHTS_TABLE);
}
