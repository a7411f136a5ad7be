//! A source in memory that owns its bytes.
ghost use Rattle.std.specs.Prelude.{◌≡◌, ◌<◌, ◌≤◌, ◌↔◌, IfSome, IsErr, None, is_none, vec_len};
ghost use Rattle.th_devices.specs.Devices.{Gives, IsOpened, IsRead};
ghost use Rattle.th_devices.specs.Limits.{call_limit};
ghost use Rattle.th_devices.specs.Memory.{IsMissing, left_of};

use crate::bytes::copy_front;
use crate::devices::{Counts, Failed, Source};
use std::marker::Model;

/// A source over bytes of its own, which never fails; or over no file, so that each read fails.
#[derive(Drop)]
pub struct MemorySource {
    text: Option<Vec<u8>>,
    done: usize,
    piece: usize,
    counts: Counts,
}

impl Model for MemorySource {
    ghost use Rattle.std.specs.Prelude.{◌≤◌, IfSome, is_none, vec_len};
    ghost use Rattle.th_devices.specs.Devices.{SourceState};
    ghost use Rattle.th_devices.specs.Memory.{left_of};

    ghost Value = { SourceState };

    ghost view = { λ source. record {
      left = left_of source.text source.done;
      may_fail = is_none source.text;
      counts = source.counts;
    } };

    ghost invariant = { λ source. (1 ≤ source.piece)
        × IfSome source.text (λ text. source.done ≤ vec_len text) };
}

impl MemorySource {
    /// A source of these bytes that gives at most `piece` of them a read. Without bytes each read
    /// fails.
    pub fn new(text: Option<Vec<u8>>, piece: usize) -> MemorySource
        requires { 1 ≤ piece }
        ensures { IsOpened (is_none text) (left_of text 0) result }
    {
        MemorySource {
            text,
            done: 0,
            piece,
            counts: Counts::new(),
        }
    }
}

impl Source for MemorySource {
    ghost state = { λ source. source };

    fn read(&mut self, into: &mut [u8]) -> Result<usize, Failed>
        requires { self.old.counts.calls < call_limit }
        ensures read { IsRead self.old self.new into.old into.new result }
        ensures fails_there { IsErr result ↔ IsMissing self.old }
        ensures missing { IsMissing self.new ↔ IsMissing self.old }
    {
        let answer = give(&self.text, &mut self.done, self.piece, into);
        self.counts.count(&answer);
        answer
    }
}

/// Gives bytes of a text, where there is one, from the one on that comes next.
fn give(
    text: &Option<Vec<u8>>,
    done: &mut usize,
    piece: usize,
    into: &mut [u8],
) -> Result<usize, Failed>
    requires piece { 1 ≤ piece }
    requires inside { IfSome text.now (λ own. done.old ≤ vec_len own) }
    ensures inside { IfSome text.now (λ own. done.new ≤ vec_len own) }
    ensures fails_there { IsErr result ↔ (text.now ≡ None) }
    ensures gives { Gives (left_of text.now done.old) (left_of text.now done.new)
        into.old into.new result }
{
    let Some(text) = text else {
        return Err(Failed);
    };
    let rest = &text.as_slice()[*done..];
    let count = copy_front(rest, piece, into);
    *done += count;
    Ok(count)
}
