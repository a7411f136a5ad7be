//! The files of a run take their places together, after all of them are whole.
ghost use Rattle.std.specs.Prelude.{◌≡◌, All, IfErr, OnOk, map};
ghost use Rattle.th_devices.specs.Folders.{ArePlaced, IsStopped, IsWholeFile};
ghost use Rattle.th_devices.specs.Inside.Placing.{IsNext};

use crate::folders::Folder;

/// Takes the finished files of a run back, and gives their bytes their places in this order.
///
/// The error is the number of the first file, counted from 0, whose bytes could not take theirs. Those
/// before it did. It and later ones leave what was there.
pub fn place_all<F: Folder>(folder: &mut F, sinks: Vec<F::Out>) -> Result<(), usize>
    requires { All (λ sink. IsWholeFile (F.Out.state sink)) sinks.items }
    ensures placed { OnOk result (ArePlaced F.tells F.held F.has_failed
        (map F.Out.state sinks.items) folder.old folder.new) }
    ensures stopped { IfErr result (IsStopped F.tells F.held F.has_failed F.failing
        (map F.Out.state sinks.items) folder.old folder.new) }
{
    let mut answer = Ok(());
    let mut number = 0;
    for sink in sinks {
        answer = place_next(folder, sink, number, answer);
        number += 1;
    }
    answer
}

/// Gives the bytes of the finished file with this number their place, unless a file before it could
/// not take its own.
fn place_next<F: Folder>(
    folder: &mut F,
    sink: F::Out,
    number: usize,
    answer: Result<(), usize>,
) -> Result<(), usize>
    requires { IsWholeFile (F.Out.state sink) }
    ensures next { IsNext F.tells F.held F.has_failed F.failing (F.Out.state sink) number
        answer folder.old folder.new result }
    ensures fixed { (F.failing folder.new).writing ≡ (F.failing folder.old).writing }
{
    match answer {
        Ok(()) => match folder.place(sink) {
            Ok(()) => Ok(()),
            Err(_) => Err(number),
        },
        Err(before) => {
            folder.close(sink);
            Err(before)
        }
    }
}
