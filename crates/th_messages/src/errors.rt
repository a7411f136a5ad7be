//! Lines on the standard error of a folder.
ghost use Rattle.std.specs.Prelude.{◌≡◌, ◌≢◌, false};
ghost use Rattle.th_devices.specs.Spots.{errors};
ghost use Rattle.th_messages.specs.Errors.{IsBegunThere, IsWholeThere};
ghost use Rattle.th_messages.specs.Lines.{HasRoom};

use crate::lines::Line;
use th_devices::Folder;

/// Begins a line on standard error. It takes no memory.
pub fn begin_line<F: Folder>(folder: &mut F) -> Line<F::Out>
    ensures same { folder.new ≡ folder.old }
    ensures begun { IsBegunThere F.tells result }
{
    Line::begin(folder.standard_error())
}

/// Ends a line on standard error, and leaves it there.
pub fn end_line<F: Folder>(folder: &mut F, line: Line<F::Out>)
    requires there { line.spot ≡ errors }
    requires room { HasRoom 1 line }
    ensures written { F.has_failed folder.new errors ≡ false
        → IsWholeThere F.tells line (F.held folder.new errors) }
    ensures others { (spot : _) → spot ≢ errors → F.held folder.new spot ≡ F.held folder.old spot }
{
    folder.close(line.end());
}
