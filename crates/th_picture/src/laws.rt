//! Laws of the definitions.
ghost use Rattle.th_picture.specs.Laws.{EachSightOnce, IsInOrder, IsInsideFrame, NamesDoNotTouch};
ghost use Rattle.th_picture.specs.StripLaws.{AreToScale};

/// Each sight is in exactly one of the groups. So it is drawn at most once, and its residual has one
/// bar.
pub fn each_sight_is_in_one_group()
    ensures { EachSightOnce }
{}

/// The scale covers the heights at which points are drawn, and its lines reach its top. What is higher is not
/// drawn lower, and what the scale does not reach is drawn beyond its lines.
pub fn heights_are_in_order()
    ensures { IsInOrder }
{}

/// Points, heights and curves are inside the frame.
pub fn places_are_inside_the_frame()
    ensures { IsInsideFrame }
{}

/// Names under the picture do not touch.
pub fn names_do_not_touch()
    ensures { NamesDoNotTouch }
{}

/// The bars and the range within the limit are inside the strip. A residual within the limit is shown at its
/// full size, and what is larger is not shown shorter.
pub fn bars_are_to_scale()
    ensures { AreToScale }
{}
