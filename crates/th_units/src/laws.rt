//! Laws that relate the definitions to one another. They call nothing of the code.

ghost use Rattle.std.specs.Prelude.{◌≡◌, ◌<◌, ℤ, Ok, unsigned_abs};
ghost use Rattle.th_units.specs.Limits.{size_limit};
ghost use Rattle.th_units.specs.Metres.{metres, value};

/// The text in metres of a length below 10^17 units in size is read as that length.
pub fn value_of_metres_is_the_length()
    ensures { (units : ℤ) → unsigned_abs units < size_limit → value (metres units) ≡ Ok units }
{}
