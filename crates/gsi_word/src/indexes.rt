//! The word indexes that have a meaning here (Leica GSI Online manual, table of word indexes).

/// A point's number: the name of a station or a target.
pub const POINT_NUMBER: u8 = 11;

/// The horizontal angle.
pub const HORIZONTAL_ANGLE: u8 = 21;

/// The vertical angle.
pub const VERTICAL_ANGLE: u8 = 22;

/// The slope distance.
pub const SLOPE_DISTANCE: u8 = 31;

/// The horizontal distance.
pub const HORIZONTAL_DISTANCE: u8 = 32;

/// The height difference, in this project's profile from the tilting axis to the reflector.
pub const HEIGHT_DIFFERENCE: u8 = 33;

/// The height of the target, as the instrument computed it.
pub const TARGET_HEIGHT: u8 = 83;

/// The station's easting.
pub const STATION_EASTING: u8 = 84;

/// The station's northing.
pub const STATION_NORTHING: u8 = 85;

/// The height of the station.
pub const STATION_HEIGHT: u8 = 86;

/// The height of the reflector above the target.
pub const REFLECTOR_HEIGHT: u8 = 87;

/// The height of the instrument's tilting axis above the station.
pub const INSTRUMENT_HEIGHT: u8 = 88;
