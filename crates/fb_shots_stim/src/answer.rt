//! Why a reader refuses.

ghost use Rattle.std.specs.Prelude.{◌≡◌};
ghost use Rattle.fb_shots_stim.specs.FaultTexts.{kind_name};

/// Why a record is refused.
#[derive(Clone, Copy, Debug, PartialEq, Eq)]
pub enum Kind {
    /// A detector's bit is a byte other than `0` and `1`.
    BadByte,
    /// A record ends before its last detector.
    ShortRecord,
    /// A record goes on after its last detector.
    LongRecord,
    /// A bit after the last detector's, which only fills up the last byte, is set.
    PaddingBit,
    /// A word is no `shot`, detector, observable or measurement.
    BadToken,
    /// A detector's index isn't below the number of detectors.
    IndexOutOfRange,
    /// A record names a detector twice.
    RepeatedIndex,
    /// A record of detectors has a measurement.
    MeasurementToken,
}

impl Kind {
    /// The name that is printed.
    pub fn name(self) -> &'static str
        ensures { result.now ≡ kind_name self }
    {
        match self {
            Kind::BadByte => "BadByte",
            Kind::ShortRecord => "ShortRecord",
            Kind::LongRecord => "LongRecord",
            Kind::PaddingBit => "PaddingBit",
            Kind::BadToken => "BadToken",
            Kind::IndexOutOfRange => "IndexOutOfRange",
            Kind::RepeatedIndex => "RepeatedIndex",
            Kind::MeasurementToken => "MeasurementToken",
        }
    }
}
