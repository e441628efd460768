//! Why the reader refuses.

ghost use Rattle.std.specs.Prelude.{◌≡◌};
ghost use Rattle.fb_shots_json.specs.FaultTexts.{kind_name};

/// Why a line is refused.
#[derive(Clone, Copy, Debug, PartialEq, Eq)]
pub enum Kind {
    /// A line that isn't blank has more than 268,435,456 bytes before its newline.
    LineTooLong,
    /// A line is no JSON value (RFC 8259).
    NotJson,
    /// The value is no object, or its `defect_vertices` is no list of whole numbers of at least 0.
    NoDefects,
    /// A defect isn't below the number of vertices.
    DefectOutOfRange,
    /// A defect is a virtual vertex.
    DefectOnVirtual,
    /// A defect is listed twice.
    DefectRepeated,
    /// `erasures` is neither null nor a list of whole numbers of at least 0, or `dynamic_weights` is neither null nor a
    /// list of pairs of whole numbers, the first of at least 0.
    NotChanges,
    /// An edge that is erased or gets a weight isn't below the number of edges.
    ShotEdgeOutOfRange,
    /// The weight that an edge gets is odd.
    OddShotWeight,
    /// The weight that an edge gets is above 1,073,741,824.
    ShotWeightTooLarge,
    /// The weight that an edge gets is below -1,073,741,824.
    ShotWeightTooSmall,
}

impl Kind {
    /// The name that is printed.
    pub fn name(self) -> &'static str
        ensures { result.now ≡ kind_name self }
    {
        match self {
            Kind::LineTooLong => "LineTooLong",
            Kind::NotJson => "NotJson",
            Kind::NoDefects => "NoDefects",
            Kind::DefectOutOfRange => "DefectOutOfRange",
            Kind::DefectOnVirtual => "DefectOnVirtual",
            Kind::DefectRepeated => "DefectRepeated",
            Kind::NotChanges => "NotChanges",
            Kind::ShotEdgeOutOfRange => "ShotEdgeOutOfRange",
            Kind::OddShotWeight => "OddShotWeight",
            Kind::ShotWeightTooLarge => "ShotWeightTooLarge",
            Kind::ShotWeightTooSmall => "ShotWeightTooSmall",
        }
    }
}
