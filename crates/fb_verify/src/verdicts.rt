ghost use Rattle.std.specs.Prelude.{◌≡◌};
ghost use Rattle.fb_verify.specs.VerdictTexts.{is_bad, numbers_in, verdict_name, verdict_numbers};

/// What a check finds of a row: good, or the first rule that it breaks. Edges, vertices and cuts are named by their
/// numbers, which count from 0.
#[derive(Clone, Copy)]
pub enum Verdict {
    /// The row is right.
    Good,
    /// The first listed edge that the graph doesn't have.
    EdgeOutOfRange(u32),
    /// The first listed edge that isn't above the one before it.
    EdgesNotRising(u32),
    /// The least real vertex at which the parity of the edges isn't the shot's.
    WrongParity(u32),
    /// The row's weight, and the sum of what its edges weigh for the shot.
    WeightNotSum(i128, i128),
    /// The row's base, and the sum of what all edges weigh for the shot that weigh less than 0.
    BaseDiffers(i128, i128),
    /// A cut without vertices.
    CutEmpty(u64),
    /// A cut's first vertex that the graph doesn't have.
    VertexOutOfRange(u32),
    /// A cut whose vertices don't strictly rise, or that isn't above the cut before it.
    CutsNotRising(u64),
    /// A cut's first virtual vertex.
    CutHoldsVirtual(u32),
    /// A cut with an even number of shifted defects.
    CutEven(u64),
    /// The least edge that the cuts load above what it weighs for the shot without its sign.
    Overloaded(u32),
    /// The row's weight, and the sum of its base and of the cuts' values.
    SumDiffers(i128, i128),
    /// The vertex of an odd row that isn't the least of the first odd component.
    OddWrong(u32),
}

/// The numbers that are printed with a verdict.
#[derive(Clone, Copy)]
pub enum Numbers {
    Nothing,
    One(u64),
    Two(i128, i128),
}

impl Verdict {
    /// Whether the row breaks a rule.
    pub fn is_bad(self) -> bool
        ensures { result ≡ is_bad self }
    {
        !matches!(self, Verdict::Good)
    }

    /// The name that is printed: `good`, or `bad` and the rule.
    pub fn name(self) -> &'static str
        ensures { result.now ≡ verdict_name self }
    {
        match self {
            Verdict::Good => "good",
            Verdict::EdgeOutOfRange(_) => "bad EdgeOutOfRange",
            Verdict::EdgesNotRising(_) => "bad EdgesNotRising",
            Verdict::WrongParity(_) => "bad WrongParity",
            Verdict::WeightNotSum(_, _) => "bad WeightNotSum",
            Verdict::BaseDiffers(_, _) => "bad BaseDiffers",
            Verdict::CutEmpty(_) => "bad CutEmpty",
            Verdict::VertexOutOfRange(_) => "bad VertexOutOfRange",
            Verdict::CutsNotRising(_) => "bad CutsNotRising",
            Verdict::CutHoldsVirtual(_) => "bad CutHoldsVirtual",
            Verdict::CutEven(_) => "bad CutEven",
            Verdict::Overloaded(_) => "bad Overloaded",
            Verdict::SumDiffers(_, _) => "bad SumDiffers",
            Verdict::OddWrong(_) => "bad OddWrong",
        }
    }

    /// The numbers that are printed after its name.
    pub fn numbers(self) -> Numbers
        ensures { numbers_in result ≡ verdict_numbers self }
    {
        match self {
            Verdict::Good => Numbers::Nothing,
            Verdict::EdgeOutOfRange(e) => Numbers::One(u64::from(e)),
            Verdict::EdgesNotRising(e) => Numbers::One(u64::from(e)),
            Verdict::WrongParity(v) => Numbers::One(u64::from(v)),
            Verdict::WeightNotSum(weight, sum) => Numbers::Two(weight, sum),
            Verdict::BaseDiffers(base, sum) => Numbers::Two(base, sum),
            Verdict::CutEmpty(j) => Numbers::One(j),
            Verdict::VertexOutOfRange(v) => Numbers::One(u64::from(v)),
            Verdict::CutsNotRising(j) => Numbers::One(j),
            Verdict::CutHoldsVirtual(v) => Numbers::One(u64::from(v)),
            Verdict::CutEven(j) => Numbers::One(j),
            Verdict::Overloaded(e) => Numbers::One(u64::from(e)),
            Verdict::SumDiffers(weight, sum) => Numbers::Two(weight, sum),
            Verdict::OddWrong(v) => Numbers::One(u64::from(v)),
        }
    }
}
