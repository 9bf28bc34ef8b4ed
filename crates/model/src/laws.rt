//! What is proved of the model itself. The functions compute nothing.
// Functions all the same: only what stands in a function's contract is proved.

ghost use Rattle.model.specs.Charts.{WorkedCharts};
ghost use Rattle.model.specs.ListingLaws.{DefaultRows, FewRows, NearRows, SignedRows};
ghost use Rattle.model.specs.RunLaws.{CirclesInRuns, RunsStaySound};

/// The worked charts come out of the rules.
pub fn worked_charts() -> u8
    ensures { WorkedCharts }
{
    0
}

/// Whatever calls are made, what stands is sound: known accounts, no circle, no chain longer than 7, no count above 99,999,
/// grants in range and no two for the same.
pub fn runs_stay_sound() -> u8
    ensures { RunsStaySound }
{
    0
}

/// Wherever calls have led, a join is refused as a circle exactly if both accounts are known and a chain leads from the member
/// down to the group.
#[tactic(auto, using(crate::proofs::Circles::circles_in_runs))]
pub fn circles_in_runs() -> u8
    ensures { CirclesInRuns }
{
    0
}

/// The arrivals of a sign at a distance are a sum of products of account chains and item chains, over the standing grants.
#[tactic(auto, using(crate::proofs::Counting::counted_signed))]
pub fn signed_rows() -> u8
    ensures { SignedRows }
{
    0
}

/// The default marks at a distance are a sum of chain counts, over the accounts that they start from.
#[tactic(auto, using(crate::proofs::Counting::counted_default))]
pub fn default_rows() -> u8
    ensures { DefaultRows }
{
    0
}

/// No mark comes over a distance of more than 14.
#[tactic(auto, using(crate::proofs::Bounds::listed_near))]
pub fn near_rows() -> u8
    ensures { NearRows }
{
    0
}

/// No more than 104,498,155,008 marks reach a question, whatever calls have led there.
#[tactic(auto, using(crate::proofs::Bounds::listed_few))]
pub fn few_rows() -> u8
    ensures { FewRows }
{
    0
}
