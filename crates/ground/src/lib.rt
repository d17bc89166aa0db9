// The free ground of a card: the maximal runs of usable blocks that no used slot covers, as starts and lengths in two rows that the caller lends.
// Document 02, 1/13. Which blocks are free and what a run is, is in specs/Ground; what holds of the runs, in specs/Facts.
#![tactic(auto)]

pub mod inner; // inner.rt: the same of a front table by its own bytes, for callers that have checked the card

ghost use Rattle.units.specs.Meanings.{card_means};
ghost use Rattle.ground.specs.Answers.{RowsEnd, ground_outcome};

use units::Reason;

// All runs, ascending, into the first places of the two rows; the places after the count stay: the card check's numbers, then 15 if either row is shorter than the count.
// A card has at most 129 runs.
pub fn free_runs(img: &[u8], b: u64, starts: &mut [u64], lengths: &mut [u64]) -> Result<u32, Reason>
    ensures { RowsEnd (ground_outcome b img.now starts.old lengths.old) (card_means result) starts.new lengths.new }
{
    let found = checking::inner::check_with(img, b);
    if found.number != 0 {
        return inner::answer(found, 0);
    }
    let size = b as usize;
    inner::runs_into(
        &img[size..size + (size + 16384)],
        img.len(),
        b,
        starts,
        lengths,
    )
}
