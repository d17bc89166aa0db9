// The free ground for C.
ghost use Rattle.std.specs.Prelude.{◌≡◌};
ghost use Rattle.ground.specs.Answers.{RowsEnd, ground_outcome};
ghost use Rattle.card_c.specs.CardExports.{rows_to_c, card_count_to_c};

use crate::answers::CardCount;

// The free runs into two lent rows of numbers, and how many there are: 15 after the check, where either row is shorter.
#[unsafe(no_mangle)]
pub extern "C" fn card_free_runs(
    img: &[u8],
    b: u64,
    starts: &mut [u64],
    lengths: &mut [u64],
) -> CardCount
    ensures { RowsEnd (rows_to_c card_count_to_c (ground_outcome b img.now starts.old lengths.old)) result starts.new lengths.new }
{
    ground::free_runs(img, b, starts, lengths).into()
}
