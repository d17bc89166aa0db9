// Leaves for our own crates: each `requires` is what its caller has tested. No public calls.
// `copy` is one table's own b + 16,384 bytes, as in `tables::inner`; `len` is the card's length in bytes.
ghost use Rattle.std.specs.Prelude.{◌≡◌, false, ◌+◌, ◌≤◌, length};
ghost use Rattle.units.specs.Answer.{plain};
ghost use Rattle.units.specs.Refusals.{refusal_of};
ghost use Rattle.partition.specs.Meanings.{found_of};
ghost use Rattle.rows.specs.Plans.{Made, planned};
ghost use Rattle.tables.specs.Lens.{side_of, copy_in, copies, tables};
ghost use Rattle.tables.specs.Check.{room_check, bad_slot};
ghost use Rattle.reader.specs.Reader.{passes, chosen_number, Chosen, takes_back, array_byte_place, held_in, reader_entries};

use partition::Partition;
use rows::inner::Plan;
use units::why::Why;
use units::{BytePlace, Place, Refusal, Slot};

// Neither table passes.
const NO_GOOD_COPY: u32 = 27;

// What the reader found: the number that refuses the card, or 0; and whether the front table does not pass, so that it takes the back one.
#[derive(Clone, Copy, Debug, PartialEq, Eq)]
pub struct Choice {
    pub number: u32,
    pub back: bool,
}

impl Choice {
    // The refusal by its name.
    pub fn refusal(self) -> Refusal
        ensures { result ≡ refusal_of (plain self.number) }
    {
        let n = self.number;
        let found = Why {
            number: n,
            slot: Slot(0),
            place: Place::Nowhere,
        };
        found.refusal()
    }
}

// Whether one table passes: its header, layout, array and entries.
pub fn copy_passes(copy: &[u8], len: usize, b: u64, back: bool) -> bool
    requires { ((room_check b len).number ≡ 0) × (length copy.now ≡ b + 16384) }
    ensures { result ≡ passes b len (side_of back) (copy_in b (side_of back) copy.now) }
{
    let sum = tables::inner::array_sum(copy, b, back);
    let found = checking::inner::copy_check(copy, len, b, back, sum);
    if found != 0 {
        return false;
    }
    checking::inner::entries_ok(copy, len, b, back)
}

// The table that the reader takes of two, on a card that has room for them: the front one if it passes, else the back one, else 27.
pub fn choose_copy(front: &[u8], back: &[u8], len: usize, b: u64) -> Choice
    requires { ((room_check b len).number ≡ 0) × (length front.now ≡ b + 16384) × (length back.now ≡ b + 16384) }
    ensures number_value { result.number ≡ chosen_number b len (copies b front.now back.now) }
    ensures back_value { result.back ≡ takes_back b len (copies b front.now back.now) }
{
    if copy_passes(front, len, b, false) {
        return Choice {
            number: 0,
            back: false,
        };
    }
    if copy_passes(back, len, b, true) {
        return Choice {
            number: 0,
            back: true,
        };
    }
    Choice {
        number: NO_GOOD_COPY,
        back: true,
    }
}

// The same of an image, after 1, 8, 10.
pub fn choose(img: &[u8], b: u64) -> Choice
    ensures { Chosen b img.now result }
{
    let len = img.len();
    let room = tables::inner::room_check(len, b);
    if room != 0 {
        return Choice {
            number: room,
            back: false,
        };
    }
    let size = b as usize;
    let at = tables::inner::back_place(len, b);
    let from = at.0;
    choose_copy(
        &img[size..size + (size + 16384)],
        &img[from..from + (size + 16384)],
        len,
        b,
    )
}

// Where a side's array starts in an image of len bytes.
pub fn array_byte_place(len: usize, b: u64, back: bool) -> BytePlace
    requires { (room_check b len).number ≡ 0 }
    ensures { (result.0 ≡ array_byte_place b len (side_of back)) × (result.0 + 16384 ≤ len) }
{
    units::inner::place(tables::inner::array_start(len, b, back), b)
}

// What a slot of an array holds: its record, if its entry is present.
pub fn slot_in(array: &[u8], slot: Slot) -> Option<Partition>
    requires { (length array.now ≡ 16384) × (bad_slot slot.0 ≡ false) }
    ensures { found_of result ≡ held_in array.now slot.0 }
{
    let k = units::inner::array_place(slot);
    let at = partition::inner::entry_place(BytePlace(0), k as usize);
    partition::inner::entry_if_present(array, at.0)
}

// The plan of the reader's list: every test but that of the row's length. 1, 8, 10, 27.
pub fn plan_of(img: &[u8], b: u64) -> Plan
    ensures { Made img.now result × (planned img.now result ≡ reader_entries b img.now) }
{
    let found = choose(img, b);
    if found.number != 0 {
        return Plan::refused_plainly(found.refusal());
    }
    Plan::listing(img, array_byte_place(img.len(), b, found.back), 128)
}
