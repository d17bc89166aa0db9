// The pulled card for C: put, clear and repair in stages of one block store, and the reader of a card that was pulled between them (document 02, 6/13).
ghost use Rattle.units.specs.Meanings.{card_means};
ghost use Rattle.std.specs.Prelude.{◌≡◌, ◌/◌, length};
ghost use Rattle.units.specs.Answer.{Ends};
ghost use Rattle.rows.specs.RowBytes.{bytes_outcome};
ghost use Rattle.reader.specs.Reader.{side_answer, reader_count, reader_next, reader_slot, reader_read};
ghost use Rattle.reader.specs.Meanings.{copy_means};
ghost use Rattle.staged.specs.Numbers.{start_put, start_clear, next_stage, start_repair, next_repair};
ghost use Rattle.staged.specs.Meanings.{zero_update};
ghost use Rattle.answers_c.specs.Crossing.{outcome_to_c, count_to_c, next_to_c, held_to_c};
ghost use Rattle.card_c.specs.CardExports.{copy_to_c, update_to_c, zero_repair, repair_to_c};

use crate::answers::CardAnswer;
use answers_c::{GptCount, GptNext, GptSlotRead};
use partition::Partition;
use reader::GoodCopy;
use staged::{Repair, Update};
use units::{Guid, Reason, Refusal, Slot};

// Which table the reader takes: the back one, or else the front one.
#[repr(C)]
#[derive(Clone, Copy, Debug, PartialEq, Eq)]
pub struct CardCopy {
    pub number: u32,
    pub back: bool,
}

// What a stage of a put or a clear answers, and the state for the next one; beside a refusal the state is zero.
#[repr(C)]
#[derive(Clone, Copy, Debug, PartialEq, Eq)]
pub struct CardUpdateStep {
    pub number: u32,
    pub slot: u32,
    pub place: u32,
    pub differs: u32,
    pub state: Update,
}

// The same of a repair.
#[repr(C)]
#[derive(Clone, Copy, Debug, PartialEq, Eq)]
pub struct CardRepairStep {
    pub number: u32,
    pub slot: u32,
    pub place: u32,
    pub differs: u32,
    pub state: Repair,
}

impl From<Result<GoodCopy, Refusal>> for CardCopy {
    ghost from_gives = { λ r a. a ≡ copy_to_c (copy_means r) };

    #[tactic(auto, unfolding(answers_c::specs::Crossing::crossed))]
    fn from(r: Result<GoodCopy, Refusal>) -> CardCopy {
        match r {
            Ok(GoodCopy::Front) => CardCopy {
                number: 0,
                back: false,
            },
            Ok(GoodCopy::Back) => CardCopy {
                number: 0,
                back: true,
            },
            Err(w) => CardCopy {
                number: w.number(),
                back: false,
            },
        }
    }
}

// The state beside a refusal of a put or a clear.
fn zero_update() -> Update
    ensures { result ≡ zero_update }
{
    Update {
        next: 0,
        slot: Slot(0),
        b: 0,
        len: 0,
        entry: [0; 128],
        guid: Guid::nil(),
        parts: 0,
    }
}

impl From<Result<Update, Reason>> for CardUpdateStep {
    ghost from_gives = { λ r a. a ≡ update_to_c (card_means r) };

    #[tactic(auto, unfolding(crate::specs::CardExports::crossed_at))]
    fn from(r: Result<Update, Reason>) -> CardUpdateStep {
        match r {
            Ok(state) => CardUpdateStep {
                number: 0,
                slot: 0,
                place: 0,
                differs: 0,
                state,
            },
            Err(w) => {
                let k = CardAnswer::from(w);
                CardUpdateStep {
                    number: k.number,
                    slot: k.slot,
                    place: k.place,
                    differs: k.differs,
                    state: zero_update(),
                }
            }
        }
    }
}

// The state beside a refusal of a repair.
fn zero_repair() -> Repair
    ensures { result ≡ zero_repair }
{
    Repair {
        next: 0,
        back: false,
        b: 0,
        len: 0,
        guid: Guid::nil(),
        parts: 0,
    }
}

impl From<Result<Repair, Reason>> for CardRepairStep {
    ghost from_gives = { λ r a. a ≡ repair_to_c (card_means r) };

    #[tactic(auto, unfolding(crate::specs::CardExports::crossed_at))]
    fn from(r: Result<Repair, Reason>) -> CardRepairStep {
        match r {
            Ok(state) => CardRepairStep {
                number: 0,
                slot: 0,
                place: 0,
                differs: 0,
                state,
            },
            Err(w) => {
                let k = CardAnswer::from(w);
                CardRepairStep {
                    number: k.number,
                    slot: k.slot,
                    place: k.place,
                    differs: k.differs,
                    state: zero_repair(),
                }
            }
        }
    }
}

// Which table the reader takes: 1, 8, 10, 27.
#[unsafe(no_mangle)]
pub extern "C" fn card_reader_copy(img: &[u8], b: u64) -> CardCopy
    ensures { result ≡ copy_to_c (side_answer b img.now) }
{
    reader::good_copy(img, b).into()
}

// How many slots of that table are used: 1, 8, 10, 27.
#[unsafe(no_mangle)]
pub extern "C" fn card_reader_count(img: &[u8], b: u64) -> GptCount
    ensures { result ≡ count_to_c (reader_count b img.now) }
{
    reader::count_used(img, b).into()
}

// The first used slot of that table after a slot, where slot 0 stands before the first: 1, 8, 10, 27.
#[unsafe(no_mangle)]
pub extern "C" fn card_reader_next(img: &[u8], b: u64, after: u32) -> GptNext
    ensures { result ≡ next_to_c (reader_next b img.now after) }
{
    reader::next_used(img, b, Slot(after)).into()
}

// What a slot of that table holds: 1, 8, 10, 27, 18.
#[unsafe(no_mangle)]
pub extern "C" fn card_reader_slot(img: &[u8], b: u64, slot: u32) -> GptSlotRead
    ensures { result ≡ held_to_c (reader_slot b img.now slot) }
{
    reader::read_slot(img, b, Slot(slot)).into()
}

// That table's listing into lent bytes, 136 bytes an entry, and how many there are: 1, 8, 10, 27, 15 where there are fewer bytes.
#[unsafe(no_mangle)]
pub extern "C" fn card_reader_list(img: &[u8], b: u64, out: &mut [u8]) -> GptCount
    ensures { Ends (outcome_to_c count_to_c (bytes_outcome (reader_read b img.now (length out.old / 136)) out.old)) result out.new }
{
    let p = reader::inner::plan_of(img, b);
    let q = rows::inner::fill_bytes(img, p, out);
    q.answer().into()
}

// Stage one of a put: put's numbers and places.
#[unsafe(no_mangle)]
pub extern "C" fn card_start_put(
    img: &mut [u8],
    b: u64,
    slot: u32,
    partition: Partition,
) -> CardUpdateStep
    ensures { Ends (outcome_to_c update_to_c (start_put b img.old slot partition)) result img.new }
{
    staged::start_put(img, b, Slot(slot), partition).into()
}

// Stage one of a clear: clear's numbers and places.
#[unsafe(no_mangle)]
pub extern "C" fn card_start_clear(img: &mut [u8], b: u64, slot: u32) -> CardUpdateStep
    ensures { Ends (outcome_to_c update_to_c (start_clear b img.old slot)) result img.new }
{
    staged::start_clear(img, b, Slot(slot)).into()
}

// A later stage of a put or a clear: 1, 26.
#[unsafe(no_mangle)]
pub extern "C" fn card_next_stage(
    img: &mut [u8],
    b: u64,
    stage: u32,
    state: Update,
) -> CardUpdateStep
    ensures { Ends (outcome_to_c update_to_c (next_stage b img.old stage state)) result img.new }
{
    staged::next_stage(img, b, stage, state).into()
}

// Stage one of a repair: 1, 8, 10, 27.
#[unsafe(no_mangle)]
pub extern "C" fn card_start_repair(img: &mut [u8], b: u64) -> CardRepairStep
    ensures { Ends (outcome_to_c repair_to_c (start_repair b img.old)) result img.new }
{
    staged::start_repair(img, b).into()
}

// A later stage of a repair: 1, 26.
#[unsafe(no_mangle)]
pub extern "C" fn card_next_repair(
    img: &mut [u8],
    b: u64,
    stage: u32,
    state: Repair,
) -> CardRepairStep
    ensures { Ends (outcome_to_c repair_to_c (next_repair b img.old stage state)) result img.new }
{
    staged::next_repair(img, b, stage, state).into()
}
