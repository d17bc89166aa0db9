// Leaves for our own crates: each `requires` is what its caller has tested. No public calls.
// A reading is first planned by value, which makes every test but that of the row's length.
// Then `fill` fills the row, or `fill_bytes` lent bytes, 136 a row, for callers to whom a row of records cannot be lent.
ghost use Rattle.units.specs.Meanings.{means};
ghost use Rattle.std.specs.Prelude.{◌≡◌, true, ◌+◌, ◌*◌, ◌-◌, ◌/◌, ◌^◌, ◌≤◌, ◌<◌, length, get_or};
ghost use Rattle.std.specs.Fn.{FnOnceReturnsAt};
ghost use Rattle.std.proofs.lemmas.List.Edits.{sets};
ghost use Rattle.units.specs.Answer.{accepted, Ends};
ghost use Rattle.units.specs.Places.{inside_or_empty};
ghost use Rattle.partition.specs.Flags.{Joins};
ghost use Rattle.partition.specs.Meanings.{slots_of};
ghost use Rattle.rows.specs.Slots.{place_each};
ghost use Rattle.rows.specs.Row.{present_entries, typed_entries, row_outcome, RowEnds};
ghost use Rattle.rows.specs.RowBytes.{row_bytes, bytes_outcome};
ghost use Rattle.rows.specs.Plans.{Lies, InArray, Made, entry_by, slot_after, planned, no_plan, nowhere, plan_within, roomed, plan_count, plainly, entries_found};

use crate::{Entry, by_type};
use header::Header;
use units::inner::Field;
use units::{BytePlace, Place, Reason, Refusal, Slot};

// Where an array stands, how many entries it has and of how many bytes, whether those count whose type is not nil, or whose 128 bytes are not all zero, how many these are, and
// whether the reading accepts. A refusal has no entries, and the place that it names.
#[derive(Clone, Copy)]
pub struct Plan {
    pub place: BytePlace,
    pub entries: u32,
    pub each: u32,
    pub by_type: bool,
    pub present: u32,
    pub verdict: Result<(), Reason>,
}

impl Plan {
    // The plan of a refusal.
    pub fn refused(w: Reason) -> Plan
        ensures { result ≡ no_plan w }
    {
        Plan {
            place: BytePlace(0),
            entries: 0,
            each: 128,
            by_type: false,
            present: 0,
            verdict: Err(w),
        }
    }

    // The same of a refusal that names no place.
    pub fn refused_plainly(w: Refusal) -> Plan
        ensures { result ≡ no_plan (nowhere w) }
    {
        Plan::refused(Reason {
            what: w,
            place: Place::Nowhere,
        })
    }

    // The plan that lists an array which lies inside the image.
    pub fn listing(img: &[u8], place: BytePlace, entries: u32) -> Plan
        requires { inside_or_empty (length img.now) place.0 (entries * 128) ≡ true }
        ensures { Made img.now result × (planned img.now result ≡ accepted (present_entries img.now place.0 entries)) }
    {
        let at = place.0;
        let present = partition::inner::count_present(img, at, entries);
        Plan {
            place,
            entries,
            each: 128,
            by_type: false,
            present,
            verdict: Ok(()),
        }
    }

    // The plan that lists, by their types, the entries of `each` bytes of an array which lies inside the image.
    pub fn listing_by_type(img: &[u8], place: BytePlace, entries: u32, each: u32) -> Plan
        requires { (128 ≤ each) × (inside_or_empty (length img.now) place.0 (entries * each) ≡ true) }
        ensures { Made img.now result × (planned img.now result ≡ accepted (typed_entries img.now each place.0 entries)) }
    {
        let present = by_type::count_used(img, place, each, entries);
        Plan {
            place,
            entries,
            each,
            by_type: true,
            present,
            verdict: Ok(()),
        }
    }

    // The plan for a row of so many places: 15.
    pub fn within(self, room: usize) -> Plan
        ensures { result ≡ plan_within room self }
    {
        if room < self.present as usize {
            return Plan::refused_plainly(Refusal::NoRoom);
        }
        self
    }

    // How many places of a row are filled.
    pub fn places(self) -> usize
        ensures { result ≡ self.present }
    {
        self.present as usize
    }

    // The count, or the refusal without a place, for the calls that name none.
    pub fn answer(self) -> Result<u32, Refusal>
        ensures { means result ≡ plainly (plan_count self) }
    {
        let verdict = self.verdict;
        match verdict {
            Ok(()) => Ok(self.present),
            Err(w) => {
                let what = w.what;
                Err(what)
            }
        }
    }

    // Where the entry in a slot of the array stands: slots count from 1, array places from 0.
    pub fn entry_place(self, s: Slot) -> BytePlace
        requires { InArray self s × (self.place.0 + (s.0 - 1) * self.each < 2 ^ 64) }
        ensures { result.0 ≡ place_each self.each self.place.0 (s.0 - 1) }
    {
        let k = units::inner::array_place(s);
        by_type::entry_place(self.place, self.each, k)
    }
}

// The slot, or slot 0, which stands before the first.
fn or_before_first(slot: Option<Slot>) -> Slot
    ensures { result.0 ≡ get_or (slots_of slot) 0 0 }
{
    match slot {
        Some(s) => s,
        None => Slot(0),
    }
}

// The first slot after a slot that counts, where slot 0 stands before the first; 0 where there is none.
pub fn next_slot(img: &[u8], p: Plan, after: Slot) -> Slot
    requires { Lies img.now p }
    ensures { result ≡ slot_after img.now p after }
{
    if p.by_type {
        return or_before_first(by_type::next_used(img, p.place, p.each, p.entries, after));
    }
    or_before_first(partition::inner::next_present(img, p.place.0, p.entries, after))
}

// The entry in a slot of the array, by value.
pub fn entry_in(img: &[u8], p: Plan, s: Slot) -> Entry
    requires { Lies img.now p × InArray p s }
    ensures { result ≡ entry_by img.now p s }
{
    let place = p.entry_place(s);
    let partition = partition::inner::entry_at(img, place.0);
    Entry { slot: s, partition }
}

// The present entries of the array that a header names: 1, 3, 7, 2, 6.
pub fn plan_for(img: &[u8], h: Header, b: u64) -> Plan
    ensures { Made img.now result × (planned img.now result ≡ entries_found img.now h b) }
{
    match partition::inner::find_array(img, h, b) {
        Err(w) => Plan::refused_plainly(w),
        Ok(at) => Plan::listing(img, at, h.num_parts),
    }
}

// Carries a plan out: the planned entries into the first places of the row, or 15 if it is too short; a refusal changes no place. It gives the plan that was carried out.
pub fn fill(img: &[u8], p: Plan, row: &mut [Entry]) -> Plan
    requires { Made img.now p }
    ensures { RowEnds (row_outcome (roomed (length row.old) (planned img.now p)) row.old) (plan_count result) row.new }
{
    let q = p.within(row.len());
    let count = q.places();
    let mut at = Slot(0);
    for entry in &mut row[..count] {
        at = next_slot(img, q, at);
        *entry = entry_in(img, q, at);
    }
    q
}

// Every call that makes a plan, passes the row on to `fill` and answers from the plan that was carried out.
pub fn meets<A, P: FnOnce(&[u8]) -> Plan, Q: FnOnce(Plan) -> A>(
    img: &[u8],
    row: &mut [Entry],
    plan: P,
    answer: Q,
) -> A
    requires plan { P.IsAlwaysCallable plan }
    requires answer { Q.IsAlwaysCallable answer }
    requires made { (p : Plan) → FnOnceReturnsAt P.FnOnce plan img.now p → Made img.now p }
    ensures { (p : Plan) × (q : Plan) × FnOnceReturnsAt P.FnOnce plan img.now p
        × RowEnds (row_outcome (roomed (length row.old) (planned img.now p)) row.old) (plan_count q) row.new
        × Q.post answer q result }
{
    let p = plan(img);
    let q = fill(img, p, row);
    answer(q)
}

// One row in bytes, stored at a place: the slot in 8, least first, and then the record's 128.
fn put_row(out: &mut [u8], at: BytePlace, e: Entry)
    requires { Joins e.partition.flags × (at.0 + 136 ≤ length out.old) }
    ensures { out.new ≡ sets out.old at.0 (row_bytes e) }
{
    let a = at.0;
    let slot = e.slot;
    let record = e.partition;
    u64::from(slot.0).put(out, a);
    partition::inner::put_entry(out, a + 8, record);
}

// Carries a plan out: the planned entries from the first lent byte on, or 15 if there are fewer whole rows; a refusal changes no byte. It gives the plan that was carried out.
pub fn fill_bytes(img: &[u8], p: Plan, out: &mut [u8]) -> Plan
    requires { Made img.now p }
    ensures { Ends (bytes_outcome (roomed (length out.old / 136) (planned img.now p)) out.old) (plan_count result) out.new }
{
    let q = p.within(out.len() / 136);
    let count = q.places();
    let mut at = Slot(0);
    // By number: of bytes that `chunks_exact_mut` has lent, a proof knows the length alone.
    for i in 0..count {
        at = next_slot(img, q, at);
        let e = entry_in(img, q, at);
        put_row(out, BytePlace(136 * i), e);
    }
    q
}
