// The leaves of the label calls: a label in its bytes, and one slot of a set beside the first. Every value goes in and out by itself, so that labels which stand in no image are judged by the
// same leaves. No public calls.
ghost use Rattle.units.specs.Meanings.{card_means};
ghost use Rattle.std.specs.Prelude.{◌≡◌, ◌/◌, ◌%◌, ◌≤◌, length};
ghost use Rattle.label.specs.Labels.{between, good_date, label_at, label_of, label_bytes, dated_of, same_dated};
ghost use Rattle.label.specs.Judging.{agreeing, step_answer};

use crate::{Dated, Label};
use units::inner::Field;
use units::{Place, Reason, Refusal};

// 34, 35, 36, 37, which name no place.
const BAD_MARK: Reason = Reason {
    what: Refusal::BadMark,
    place: Place::Nowhere,
};

const UNKNOWN_VERSION: Reason = Reason {
    what: Refusal::UnknownVersion,
    place: Place::Nowhere,
};

const BAD_DATE: Reason = Reason {
    what: Refusal::BadDate,
    place: Place::Nowhere,
};

const TWO_DATES: Reason = Reason {
    what: Refusal::TwoDates,
    place: Place::Nowhere,
};

fn between(low: u8, x: u8, high: u8) -> bool
    ensures { result ≡ between low x high }
{
    if x < low {
        return false;
    }
    x <= high
}

// Month 1 to 12, day 1 to 31 in any month.
pub fn good_date(month: u8, day: u8) -> bool
    ensures { result ≡ good_date month day }
{
    if !between(1, month, 12) {
        return false;
    }
    between(1, day, 31)
}

// The fields in the first 13 bytes.
fn label_at(bytes: &[u8]) -> Label
    requires { 13 ≤ length bytes.now }
    ensures { result ≡ label_at bytes.now }
{
    Label {
        year: u16::get(bytes, 5),
        month: bytes[7],
        day: bytes[8],
        style: u16::get(bytes, 9),
        sheet: u16::get(bytes, 11),
    }
}

// The label in the first 13 bytes: 34, 35, 36.
pub fn label_of(bytes: &[u8]) -> Result<Label, Reason>
    requires { 13 ≤ length bytes.now }
    ensures { card_means result ≡ label_of bytes.now }
{
    let mark = [0x46u8, 0x42, 0x4D];
    if !units::inner::same_at(bytes, 0, &mark) {
        return Err(BAD_MARK);
    }
    if u16::get(bytes, 3) != 1 {
        return Err(UNKNOWN_VERSION);
    }
    if !good_date(bytes[7], bytes[8]) {
        return Err(BAD_DATE);
    }
    Ok(label_at(bytes))
}

// The two bytes of a number of 16 bits.
fn low(x: u16) -> u8
    ensures { result ≡ x % 256 }
{
    (x % 256) as u8
}

fn high(x: u16) -> u8
    ensures { result ≡ x / 256 % 256 }
{
    (x / 256 % 256) as u8
}

// The 13 bytes of a label: mark, version 1, and its fields.
pub fn label_bytes(label: Label) -> [u8; 13]
    ensures { result ≡ label_bytes label }
{
    let year = label.year;
    let style = label.style;
    let sheet = label.sheet;
    [
        0x46,
        0x42,
        0x4D,
        1,
        0,
        low(year),
        high(year),
        label.month,
        label.day,
        low(style),
        high(style),
        low(sheet),
        high(sheet),
    ]
}

// What a set of maps has in common. The sheet is not compared.
fn dated(label: Label) -> Dated
    ensures { result ≡ dated_of label }
{
    Dated {
        year: label.year,
        month: label.month,
        day: label.day,
        style: label.style,
    }
}

#[tactic(auto, unfolding(crate::specs::Labels::same_dated))]
fn same_dated(a: Dated, b: Dated) -> bool
    ensures { result ≡ same_dated a b }
{
    a == b
}

// A slot's date beside the first slot's, once there was a slot: 37 another date or another style revision.
fn agree(agreed: Option<Dated>, next: Dated) -> Result<Dated, Reason>
    ensures { card_means result ≡ agreeing agreed next }
{
    match agreed {
        None => Ok(next),
        Some(first) => {
            if !same_dated(first, next) {
                return Err(TWO_DATES);
            }
            Ok(first)
        }
    }
}

// One slot of a set: what reading its label answered (18, 23, 34, 35, 36), and then 37 beside the first slot's date.
pub fn step(agreed: Option<Dated>, read: Result<Label, Reason>) -> Result<Dated, Reason>
    ensures { card_means result ≡ step_answer agreed (card_means read) }
{
    let label = read?;
    agree(agreed, dated(label))
}
