// A record of a sheet, told as places, and the questions that are put to it.
ghost use Rattle.std.specs.Prelude.{◌≡◌, ℕ, ◌+◌, ◌-◌, ◌*◌, ◌/◌, ◌%◌, ◌^◌, ◌<◌, ◌≤◌, length, drop, Some, Ok, Decides, MatchOption, MatchResult, slice_index};
ghost use Rattle.sheet.specs.Answers.{First};
ghost use Rattle.sheet.specs.Layout.{InOrder, announced, field, laid};
ghost use Rattle.sheet.specs.Places.{HandedOut, InTurn, SoundAhead, amount_at, cost_place, earning_place, kind_of, needs_at};
ghost use Rattle.sheet.specs.Sound.{InRange, Ordered};

use super::bytes::{whole_amount_at, whole_need_at};
use super::refusal::Fault;

// How many entries a sheet may have, and the largest amount of an entry. The book has the same two, and does not stand on this crate.
const MOST_ENTRIES: usize = 4_096;

const MOST_AMOUNT: u32 = 1_000_000;

// Which amounts a record has, and where in the sheet each stands.
// It is an enum, and not two options, since the project's rules have a record's kind and places handed out.
#[derive(Clone, Copy, PartialEq, Eq, Debug)]
pub enum Kind {
    Bare,
    Earns { earning: usize },
    Costs { cost: usize },
    Both { earning: usize, cost: usize },
}

impl Kind {
    #[inline(always)]
    fn of(earning: Option<usize>, cost: Option<usize>) -> Kind
        ensures { result ≡ kind_of earning cost }
    {
        match (earning, cost) {
            (None, None) => Kind::Bare,
            (Some(earning), None) => Kind::Earns { earning },
            (None, Some(cost)) => Kind::Costs { cost },
            (Some(earning), Some(cost)) => Kind::Both { earning, cost },
        }
    }

    // The place of the earning, where there is one. It and the cost's go by their own names, and each reads its own variants. They are
    // told apart one by one, since a match on all four is a jump that no processor foresees.
    #[inline(always)]
    pub(crate) fn earning(self) -> Option<usize>
        ensures { result ≡ earning_place self }
    {
        let alone = match self {
            Kind::Earns { earning } => Some(earning),
            _ => None,
        };
        let beside = match self {
            Kind::Both { earning, .. } => Some(earning),
            _ => None,
        };
        alone.or(beside)
    }

    // The place of the cost, where there is one.
    #[inline(always)]
    pub(crate) fn cost(self) -> Option<usize>
        ensures { result ≡ cost_place self }
    {
        let alone = match self {
            Kind::Costs { cost } => Some(cost),
            _ => None,
        };
        let beside = match self {
            Kind::Both { cost, .. } => Some(cost),
            _ => None,
        };
        alone.or(beside)
    }
}

// A record told as its kind and places in its sheet: the project's rules have a reader hand out places and copy nothing.
#[derive(Clone, Copy, PartialEq, Eq, Debug)]
pub struct Record {
    // the number of its entry
    pub number: usize,
    // the place of its bit map
    pub byte: usize,
    pub kind: Kind,
    // the place of its first need, and how many there are
    pub needs: usize,
    pub count: u8,
    // the place after its last byte
    pub end: usize,
}

// How many needs each pattern of the four need bits announces, or none where it leaves a gap from the lowest up. A `const` would be laid
// onto the stack for each record.
static NEED_COUNTS: [Option<u8>; 16] = [
    Some(0),
    Some(1),
    None,
    Some(2),
    None,
    None,
    None,
    Some(3),
    None,
    None,
    None,
    None,
    None,
    None,
    None,
    Some(4),
];

// How many needs a bit map announces, or none where its need bits leave a gap from bit 2 up. A table, since a match is a jump that no
// processor foresees.
#[inline(always)]
fn need_count(map: u8) -> Option<u8>
    ensures { MatchOption result (((k : ℕ) × (map / 4 % 16 ≡ 2 ^ k - 1)) → ⊥) (λ k. (k ≤ 4) × (map / 4 % 16 ≡ 2 ^ k - 1)) }
{
    NEED_COUNTS[usize::from((map >> 2) & 15)]
}

#[inline(always)]
fn present(bit: u8, place: usize) -> Option<usize>
    ensures { result ≡ field bit place }
{
    (bit != 0).then_some(place)
}

// The place of the earning of a record that begins at `byte` with the bit map `map`, where it has one.
#[inline(always)]
fn earning_of(byte: usize, map: u8) -> Option<usize>
    requires { byte < 2 ^ 63 }
    ensures { result ≡ field (map % 2) (byte + 1) }
{
    present(map & 1, byte + 1)
}

// The place of its cost, where it has one.
#[inline(always)]
fn cost_of(byte: usize, map: u8) -> Option<usize>
    requires { byte < 2 ^ 63 }
    ensures { result ≡ field (map / 2 % 2) (byte + 1 + 4 * (map % 2)) }
{
    present((map >> 1) & 1, byte + 1 + 4 * usize::from(map & 1))
}

// Where the fields stand of a record that begins at `byte` with the bit map `map`.
#[inline(always)]
fn layout(number: usize, byte: usize, map: u8, count: u8) -> Record
    requires { byte < 2 ^ 63 }
    ensures { result ≡ laid number byte map count }
{
    let needs = byte + 1 + 4 * usize::from(map & 1) + 4 * usize::from((map >> 1) & 1);
    Record {
        number,
        byte,
        kind: Kind::of(earning_of(byte, map), cost_of(byte, map)),
        needs,
        count,
        end: needs + 2 * usize::from(count),
    }
}

// Whether the amount at a place, if there is one, is between 1 and the largest. Which records have one is not foreseen, so some amount is
// read in any case.
#[inline(always)]
fn amount_in_range(sheet: &[u8], place: Option<usize>) -> bool
    requires { (at : ℕ) → place ≡ Some at → at + 4 ≤ length sheet.now }
    ensures { Decides result (InRange (amount_at sheet.now place)) }
{
    // a record of so short a sheet has no amount
    if sheet.len() < 4 {
        return true;
    }
    let amount = whole_amount_at(sheet, place.unwrap_or(0));
    let asked = if place.is_some() { amount } else { 1 };
    (1..=MOST_AMOUNT).contains(&asked)
}

// Whether the amounts of a record that begins at `byte` with the bit map `map`, which the sheet has, are in their range.
#[inline(always)]
fn amounts_in_range(sheet: &[u8], byte: usize, map: u8) -> bool
    requires { byte + 1 + 4 * (map % 2) + 4 * (map / 2 % 2) ≤ length sheet.now }
    ensures { Decides result (InRange (amount_at sheet.now (field (map % 2) (byte + 1))) × InRange (amount_at sheet.now (field (map / 2 % 2) (byte + 1 + 4 * (map % 2))))) }
{
    let earning = amount_in_range(sheet, earning_of(byte, map));
    let cost = amount_in_range(sheet, cost_of(byte, map));
    earning && cost
}

// Whether need number `j` of a record, where it has so many, is above the one before it and is not the record's own number.
#[inline(always)]
fn need_in_order(sheet: &[u8], found: &Record, j: u8) -> bool
    requires { found.now.needs + 2 * j + 2 ≤ length sheet.now }
    ensures { Decides result (j < found.now.count → InOrder sheet.now found.now.needs found.now.number j) }
{
    let need = whole_need_at(sheet, found.needs, j);
    let before = whole_need_at(sheet, found.needs, j.saturating_sub(1));
    let is_above = (j == 0) | (before < need);
    (j >= found.count) | (is_above & (usize::from(need) != found.number))
}

// Whether the needs of a record, which the sheet has, ascend, and none is its own number. Where there are bytes for four needs, the
// questions are put for four in any case, since how many a record has is not foreseen.
#[inline(always)]
fn needs_ordered(sheet: &[u8], found: &Record) -> bool
    requires whole { found.now.needs + 2 * found.now.count ≤ length sheet.now }
    requires few { found.now.count ≤ 4 }
    ensures { Decides result (Ordered found.now.number (needs_at sheet.now found.now.needs found.now.count)) }
{
    if sheet.len() - found.needs >= 8 {
        return need_in_order(sheet, found, 0)
            & need_in_order(sheet, found, 1)
            & need_in_order(sheet, found, 2)
            & need_in_order(sheet, found, 3);
    }
    for j in 0..found.count {
        if !need_in_order(sheet, found, j) {
            return false;
        }
    }
    true
}

// The record that begins at `at` and has the number `number`, or the first fault that a question finds.
// No method of the reader: that was tried, and a proof there does not know that what its slice holds are bytes.
#[inline(always)]
pub(crate) fn record_at(sheet: &[u8], number: usize, at: usize) -> Result<Record, Fault>
    requires { at < length sheet.now }
    ensures { MatchResult result (λ found. HandedOut sheet.now (record { at = at; number = number }) (record { at = found.end; number = number + 1 }) found × InTurn sheet.now (record { at = at; number = number }) (Ok (Some found))) (λ fault. First fault number (drop at sheet.now)) }
{
    if number >= MOST_ENTRIES {
        return Err(Fault::TooMany);
    }
    let map = sheet[at];
    if map >= 64 {
        return Err(Fault::HighBits);
    }
    let count = need_count(map).ok_or(Fault::NeedGap)?;
    let found = layout(number, at, map, count);
    if found.end > sheet.len() {
        return Err(Fault::CutShort);
    }
    if !amounts_in_range(sheet, at, map) {
        return Err(Fault::AmountRange);
    }
    if !needs_ordered(sheet, &found) {
        return Err(Fault::NeedOrder);
    }
    Ok(found)
}

// The record that begins at `at` and has the number `number`, where it is known to be sound, so that no question is put to it.
#[inline(always)]
pub(crate) fn sound_record_at(sheet: &[u8], number: usize, at: usize) -> Record
    requires { at < length sheet.now }
    ensures laid { result ≡ laid number at (slice_index sheet.now at) (announced (slice_index sheet.now at)) }
    ensures sound { SoundAhead sheet.now (record { at = at; number = number }) → HandedOut sheet.now (record { at = at; number = number }) (record { at = result.end; number = number + 1 }) result }
{
    let map = sheet[at];
    layout(number, at, map, need_count(map).unwrap_or(0))
}
