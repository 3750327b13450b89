// Numbers read from the bytes of a sheet, high byte first.
ghost use Rattle.std.specs.Prelude.{◌≡◌, ◌+◌, ◌*◌, ◌≤◌, length, slice_index};
ghost use Rattle.sheet.specs.Places.{number_at};

use std::array;

// The byte `k` past `at`, and 0 past the sheet's end. A struct of a sheet and a place would be made anew at each call.
#[inline(always)]
fn byte_at(sheet: &[u8], at: usize, k: usize) -> u8
    ensures { result ≡ slice_index sheet.now (at + k) }
{
    sheet.get(at.saturating_add(k)).copied().unwrap_or(0)
}

// The amount whose four bytes, which the sheet has, begin at `at`.
#[inline(always)]
#[tactic(auto, unfolding(crate::specs::Places::number_at))]
pub(crate) fn whole_amount_at(sheet: &[u8], at: usize) -> u32
    requires { at + 4 ≤ length sheet.now }
    ensures { result ≡ number_at sheet.now at 4 }
{
    u32::from_be_bytes([sheet[at], sheet[at + 1], sheet[at + 2], sheet[at + 3]])
}

// The amount whose four bytes begin at `at`. One question tells whether the sheet has them all, and hardly any has not.
#[inline(always)]
#[tactic(auto, unfolding(crate::specs::Places::number_at))]
pub(crate) fn amount_at(sheet: &[u8], at: usize) -> u32
    ensures { result ≡ number_at sheet.now at 4 }
{
    if sheet.len().saturating_sub(at) >= 4 {
        return whole_amount_at(sheet, at);
    }
    u32::from_be_bytes(array::from_fn(|k| byte_at(sheet, at, k)))
}

// Need number `j` of those that begin at `at`, where the sheet has its two bytes.
#[inline(always)]
#[tactic(auto, unfolding(crate::specs::Places::number_at))]
pub(crate) fn whole_need_at(sheet: &[u8], at: usize, j: u8) -> u16
    requires { at + 2 * j + 2 ≤ length sheet.now }
    ensures { result ≡ number_at sheet.now (at + 2 * j) 2 }
{
    let first = at + 2 * usize::from(j);
    u16::from_be_bytes([sheet[first], sheet[first + 1]])
}

// Need number `j` of those that begin at `at`. It and an amount are a line each, and which number `from_be_bytes` makes is theirs.
#[inline(always)]
#[tactic(auto, unfolding(crate::specs::Places::number_at))]
pub(crate) fn need_at(sheet: &[u8], at: usize, j: u8) -> u16
    ensures { result ≡ number_at sheet.now (at + 2 * j) 2 }
{
    let first = 2 * usize::from(j);
    if sheet.len().saturating_sub(at) >= first + 2 {
        return whole_need_at(sheet, at, j);
    }
    u16::from_be_bytes(array::from_fn(|k| byte_at(sheet, at, first + k)))
}
