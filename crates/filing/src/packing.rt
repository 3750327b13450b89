// A record of a sheet, put together in bytes of its own.
ghost use Rattle.std.specs.Prelude.{◌≡◌, ◌+◌, ◌-◌, ◌*◌, ◌^◌, ◌≤◌, ◌++◌, length};
ghost use Rattle.arrayvec.specs.ArrayVec.{array_vec_len};
ghost use Rattle.sheet.specs.Format.{amount_bytes, entry_bytes, flag};
ghost use Rattle.filing.specs.Sheets.{present};

use arrayvec::ArrayVec;

// The most bytes that a record has: its bit map, two amounts and four needs.
pub(crate) const RECORD_BYTES: usize = 17;

// The record of an entry with these amounts and needs.
pub(crate) fn pack(earning: u32, cost: u32, needs: &[u16]) -> ArrayVec<u8, RECORD_BYTES>
    requires { length needs.now ≤ 4 }
    ensures { result.items ≡ entry_bytes (record { earning = present earning; cost = present cost; needs = needs.now }) }
{
    let mut packed = ArrayVec::new();
    packed.push(bit_map(earning, cost, needs.len()));
    put_amount(&mut packed, earning);
    put_amount(&mut packed, cost);
    for need in needs {
        packed.try_extend_from_slice(&need.to_be_bytes()).unwrap();
    }
    packed
}

// The bit map of a record with these amounts and so many needs.
fn bit_map(earning: u32, cost: u32, needs: usize) -> u8
    requires { needs ≤ 4 }
    ensures { result ≡ flag (present earning) + 2 * flag (present cost) + 4 * (2 ^ needs - 1) }
{
    let need_bits = (1 << needs) - 1;
    u8::from(earning > 0) + 2 * u8::from(cost > 0) + 4 * need_bits
}

// Puts an amount behind what is packed already; an amount of 0 has no field.
fn put_amount(packed: &mut ArrayVec<u8, RECORD_BYTES>, amount: u32)
    requires { array_vec_len packed.old ≤ 13 }
    ensures { packed.new.items ≡ packed.old.items ++ amount_bytes (present amount) }
{
    if amount > 0 {
        packed.try_extend_from_slice(&amount.to_be_bytes()).unwrap();
    }
}
