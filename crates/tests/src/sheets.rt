// Sheets with the answers that they must get.
use sheet::{Counts, Kind, Reader, Record, Told};
use std::process::Abort;
use std::test::Fail;

// Two jobs that share a set-up, an entry with both amounts and a set-up that nothing needs: 5 entries and 2 needs.
const SHOP: &[u8; 33] = b"\x05\0\0\0\x32\0\x02\
    \x05\0\0\0\x1e\0\x02\
    \x02\0\0\0\x3c\
    \x03\0\0\0\x0a\0\0\0\x0a\
    \x02\0\0\0\x05";

// The first bytes of the shop's sheet.
fn shop(len: usize) -> &'static [u8] {
    let whole: &[u8] = SHOP;
    &whole[0..len.min(whole.len())]
}

fn accepted(rt: &impl Abort, sheet: &[u8], entries: usize, needs: usize) -> Result<(), Fail> {
    assert_eq!(rt; sheet::read(sheet)?, Counts { entries, needs });
    Ok(())
}

fn refused(
    rt: &impl Abort,
    sheet: &[u8],
    number: u8,
    record: usize,
    byte: usize,
) -> Result<(), Fail> {
    let told = Told {
        number,
        record,
        byte,
    };
    match sheet::read(sheet) {
        Ok(_) => Err(Fail::new("accepted")),
        Err(refusal) => {
            assert_eq!(rt; refusal.told(), told);
            Ok(())
        },
    }
}

#[test]
fn well_formed_sheets(rt: HostRuntime) -> Result<(), Fail> {
    accepted(&rt, &[0x00], 1, 0)?;
    accepted(&rt, shop(33), 5, 2)?;
    // amounts from 1 to 1,000,000
    accepted(&rt, &[0x03, 0, 0, 0, 1, 0, 0x0f, 0x42, 0x40], 1, 0)?;
    // four needs, past the entry's own number
    accepted(&rt, &[0x3c, 0, 1, 0, 2, 0, 3, 0, 4, 0, 0, 0, 0], 5, 4)
}

#[test]
fn one_fault(rt: HostRuntime) -> Result<(), Fail> {
    refused(&rt, &[], 11, 0, 0)?;
    refused(&rt, &[0x40], 13, 0, 0)?;
    refused(&rt, &[0x80], 13, 0, 0)?;
    refused(&rt, &[0x08], 14, 0, 0)?;
    refused(&rt, &[0x01, 0, 0], 15, 0, 0)?;
    refused(&rt, &[0x01, 0, 0, 0, 0], 16, 0, 0)?;
    refused(&rt, &[0x02, 0, 0x0f, 0x42, 0x41], 16, 0, 0)?;
    refused(&rt, &[0x04, 0, 0], 17, 0, 0)?;
    refused(&rt, &[0x0c, 0, 2, 0, 1, 0, 0], 17, 0, 0)?;
    refused(&rt, &[0x0c, 0, 1, 0, 1, 0, 0], 17, 0, 0)?;
    refused(&rt, &[0x04, 0, 1], 18, 0, 0)
}

// Where a sheet has two faults, the question that is put first tells.
#[test]
fn first_question_that_fails(rt: HostRuntime) -> Result<(), Fail> {
    // of one record: high bits before a gap, a gap before the cut, the cut before an amount, an amount before the needs
    refused(&rt, &[0x48], 13, 0, 0)?;
    refused(&rt, &[0x09, 0], 14, 0, 0)?;
    refused(&rt, &[0x03, 0, 0, 0, 0, 1], 15, 0, 0)?;
    refused(&rt, &[0x05, 0, 0, 0, 0, 0, 0], 16, 0, 0)?;
    // of two records: the earlier one
    refused(&rt, &[0x00, 0x04, 0, 1, 0x40], 17, 1, 1)?;
    refused(&rt, &[0x04, 0, 9, 0x04, 0, 8], 18, 0, 0)?;
    refused(&rt, &[0x04, 0, 1, 0x04, 0, 8], 18, 1, 3)?;
    // an entry that is not there is told after every fault of a record by itself
    refused(&rt, &[0x04, 0, 9, 0x00, 0x00, 0x40], 13, 3, 5)
}

// The sheet of the shop, cut at each byte within the record that has this number and these ends.
fn cut_within(rt: &impl Abort, number: usize, start: usize, end: usize) -> Result<(), Fail> {
    for len in start.saturating_add(1)..end {
        refused(rt, shop(len), 15, number, start)?;
    }
    Ok(())
}

#[test]
fn cut_at_every_byte(rt: HostRuntime) -> Result<(), Fail> {
    cut_within(&rt, 0, 0, 7)?;
    cut_within(&rt, 1, 7, 14)?;
    cut_within(&rt, 2, 14, 19)?;
    cut_within(&rt, 3, 19, 28)?;
    cut_within(&rt, 4, 28, 33)?;
    // where a record ends, the records before the cut answer for themselves
    refused(&rt, shop(0), 11, 0, 0)?;
    refused(&rt, shop(7), 18, 0, 0)?;
    refused(&rt, shop(14), 18, 0, 0)?;
    accepted(&rt, shop(19), 3, 2)?;
    accepted(&rt, shop(28), 4, 2)
}

#[test]
fn at_most_4096_records(rt: HostRuntime) -> Result<(), Fail> {
    let bare = [0u8; 4097];
    accepted(&rt, &bare[0..4096], 4096, 0)?;
    refused(&rt, &bare, 12, 4096, 4096)
}

#[test]
fn records_as_places(rt: HostRuntime) -> Result<(), Fail> {
    let mut reader = Reader::new(shop(33));
    let job = Record {
        number: 0,
        byte: 0,
        kind: Kind::Earns { earning: 1 },
        needs: 5,
        count: 1,
        end: 7,
    };
    assert_eq!(rt; reader.next()?, Some(job));
    assert_eq!(rt; reader.earning(&job), 50);
    assert_eq!(rt; reader.cost(&job), 0);
    assert_eq!(rt; reader.need(&job, 0), Some(2));
    assert_eq!(rt; reader.need(&job, 1), None);
    let _second = reader.next()?;
    let _set_up = reader.next()?;
    let both = Record {
        number: 3,
        byte: 19,
        kind: Kind::Both {
            earning: 20,
            cost: 24,
        },
        needs: 28,
        count: 0,
        end: 28,
    };
    assert_eq!(rt; reader.next()?, Some(both));
    assert_eq!(rt; reader.cost(&both), 10);
    let _last = reader.next()?;
    assert_eq!(rt; reader.next()?, None);
    Ok(())
}

#[test]
fn sound_records_as_places(rt: HostRuntime) -> Result<(), Fail> {
    let mut asking = Reader::new(shop(33));
    let mut trusting = Reader::new(shop(33));
    // the five records, and then none
    for _ in 0..6 {
        assert_eq!(rt; trusting.next_sound(), asking.next()?);
    }
    Ok(())
}
