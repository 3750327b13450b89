// The calls of a program that lends the bytes for its marks.
ghost use Rattle.engine.specs.Lendings.{PlanInto, SplitInto};

use super::cutting::cut_into;
use super::refusal::LentRefusal;
use book::{OpenBook, Record};
use filing::CheckedSheet;
use sheet::Counts;
use std::alloc::{AllocError, Global};
use tile::{MOST_SIDE, Pixel, Tile};

// How many words of the trail each run has for a node: most cuts are then found by one run or two.
const WORDS_EACH: usize = 8;

// A book's best plans, but for what they say of each entry.
#[derive(Clone, Copy, PartialEq, Eq, Debug)]
pub struct Best {
    pub counts: Counts,
    // what the cheapest selections cost, and the net of the best plans
    pub least: u64,
    pub net: u64,
}

// The best plans of a sheet, which may be as long as a sheet can be. What they say of each entry is written to the marks.
pub fn plan_into(
    heap: Global,
    sheet: &[u8],
    marks: &mut [u8],
) -> Result<Result<Best, LentRefusal>, AllocError>
    ensures { PlanInto sheet.now marks.old marks.new result }
{
    let checked = CheckedSheet::new(sheet);
    let counts = match checked.answer() {
        Ok(counts) => counts,
        Err(refusal) => return Ok(Err(LentRefusal::Load(refusal.into()))),
    };
    let mut table = vec![in heap; Record::default(); counts.entries + 2 * counts.needs]?;
    let mut book = OpenBook::new(&mut table);
    let counts = checked.load_into(&mut book).unwrap();
    let earnings = book.total_earnings();
    let mut sealed = book.seal();
    match cut_into(heap, &mut sealed, WORDS_EACH * counts.entries, marks)? {
        Ok(least) => Ok(Ok(Best {
            counts,
            least,
            net: earnings - least,
        })),
        Err(refusal) => Ok(Err(LentRefusal::Run(refusal))),
    }
}

// The least energy of the tile of these costs, in rows of `width` pixels. What the selections of that energy say of each pixel is written
// to the marks.
pub fn split_into(
    heap: Global,
    width: usize,
    height: usize,
    costs: &[u8],
    marks: &mut [u8],
) -> Result<Result<u64, LentRefusal>, AllocError>
    ensures { SplitInto width height costs.now marks.old marks.new result }
{
    // a size that is too large is refused over any table
    let pixels = width.min(MOST_SIDE) * height.min(MOST_SIDE);
    let mut table = vec![in heap; Pixel::default(); pixels]?;
    let mut tile = Tile::new(&mut table);
    if let Err(refusal) = tile.lay(width, height, costs) {
        return Ok(Err(LentRefusal::Lay(refusal)));
    }
    let words = WORDS_EACH * width * height;
    match cut_into(heap, &mut tile, words, marks)? {
        Ok(energy) => Ok(Ok(energy)),
        Err(refusal) => Ok(Err(LentRefusal::Run(refusal))),
    }
}
