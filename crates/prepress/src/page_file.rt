// The split of a page that comes as an image file, as the text of another.
ghost use Rattle.std.specs.Prelude.{IfOk};
ghost use Rattle.prepress.specs.Files.{FileSplit, answer_of};

use super::splitting::split_page;
use netpbm::{ImageRefusal, read_pgm, write_pbm};
use std::alloc::{AllocError, Global};

// Splits the page of a PGM file into lines and tones, and answers the text of a PBM file.
pub fn split_file(heap: Global, input: &[u8]) -> Result<Result<String, ImageRefusal>, AllocError>
    ensures { IfOk result (λ answer. FileSplit input.now (answer_of answer)) }
{
    let page = match read_pgm(heap, input)? {
        Ok(page) => page,
        Err(refusal) => return Ok(Err(refusal)),
    };
    let split = split_page(heap, &page)?;
    let text = write_pbm(heap, &page, &split.black, split.tiles, split.energy)?;
    Ok(Ok(text))
}
