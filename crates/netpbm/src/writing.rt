// Writing a page of lines and tones as a PBM file.
ghost use Rattle.std.specs.Prelude.{◌≡◌, ◌<◌, IfOk};
ghost use Rattle.std.specs.String.{string_bytes};
ghost use Rattle.netpbm.specs.Bitmaps.{is_black, breaks_line, pixel_text, pixels_of, pbm_text, IsPlainPbm};
ghost use Rattle.netpbm.specs.Values.{image_of};

use super::page::Page;
use std::alloc::{AllocError, Global};

// How many digits a line of the file has at most. The format asks for lines of at most 70 bytes.
const LINE_DIGITS: usize = 64;

// Whether a pixel is black: one that is not told is white.
fn is_black(black: &[bool], pixel: usize) -> bool
    ensures { result ≡ is_black black.now pixel }
{
    black.get(pixel).copied().unwrap_or(false)
}

// Whether a line of the file ends behind a pixel, in rows of this width.
fn breaks_line(width: usize, pixel: usize) -> bool
    requires { 0 < width }
    ensures { result ≡ breaks_line width pixel }
{
    let column = pixel % width + 1;
    column == width || column % LINE_DIGITS == 0
}

// A pixel's digit, and the line feed behind it.
fn pixel_text(dark: bool, ends: bool) -> &'static str
    ensures { result.now ≡ pixel_text dark ends }
{
    match (dark, ends) {
        (false, false) => "0",
        (false, true) => "0\n",
        (true, false) => "1",
        (true, true) => "1\n",
    }
}

// The split of a page into lines, which are black, and tones, as a plain PBM file: `black` tells in rows from the top which pixels are
// black. Pixels that it does not tell are white, and what it tells beyond the page is left out.
pub fn write_pbm(
    heap: Global,
    page: &Page,
    black: &[bool],
    tiles: usize,
    energy: u64,
) -> Result<String, AllocError>
    ensures text { IfOk result (λ text. string_bytes text ≡ pbm_text (image_of page.now) black.now tiles energy) }
    ensures plain { IfOk result (λ text. IsPlainPbm (string_bytes text) (image_of page.now).width (image_of page.now).height (pixels_of (image_of page.now) black.now)) }
{
    let mut text = format!(in heap;
        "P1\n# {tiles} tiles, energy {energy}\n{} {}\n",
        page.width, page.height
    )?;
    for pixel in 0..page.width * page.height {
        text.push_str(pixel_text(is_black(black, pixel), breaks_line(page.width, pixel)))?;
    }
    Ok(text)
}
