// The header of a PGM file: what stands before its greys.
ghost use Rattle.std.specs.Prelude.{◌≡◌};
ghost use Rattle.std.specs.Option.{option_copied};
ghost use Rattle.netpbm.specs.Headers.{form_of, raster_behind, header_read};
ghost use Rattle.netpbm.specs.Passes.{header_told};

use super::numbers::{is_space, number_to};
use super::page::MOST_SIDE;
use super::refusal::ImageRefusal;

// How many bytes tell a file's form.
const FORM_BYTES: usize = 2;

// The largest value that a file may tell.
const MOST_LARGEST: usize = 255;

// How greys stand in a file: each as a byte, or as a decimal number.
#[derive(Clone, Copy, PartialEq, Eq, Debug)]
pub(crate) enum Form {
    Raw,
    Plain,
}

#[derive(Clone, Copy, Debug)]
pub(crate) struct Header<'a> {
    pub(crate) form: Form,
    pub(crate) width: usize,
    pub(crate) height: usize,
    // the largest value that a grey may have, which stands for white
    pub(crate) largest: usize,
    // what stands behind the header: the greys, and maybe more
    pub(crate) raster: &'a [u8],
}

// The form that a file begins with.
fn form_of(input: &[u8]) -> Option<Form>
    ensures { result ≡ form_of input.now }
{
    if input.starts_with(b"P5") {
        Some(Form::Raw)
    } else if input.starts_with(b"P2") {
        Some(Form::Plain)
    } else {
        None
    }
}

// The greys behind a largest value: of a raw file, behind the white space byte that follows it.
fn raster_behind(form: Form, text: &[u8]) -> Option<&[u8]>
    ensures { option_copied result ≡ raster_behind form text.now }
{
    match (form, text.split_first()) {
        (Form::Plain, _) => Some(text),
        (Form::Raw, Some((byte, raster))) if is_space(*byte) => Some(raster),
        (Form::Raw, _) => None,
    }
}

// The header that a file begins with.
pub(crate) fn read_header(input: &[u8]) -> Result<Header<'_>, ImageRefusal>
    ensures { header_told result ≡ header_read input.now }
{
    let form = form_of(input).ok_or(ImageRefusal::NotPgm)?;
    let width = number_to(MOST_SIDE, &input[FORM_BYTES..]).ok_or(ImageRefusal::SizeRange)?;
    let height = number_to(MOST_SIDE, width.rest).ok_or(ImageRefusal::SizeRange)?;
    let largest = number_to(MOST_LARGEST, height.rest).ok_or(ImageRefusal::LargestRange)?;
    let raster = raster_behind(form, largest.rest).ok_or(ImageRefusal::LargestRange)?;
    Ok(Header {
        form,
        width: width.value,
        height: height.value,
        largest: largest.value,
        raster,
    })
}
