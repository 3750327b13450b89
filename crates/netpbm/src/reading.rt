// Reading a page from a PGM file.
ghost use Rattle.std.specs.Prelude.{◌≡◌, ◌*◌, ◌/◌, ◌≤◌, ◌+◌, ◌∷◌, [], ◌++◌, length, IfOk, vec_items};
ghost use Rattle.std.specs.Option.{option_map};
ghost use Rattle.netpbm.specs.Images.{greys_read, image_read};
ghost use Rattle.netpbm.specs.Layouts.{IsAnswered};
ghost use Rattle.netpbm.specs.Values.{image_told};
ghost use Rattle.netpbm.specs.Passes.{the_header, numeral_of, capped, sample, greys_told, Bounded};

use super::header::{Form, Header, read_header};
use super::numbers::{Number, next_number};
use super::page::Page;
use super::refusal::ImageRefusal;
use std::alloc::{AllocError, Global};

// The grey that a raster begins with, and what stands behind it.
fn next_sample(form: Form, raster: &[u8]) -> Option<Number<'_>>
    ensures { option_map numeral_of result ≡ option_map capped (sample form raster.now) }
{
    match form {
        Form::Plain => next_number(raster),
        Form::Raw => raster.split_first().map(|(byte, rest)| Number {
            value: usize::from(*byte),
            rest,
        }),
    }
}

// A value as a grey, where the largest value stands for white.
fn grey(value: usize, largest: usize) -> u8
    requires some { 1 ≤ largest }
    requires few { largest ≤ 255 }
    requires within { value ≤ largest }
    ensures { result ≡ value * 255 / largest }
{
    (value * 255 / largest) as u8
}

// The greys of a raster, pixel by pixel, as far as the first with a fault.
fn read_greys(heap: Global, header: &Header) -> Result<Result<Vec<u8>, ImageRefusal>, AllocError>
    requires { Bounded (the_header header.now) }
    ensures { IfOk result (λ read. greys_told read ≡ greys_read (the_header header.now)) }
{
    let count = header.width * header.height;
    // a file has no more greys than bytes
    let mut greys = Vec::with_capacity(heap, count.min(header.raster.len()))?;
    let mut rest = header.raster;
    for pixel in 0..count {
        let Some(sample) = next_sample(header.form, rest) else {
            return Ok(Err(ImageRefusal::NoGrey { pixel }));
        };
        if sample.value > header.largest {
            return Ok(Err(ImageRefusal::AboveLargest { pixel }));
        }
        greys.push(grey(sample.value, header.largest))?;
        rest = sample.rest;
    }
    Ok(Ok(greys))
}

// The page that a PGM file holds, raw or plain. Such a file may hold more images behind its first: they are not read.
pub fn read_pgm(heap: Global, input: &[u8]) -> Result<Result<Page, ImageRefusal>, AllocError>
    ensures image { IfOk result (λ read. image_told read ≡ image_read input.now) }
    ensures file { IfOk result (λ read. IsAnswered input.now (image_told read)) }
{
    let header = match read_header(input) {
        Ok(header) => header,
        Err(refusal) => return Ok(Err(refusal)),
    };
    let greys = match read_greys(heap, &header)? {
        Ok(greys) => greys,
        Err(refusal) => return Ok(Err(refusal)),
    };
    Ok(Ok(Page {
        width: header.width,
        height: header.height,
        greys,
    }))
}
