// A page: grey values in rows.
ghost use Rattle.std.specs.Prelude.{◌≡◌, vec_items};
ghost use Rattle.netpbm.specs.Images.{WithinLimits};

// The most pixels that a row or a column of a page may have.
pub const MOST_SIDE: usize = 16_384;

// A page of grey values, from 0 for black to 255 for white, in rows from the top.
#[derive(Debug, Drop)]
pub struct Page {
    pub(crate) width: usize,
    pub(crate) height: usize,
    pub(crate) greys: Vec<u8>,
    ghost within: { WithinLimits (record { width = width; height = height; greys = vec_items greys }) },
}

impl Page {
    ghost use Rattle.netpbm.specs.Values.{image_of};

    // How many pixels a row has.
    pub fn width(&self) -> usize
        ensures width { result ≡ (image_of self.now).width }
        ensures limits { WithinLimits (image_of self.now) }
    {
        self.width
    }

    // How many rows there are.
    pub fn height(&self) -> usize
        ensures height { result ≡ (image_of self.now).height }
        ensures limits { WithinLimits (image_of self.now) }
    {
        self.height
    }

    // The grey values, row by row.
    pub fn greys(&self) -> &[u8]
        ensures greys { result.now ≡ (image_of self.now).greys }
        ensures limits { WithinLimits (image_of self.now) }
    {
        &self.greys
    }
}
