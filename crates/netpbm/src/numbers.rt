// The decimal numbers of an image file, and the white space and the remarks that stand before them.
ghost use Rattle.std.specs.Prelude.{◌≡◌, ◌+◌, ◌<◌, ◌≤◌, ◌-◌, ◌^◌, length, min, true, false};
ghost use Rattle.std.specs.Char.{is_ascii_digit};
ghost use Rattle.std.specs.List.{list_all};
ghost use Rattle.std.specs.Option.{option_map};
ghost use Rattle.std.specs.Str.Parse.{digits_value};
ghost use Rattle.netpbm.specs.Blanks.{is_space, ends_line, is_blank, remark_after, after_blanks};
ghost use Rattle.netpbm.specs.Numerals.{digit_count, number_read, number_to};
ghost use Rattle.netpbm.specs.Passes.{numeral_of, capped};

// A number that was read, and what stands behind it.
#[derive(Clone, Copy, Debug)]
pub(crate) struct Number<'a> {
    // the largest that there is, where it is larger
    pub(crate) value: usize,
    pub(crate) rest: &'a [u8],
}

// Whether a byte is white space: a space, a tab, a line feed, a vertical tab, a form feed or a carriage return.
pub(crate) fn is_space(byte: u8) -> bool
    ensures { result ≡ is_space byte }
{
    matches!(byte, b' ' | b'\t'..=b'\r')
}

// Whether a byte ends a remark.
fn ends_line(byte: u8) -> bool
    ensures { result ≡ ends_line byte }
{
    matches!(byte, b'\n' | b'\r')
}

// Whether a byte is of a remark, or may stand before a number.
fn is_blank(in_remark: bool, byte: u8) -> bool
    ensures { result ≡ is_blank in_remark byte }
{
    in_remark || byte == b'#' || is_space(byte)
}

// Whether what follows a blank byte is of a remark.
fn remark_after(in_remark: bool, byte: u8) -> bool
    ensures { result ≡ remark_after in_remark byte }
{
    if in_remark {
        !ends_line(byte)
    } else {
        byte == b'#'
    }
}

// What follows white space and remarks.
fn after_blanks(text: &[u8]) -> &[u8]
    ensures { result.now ≡ after_blanks false text.now }
{
    let mut in_remark = false;
    for (place, byte) in text.iter().enumerate() {
        if !is_blank(in_remark, *byte) {
            return &text[place..];
        }
        in_remark = remark_after(in_remark, *byte);
    }
    &[]
}

// The number that digits write, or the largest that there is.
fn value_of(digits: &[u8]) -> usize
    requires { list_all is_ascii_digit digits.now ≡ true }
    ensures { result ≡ min (digits_value 10 digits.now) (2 ^ 64 - 1) }
{
    let mut value: usize = 0;
    for digit in digits {
        value = value
            .saturating_mul(10)
            .saturating_add(usize::from(*digit - b'0'));
    }
    value
}

// How many digits a text begins with.
fn digit_count(text: &[u8]) -> usize
    ensures { result ≡ digit_count text.now }
{
    text.iter().take_while(|byte| byte.is_ascii_digit()).count()
}

// The number that follows behind white space, if one does.
pub(crate) fn next_number(text: &[u8]) -> Option<Number<'_>>
    ensures { option_map numeral_of result ≡ option_map capped (number_read text.now) }
{
    let word = after_blanks(text);
    let length = digit_count(word);
    if word.len() == text.len() || length == 0 {
        return None;
    }
    let (digits, rest) = word.split_at(length);
    Some(Number {
        value: value_of(digits),
        rest,
    })
}

// The same, where it is from 1 to `most`.
pub(crate) fn number_to(most: usize, text: &[u8]) -> Option<Number<'_>>
    requires { most < 2 ^ 64 - 1 }
    ensures { option_map numeral_of result ≡ number_to most text.now }
{
    next_number(text).filter(|number| (1..=most).contains(&number.value))
}
