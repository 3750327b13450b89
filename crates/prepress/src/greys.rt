// What pixels cost by their grey values, from 0 for black to 255 for white.
ghost use Rattle.std.specs.Prelude.{◌≡◌};
ghost use Rattle.prepress.specs.Greys.{line_cost, tone_cost, penalty};

// What a pixel costs as line: nothing where it is black.
pub fn line_cost(grey: u8) -> u8
    ensures { result ≡ line_cost grey }
{
    grey
}

// What it costs as tone: nothing where it is white.
pub fn tone_cost(grey: u8) -> u8
    ensures { result ≡ tone_cost grey }
{
    255 - grey
}

// The penalty where two neighbours differ. It is the greater the more alike their greys are: edges of the page stay, and pale specks go.
pub fn penalty(grey: u8, other: u8) -> u8
    ensures { result ≡ penalty grey other }
{
    (255 - grey.abs_diff(other)) / 4
}
