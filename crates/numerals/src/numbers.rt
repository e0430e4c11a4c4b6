ghost use Rattle.std.specs.Prelude.{◌≡◌, MatchOption};
ghost use Rattle.numerals.specs.Numerals.{BeginsWith, NoNumber, Reads, Unread, ending_byte};
ghost use Rattle.numerals.specs.Prefixes.{Follows, NotPrefix};

/// The byte that closes a number.
#[derive(Clone, Copy)]
pub enum Ending {
    Space,
    LineFeed,
}

impl Ending {
    /// The byte itself.
    pub fn byte(self) -> u8
        ensures { result ≡ ending_byte self }
    {
        match self {
            Ending::Space => b' ',
            Ending::LineFeed => b'\n',
        }
    }
}

/// The number from 1 to `most` whose decimal digits, with no zero in front, the text begins with, and what comes after
/// its digits; none where the text does not begin so.
///
/// The digits are all those at the front of the text: what comes after them begins with no digit.
pub fn read_digits(text: &[u8], most: u16) -> Option<(u32, &[u8])>
    ensures { MatchOption result (NoNumber text.now most) (λ p. BeginsWith text.now most p.0 p.1.now) }
{
    // `parse` would take a plus sign and zeros in front, and does not say where the number ends.
    let mut number = 0;
    let mut rest = text;
    while let [digit @ b'0'..=b'9', after @ ..] = rest {
        number = number * 10 + (*digit - b'0') as u32;
        if !(1..=u32::from(most)).contains(&number) {
            return None;
        }
        rest = after;
    }
    if number == 0 {
        None
    } else {
        Some((number, rest))
    }
}

/// Reads a number from 1 to `most`, written in decimal digits with no zero in front and closed by the ending.
///
/// Answers the number and what comes after its ending; none where the text does not begin so.
pub fn read_number(text: &[u8], most: u16, ending: Ending) -> Option<(u32, &[u8])>
    ensures { MatchOption result (Unread text.now (ending_byte ending) most) (λ p. Reads text.now (ending_byte ending) most p.0 p.1.now) }
{
    match read_digits(text, most)? {
        (number, [byte, after @ ..]) if *byte == ending.byte() => Some((number, after)),
        _ => None,
    }
}

/// What comes after the prefix; none where the text does not begin with it.
pub fn after_prefix<'a>(text: &'a [u8], prefix: &[u8]) -> Option<&'a [u8]>
    ensures { MatchOption result (NotPrefix prefix.now text.now) (λ rest. Follows prefix.now rest.now text.now) }
{
    text.strip_prefix(prefix)
}
