//! How the characters of a position are counted.
ghost use Rattle.std.specs.Prelude.{◌≡◌};
ghost use Rattle.cps_rpc.specs.Positions.{bytes_begun, units};

/// How the characters of a position are counted.
#[derive(Clone, Copy, Debug, PartialEq, Eq)]
pub enum Encoding {
    /// As bytes of UTF-8.
    Utf8,
    /// As units of UTF-16: a character of four bytes has two, any other has one.
    Utf16,
}

impl Encoding {
    /// How many units a character has that begins with a byte. A byte that goes on has none.
    pub fn units_of(self, byte: u8) -> u32
        ensures { result ≡ units self byte }
    {
        match self {
            Encoding::Utf8 => bytes_begun(byte),
            Encoding::Utf16 => match byte {
                0x80..=0xbf => 0,
                0xf0..=0xff => 2,
                _ => 1,
            },
        }
    }
}

/// How many bytes a character has that begins with a byte.
fn bytes_begun(byte: u8) -> u32
    ensures { result ≡ bytes_begun byte }
{
    match byte {
        0..=0x7f => 1,
        0x80..=0xbf => 0,
        0xc0..=0xdf => 2,
        0xe0..=0xef => 3,
        _ => 4,
    }
}
