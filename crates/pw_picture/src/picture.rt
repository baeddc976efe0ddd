ghost use Rattle.std.specs.Prelude.{◌≡◌};
ghost use Rattle.pw_picture.specs.Grammar.{size_of, IsPicture};

use pw_base::bytes::Bytes;

/// The picture of an item: characters, a number of 1 to 18 digits of which the last `places` are
/// decimals, with a sign in front where it is `signed`, or a number that is edited for a screen.
#[derive(Debug, Drop)]
pub enum Picture {
    Text {
        size: u16,
    },
    Number {
        digits: u8,
        places: u8,
        signed: bool,
    },
    Edited {
        symbols: Bytes,
    },
}

impl Picture {
    /// How many characters an item of this picture has.
    pub fn length(&self) -> usize
        ensures { result ≡ size_of self.now }
    {
        match self {
            Picture::Text { size } => *size as usize,
            Picture::Number { digits, signed, .. } => *digits as usize + *signed as usize,
            Picture::Edited { symbols } => symbols.len(),
        }
    }

    /// The same as a number of 16 bits, 1 to 32,000.
    pub fn size(&self) -> u16
        requires { IsPicture self.now }
        ensures { result ≡ size_of self.now }
    {
        self.length() as u16
    }
}
