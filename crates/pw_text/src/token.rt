ghost use Rattle.std.specs.Prelude.{◌≡◌};
ghost use Rattle.pw_base.specs.Limits.{longest_word, most_digits};
ghost use Rattle.pw_text.specs.Cursor.{same_kind, spelling, is_the_word};

use pw_words::table::is_same_word;

/// The most characters of a word.
pub const MAX_WORD: usize = 30;

/// The most digits of a number.
pub const MAX_DIGITS: usize = 18;

/// The longest words and numbers are as long as the table of limits says.
pub fn token_limits()
    ensures word { MAX_WORD ≡ longest_word }
    ensures digits { MAX_DIGITS ≡ most_digits }
{}

/// What a token is.
#[derive(Clone, Copy, Debug, PartialEq, Eq)]
pub enum TokenKind {
    /// Letters, digits and hyphens that begin with a letter, or `$RECEIVE`.
    Word,
    /// Digits, with an optional sign before them and an optional point and digits behind them.
    Number,
    /// What stands between two quotes, where two quotes are one quote of the text.
    Text,
    /// What follows PIC or PICTURE.
    Picture,
    /// `.`
    Period,
    /// `(`
    LeftParen,
    /// `)`
    RightParen,
    /// `=`
    Equal,
    /// `<`
    Less,
    /// `>`
    Greater,
    /// `<=`
    LessEqual,
    /// `>=`
    GreaterEqual,
}

impl TokenKind {
    /// Whether the two are one kind.
    pub fn is(self, kind: TokenKind) -> bool
        ensures { result ≡ same_kind self kind }
    {
        self as usize == kind as usize
    }
}

/// A token: its kind, the line on which it stands, and where its bytes begin and end in the text.
/// The bytes of a `Text` are those between its quotes, with each doubled quote as it stands.
#[derive(Clone, Copy, Debug, PartialEq, Eq)]
pub struct Token {
    pub kind: TokenKind,
    pub line: u32,
    pub start: u32,
    pub end: u32,
}

impl Token {
    /// Its bytes in its text, as far as it lies there.
    pub fn spelling<'a>(self, text: &'a [u8]) -> &'a [u8]
        ensures { result.now ≡ spelling text.entry.now self }
    {
        let end = (self.end as usize).min(text.len());
        let start = (self.start as usize).min(end);
        &text[start..end]
    }

    /// Whether it is this word, in either case.
    pub fn is_the_word(self, text: &[u8], word: &[u8]) -> bool
        ensures { result ≡ is_the_word text.now word.now self }
    {
        self.kind.is(TokenKind::Word) && is_same_word(self.spelling(text), word)
    }
}
