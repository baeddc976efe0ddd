ghost use Rattle.std.specs.Prelude.{◌≡◌, ◌==◌, ◌≤◌, None, length, take, slice_get};
ghost use Rattle.pw_text.specs.Cursor.{spelling, sees, sees_word, behind, after_token, expect, expect_word, ReadsTokens};

use crate::token::{Token, TokenKind};
use std::marker::Model;

/// The tokens of a text from one on. Contracts see the text and what is left of its tokens. A step
/// takes the same time however much is left, and none takes memory.
#[derive(Drop)]
pub struct Cursor<'a> {
    text: &'a [u8],
    tokens: &'a [Token],
}

impl<'a> Model for Cursor<'a> {
    ghost use Rattle.pw_text.specs.Cursor.{Left};

    ghost Value = { Left };

    ghost view = { λ cursor. record { text = cursor.text.now; tokens = cursor.tokens.now } };
}

impl<'a> Cursor<'a> {
    /// A cursor in front of tokens of a text.
    pub fn new(text: &'a [u8], tokens: &'a [Token]) -> Cursor<'a>
        ensures text { result.text ≡ text.now }
        ensures tokens { result.tokens ≡ tokens.now }
    {
        Cursor { text, tokens }
    }

    /// Another cursor at the same place.
    pub fn fork(&self) -> Cursor<'a>
        ensures { result ≡ self.now }
    {
        Cursor {
            text: self.text,
            tokens: self.tokens,
        }
    }

    /// The text.
    pub fn text(&self) -> &'a [u8]
        ensures { result.now ≡ self.now.text }
    {
        self.text
    }

    /// The tokens that are left.
    pub fn tokens(&self) -> &'a [Token]
        ensures { result.now ≡ self.now.tokens }
    {
        self.tokens
    }

    /// How many tokens are left.
    pub fn len(&self) -> usize
        ensures { result ≡ length self.now.tokens }
    {
        self.tokens.len()
    }

    /// Whether no token is left.
    pub fn is_empty(&self) -> bool
        ensures { result ≡ (length self.now.tokens == 0) }
    {
        self.tokens.is_empty()
    }

    /// The next token, and none where none is left.
    pub fn peek(&self) -> Option<Token>
        ensures { result ≡ slice_get self.now.tokens 0 }
    {
        self.peek_at(0)
    }

    /// The token so many behind the next one.
    pub fn peek_at(&self, count: usize) -> Option<Token>
        ensures { result ≡ slice_get self.now.tokens count }
    {
        self.tokens.get(count).copied()
    }

    /// The bytes of a token of the text.
    pub fn spelling(&self, token: Token) -> &'a [u8]
        ensures { result.now ≡ spelling self.now.text token }
    {
        token.spelling(self.text)
    }

    /// Whether the next token is of a kind.
    pub fn sees(&self, kind: TokenKind) -> bool
        ensures { result ≡ sees kind self.now }
    {
        match self.tokens {
            [token, ..] => token.kind.is(kind),
            [] => false,
        }
    }

    /// Whether the next token is this word, in either case.
    pub fn sees_word(&self, word: &[u8]) -> bool
        ensures { result ≡ sees_word word.now self.now }
    {
        match self.tokens {
            [token, ..] => token.is_the_word(self.text, word),
            [] => false,
        }
    }

    /// Takes so many tokens. They are given as a cursor of their own.
    pub fn take(&mut self, count: usize) -> Cursor<'a>
        requires { count ≤ length self.old.tokens }
        ensures text { result.text ≡ self.old.text }
        ensures taken { result.tokens ≡ take count self.old.tokens }
        ensures left { self.new ≡ behind count self.old }
    {
        let (front, rest) = self.tokens.split_at(count);
        self.tokens = rest;
        Cursor {
            text: self.text,
            tokens: front,
        }
    }

    /// Takes the next token, and none where none is left.
    pub fn next(&mut self) -> Option<Token>
        ensures token { result ≡ slice_get self.old.tokens 0 }
        ensures left { self.new ≡ behind 1 self.old }
    {
        let (token, rest) = self.tokens.split_first()?;
        self.tokens = rest;
        Some(*token)
    }

    /// Takes the next token if it is of a kind. It gives whether it was.
    pub fn eat(&mut self, kind: TokenKind) -> bool
        ensures found { result ≡ sees kind self.old }
        ensures left { self.new ≡ after_token (sees kind self.old) self.old }
    {
        let found = self.sees(kind);
        if found {
            let _token = self.next();
        }
        found
    }

    /// Takes the next token if it is this word, in either case. It gives whether it was.
    pub fn eat_word(&mut self, word: &[u8]) -> bool
        ensures found { result ≡ sees_word word.now self.old }
        ensures left { self.new ≡ after_token (sees_word word.now self.old) self.old }
    {
        let found = self.sees_word(word);
        if found {
            let _token = self.next();
        }
        found
    }

    /// Takes the next token, which has to be of a kind. None leaves all that was left.
    pub fn expect(&mut self, kind: TokenKind) -> Option<Token>
        ensures token { ReadsTokens (expect kind self.old) result self.new }
        ensures none { result ≡ None → self.new ≡ self.old }
    {
        if self.sees(kind) { self.next() } else { None }
    }

    /// Takes the next token, which has to be this word, in either case. None leaves all that was left.
    pub fn expect_word(&mut self, word: &[u8]) -> Option<Token>
        ensures token { ReadsTokens (expect_word word.now self.old) result self.new }
        ensures none { result ≡ None → self.new ≡ self.old }
    {
        if self.sees_word(word) {
            self.next()
        } else {
            None
        }
    }
}
