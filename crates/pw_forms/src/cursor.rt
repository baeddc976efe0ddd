ghost use Rattle.std.specs.Prelude.{◌≡◌};
ghost use Rattle.pw_forms.specs.Readers.{ReadsForm, sees, sees_third, past, form_rest_behind, token, sees_kind, past_kind, expects, is_done, ends, left};

use crate::lack::Lack;
use pw_text::cursor::Cursor as TokenCursor;
use pw_text::token::{Token, TokenKind};
use std::marker::Model;

/// What is left of a piece, in the text of a server or of a requester: a cursor over its tokens, whose
/// steps give that no form has what stands there where they find none.
#[derive(Drop)]
pub struct FormCursor<'a> {
    server: bool,
    left: TokenCursor<'a>,
}

impl<'a> Model for FormCursor<'a> {
    ghost use Rattle.pw_forms.specs.Readers.{Rest};

    ghost Value = { Rest };

    ghost view = { λ cursor. record {
      server = cursor.server;
      text = cursor.left.text;
      tokens = cursor.left.tokens;
    } };
}

impl<'a> FormCursor<'a> {
    /// A cursor in front of tokens of a text, of a server's or a requester's.
    pub fn new(server: bool, text: &'a [u8], tokens: &'a [Token]) -> FormCursor<'a>
        ensures { result ≡ record { server = server; text = text.now; tokens = tokens.now } }
    {
        FormCursor {
            server,
            left: TokenCursor::new(text, tokens),
        }
    }

    /// Whether the text is that of a server.
    pub fn is_server(&self) -> bool
        ensures { result ≡ self.now.server }
    {
        self.server
    }

    /// The text.
    pub fn text(&self) -> &'a [u8]
        ensures { result.now ≡ self.now.text }
    {
        self.left.text()
    }

    /// How many tokens are left.
    #[tactic(auto, unfolding(crate::specs::Readers::left))]
    pub fn left(&self) -> usize
        ensures { result ≡ left self.now }
    {
        self.left.len()
    }

    /// Whether no token is left.
    #[tactic(auto, unfolding(crate::specs::Readers::is_done))]
    pub fn is_done(&self) -> bool
        ensures { result ≡ is_done self.now }
    {
        self.left.is_empty()
    }

    /// Takes the next token.
    pub fn next(&mut self) -> Result<Token, Lack>
        ensures { ReadsForm (token self.old) result self.new }
    {
        match self.left.next() {
            Some(token) => Ok(token),
            None => Err(Lack::NoForm),
        }
    }

    /// Passes over the next token.
    #[tactic(auto, unfolding(crate::specs::Readers::form_rest_behind))]
    fn skip(&mut self)
        ensures { self.new ≡ form_rest_behind self.old }
    {
        let _token = self.left.next();
    }

    /// Whether the next token is this word.
    #[tactic(auto, unfolding(crate::specs::Readers::sees))]
    pub fn sees(&self, word: &[u8]) -> bool
        ensures { result ≡ sees word.now self.now }
    {
        self.left.sees_word(word)
    }

    /// Whether the token behind the next two is this word.
    #[tactic(auto, unfolding(crate::specs::Readers::sees_third))]
    pub fn sees_third(&self, word: &[u8]) -> bool
        ensures { result ≡ sees_third word.now self.now }
    {
        match self.left.tokens() {
            [_, _, token, ..] => token.is_the_word(self.left.text(), word),
            _ => false,
        }
    }

    /// Takes the next token where it is this word, and tells it.
    #[tactic(auto, unfolding(crate::specs::Readers::past))]
    pub fn eats(&mut self, word: &[u8]) -> bool
        ensures found { result ≡ sees word.now self.old }
        ensures rest { self.new ≡ past word.now self.old }
    {
        let found = self.sees(word);
        if found {
            self.skip();
        }
        found
    }

    /// Takes this word.
    #[tactic(auto, unfolding(crate::specs::Readers::expects))]
    pub fn expects(&mut self, word: &[u8]) -> Result<(), Lack>
        ensures { ReadsForm (expects word.now self.old) result self.new }
    {
        if self.sees(word) {
            self.skip();
            Ok(())
        } else {
            Err(Lack::NoForm)
        }
    }

    /// Whether the next token is of this kind.
    #[tactic(auto, unfolding(crate::specs::Readers::sees_kind))]
    fn sees_kind(&self, kind: TokenKind) -> bool
        ensures { result ≡ sees_kind kind self.now }
    {
        self.left.sees(kind)
    }

    /// Takes the next token where it is of this kind, and tells it.
    #[tactic(auto, unfolding(crate::specs::Readers::past_kind))]
    pub fn takes(&mut self, kind: TokenKind) -> bool
        ensures found { result ≡ sees_kind kind self.old }
        ensures rest { self.new ≡ past_kind kind self.old }
    {
        let found = self.sees_kind(kind);
        if found {
            self.skip();
        }
        found
    }

    /// Whether the piece ends here.
    #[tactic(auto, unfolding(crate::specs::Readers::ends))]
    pub fn ends(&self) -> Result<(), Lack>
        ensures { ReadsForm (ends self.now) result self.now }
    {
        if self.is_done() {
            Ok(())
        } else {
            Err(Lack::NoForm)
        }
    }
}
