ghost use Rattle.std.specs.Prelude.{◌≡◌, Bool, false, IfOk};
ghost use Rattle.pw_forms.specs.Words.{table_place, is_table_word, mark_in, mark_at, mark_of, begins_piece, is_receive, is_name_token, is_register, is_item_name, token_name};

use crate::mark::{FileVerb, StatementVerb, TerminalVerb, TokenMark, TransactionVerb};
use crate::statement::Operation;
use pw_base::bytes::Bytes;
use pw_base::memory::Memory;
use pw_text::token::{Token, TokenKind};
use pw_words::texts::{piece_words, requester_words, server_words};
use std::alloc::Global;

/// The words that begin a piece, in the order in which both tables begin with them.
const MARKS: &[TokenMark] = &[
    TokenMark::Verb(StatementVerb::Terminal(TerminalVerb::Accept)),
    TokenMark::Verb(StatementVerb::Terminal(TerminalVerb::Transaction(TransactionVerb::Abort))),
    TokenMark::Verb(StatementVerb::Arithmetic(Operation::Add)),
    TokenMark::Verb(StatementVerb::Terminal(TerminalVerb::Transaction(TransactionVerb::Begin))),
    TokenMark::Verb(StatementVerb::Terminal(TerminalVerb::Call)),
    TokenMark::Verb(StatementVerb::File(FileVerb::Delete)),
    TokenMark::Verb(StatementVerb::Terminal(TerminalVerb::Display)),
    TokenMark::Verb(StatementVerb::Arithmetic(Operation::Divide)),
    TokenMark::Verb(StatementVerb::Terminal(TerminalVerb::Transaction(TransactionVerb::End))),
    TokenMark::Verb(StatementVerb::Exit),
    TokenMark::Verb(StatementVerb::If),
    TokenMark::Verb(StatementVerb::Move),
    TokenMark::Verb(StatementVerb::Arithmetic(Operation::Multiply)),
    TokenMark::Verb(StatementVerb::Perform),
    TokenMark::Verb(StatementVerb::File(FileVerb::Read)),
    TokenMark::Verb(StatementVerb::Terminal(TerminalVerb::Transaction(TransactionVerb::Restart))),
    TokenMark::Verb(StatementVerb::File(FileVerb::Rewrite)),
    TokenMark::Verb(StatementVerb::Terminal(TerminalVerb::Send)),
    TokenMark::Verb(StatementVerb::Stop),
    TokenMark::Verb(StatementVerb::Arithmetic(Operation::Subtract)),
    TokenMark::Verb(StatementVerb::File(FileVerb::Write)),
    TokenMark::Else,
    TokenMark::EndIf,
];

/// The place of a word in the table of servers, or in that of requesters.
#[tactic(auto, unfolding(crate::specs::Words::table_place))]
fn table_place(server: bool, word: &[u8]) -> Option<usize>
    ensures { result ≡ table_place server word.now }
{
    if server {
        server_words().find(word)
    } else {
        requester_words().find(word)
    }
}

/// Whether a word ends with a letter, as each word of the tables does.
fn may_be_table_word(word: &[u8]) -> bool
    ensures { result ≡ false → (server : Bool) → is_table_word server word.now ≡ false }
{
    match word.split_last() {
        Some((last, _)) => last.to_ascii_lowercase().is_ascii_lowercase(),
        None => false,
    }
}

/// Whether the table has a word.
pub fn is_table_word(server: bool, word: &[u8]) -> bool
    ensures { result ≡ is_table_word server word.now }
{
    if may_be_table_word(word) {
        table_place(server, word).is_some()
    } else {
        false
    }
}

/// The mark at a place.
fn mark_in(marks: &[TokenMark], place: usize) -> TokenMark
    ensures { result ≡ mark_in marks.now place }
{
    marks.get(place).copied().unwrap_or(TokenMark::Other)
}

/// What a word begins, by its place in the table.
fn mark_at(place: Option<usize>) -> TokenMark
    ensures { result ≡ mark_at place }
{
    match place {
        Some(place) => mark_in(MARKS, place),
        None => TokenMark::Other,
    }
}

/// What a word begins. It is the same in a server and in a requester, since both tables begin with the
/// words that begin a piece: so it is looked for among these alone.
fn word_mark(word: &[u8]) -> TokenMark
    ensures { (server : Bool) → result ≡ mark_at (table_place server word.now) }
{
    mark_at(piece_words().find(word))
}

/// What a token begins.
pub fn mark_of(server: bool, text: &[u8], token: Token) -> TokenMark
    ensures { result ≡ mark_of server text.now token }
{
    match token.kind {
        TokenKind::Period => TokenMark::Period,
        TokenKind::Word => word_mark(token.spelling(text)),
        _ => TokenMark::Other,
    }
}

/// Whether a piece begins with a mark.
pub fn begins_piece(mark: TokenMark) -> bool
    ensures { result ≡ begins_piece mark }
{
    !matches!(mark, TokenMark::Other)
}

/// Whether a token is `$RECEIVE`.
pub fn is_receive(text: &[u8], token: Token) -> bool
    ensures { result ≡ is_receive text.now token }
{
    token.is_the_word(text, b"$RECEIVE")
}

/// Whether a token may be a name: a word that is neither a table word nor `$RECEIVE`.
pub fn is_name(server: bool, text: &[u8], token: Token) -> bool
    ensures { result ≡ is_name_token server text.now token }
{
    token.kind.is(TokenKind::Word)
        && (!is_table_word(server, token.spelling(text)) && !is_receive(text, token))
}

/// Whether a token is a register: an item whose name is a table word.
fn is_register(server: bool, text: &[u8], token: Token) -> bool
    ensures { result ≡ is_register server text.now token }
{
    if server {
        token.is_the_word(text, b"FILE-STATUS")
    } else {
        token.is_the_word(text, b"TERMINATION-STATUS")
            || token.is_the_word(text, b"RESTART-COUNTER")
    }
}

/// Whether a token may be the name of an item.
pub fn is_item_name(server: bool, text: &[u8], token: Token) -> bool
    ensures { result ≡ is_item_name server text.now token }
{
    is_name(server, text, token) || is_register(server, text, token)
}

/// The name that a token is, in upper case.
pub fn name_in(alloc: Global, text: &[u8], token: Token) -> Result<Bytes, Memory>
    ensures { IfOk result (λ name. name ≡ token_name text.now token) }
{
    let name = token.spelling(text).to_ascii_uppercase(alloc)?;
    Ok(Bytes::from_vec(name))
}
