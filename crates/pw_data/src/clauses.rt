ghost use Rattle.std.specs.Prelude.{◌≡◌, ◌<◌, ◌≤◌, ◌||◌, IsSome, length, codes};
ghost use Rattle.pw_text.specs.Cursor.{ReadsTokens, sees_word, after_token};
ghost use Rattle.pw_data.specs.Clauses.{no_clauses, added, literal, picture_clause, value_clause, occurs_clause, one_clause, is_end, clauses_in};

use pw_text::cursor::Cursor;
use pw_text::token::{Token, TokenKind};

/// The clauses of an entry, each by the token that says what it is: the picture, the literal of its
/// VALUE, and the number of its OCCURS.
#[derive(Clone, Copy)]
pub struct DataClauses {
    pub picture: Option<Token>,
    pub value: Option<Token>,
    pub occurs: Option<Token>,
}

/// One clause.
#[derive(Clone, Copy)]
pub enum DataClause {
    Picture(Token),
    Value(Token),
    Occurs(Token),
}

impl DataClauses {
    /// No clause.
    pub fn none() -> DataClauses
        ensures { result ≡ no_clauses }
    {
        DataClauses {
            picture: None,
            value: None,
            occurs: None,
        }
    }

    /// The clause and those before it. It is None where one of them is of its kind.
    fn with(self, clause: DataClause) -> Option<DataClauses>
        ensures { result ≡ added self clause }
    {
        match clause {
            DataClause::Picture(token) => match self.picture {
                Some(_) => None,
                None => Some(DataClauses {
                    picture: Some(token),
                    ..self
                }),
            },
            DataClause::Value(token) => match self.value {
                Some(_) => None,
                None => Some(DataClauses {
                    value: Some(token),
                    ..self
                }),
            },
            DataClause::Occurs(token) => match self.occurs {
                Some(_) => None,
                None => Some(DataClauses {
                    occurs: Some(token),
                    ..self
                }),
            },
        }
    }
}

/// Takes the next token, which has to be a literal.
fn literal(cursor: &mut Cursor<'_>) -> Option<Token>
    ensures value { ReadsTokens (literal cursor.old) result cursor.new }
    ensures shorter { length cursor.new.tokens ≤ length cursor.old.tokens }
{
    if cursor.sees(TokenKind::Number) {
        cursor.next()
    } else {
        cursor.expect(TokenKind::Text)
    }
}

/// Reads what is behind PIC: a picture, and an IS before it or none.
fn picture_clause(cursor: &mut Cursor<'_>) -> Option<DataClause>
    ensures value { ReadsTokens (picture_clause cursor.old) result cursor.new }
    ensures shorter { length cursor.new.tokens ≤ length cursor.old.tokens }
{
    let _is = cursor.eat_word(b"IS");
    Some(DataClause::Picture(cursor.expect(TokenKind::Picture)?))
}

/// Reads what is behind VALUE: a literal, and an IS before it or none.
fn value_clause(cursor: &mut Cursor<'_>) -> Option<DataClause>
    ensures value { ReadsTokens (value_clause cursor.old) result cursor.new }
    ensures shorter { length cursor.new.tokens ≤ length cursor.old.tokens }
{
    let _is = cursor.eat_word(b"IS");
    Some(DataClause::Value(literal(cursor)?))
}

/// Reads what is behind OCCURS: a number, and a TIMES behind it or none.
fn occurs_clause(cursor: &mut Cursor<'_>) -> Option<DataClause>
    ensures value { ReadsTokens (occurs_clause cursor.old) result cursor.new }
    ensures shorter { length cursor.new.tokens ≤ length cursor.old.tokens }
{
    let token = cursor.expect(TokenKind::Number)?;
    let _times = cursor.eat_word(b"TIMES");
    Some(DataClause::Occurs(token))
}

/// Takes the word PIC or PICTURE, if it comes next. It gives whether it does. Else the cursor stays
/// where it is (docs/reference/LANGUAGE.md).
pub fn eat_pic(cursor: &mut Cursor<'_>) -> bool
    ensures found { result ≡ (sees_word (codes "PIC") cursor.old || sees_word (codes "PICTURE") cursor.old) }
    ensures left { cursor.new ≡ after_token (sees_word (codes "PIC") cursor.old || sees_word (codes "PICTURE") cursor.old) cursor.old }
{
    let found = cursor.sees_word(b"PIC") || cursor.sees_word(b"PICTURE");
    if found {
        let _word = cursor.next();
    }
    found
}

/// Reads the clause in front.
fn one_clause(cursor: &mut Cursor<'_>) -> Option<DataClause>
    ensures value { ReadsTokens (one_clause cursor.old) result cursor.new }
    ensures shorter { IsSome result → length cursor.new.tokens < length cursor.old.tokens }
{
    if eat_pic(cursor) {
        picture_clause(cursor)
    } else if cursor.eat_word(b"VALUE") {
        value_clause(cursor)
    } else if cursor.eat_word(b"OCCURS") {
        occurs_clause(cursor)
    } else {
        None
    }
}

/// Whether a period is all that is left: the last token, and the end of its entry (docs/reference/LANGUAGE.md).
pub fn is_end(cursor: &Cursor<'_>) -> bool
    ensures { result ≡ is_end cursor.now.tokens }
{
    match cursor.tokens() {
        [token] => token.kind.is(TokenKind::Period),
        _ => false,
    }
}

/// The clauses up to a period that is the last token. It is None where they have another form, or two
/// of them are of one kind.
pub fn clauses_in(cursor: &Cursor<'_>) -> Option<DataClauses>
    ensures { result ≡ clauses_in cursor.now }
{
    let mut found = DataClauses::none();
    let mut ahead = cursor.fork();
    while !is_end(&ahead) {
        let one = one_clause(&mut ahead)?;
        found = found.with(one)?;
    }
    Some(found)
}
