ghost use Rattle.std.specs.Prelude.{◌≡◌, ◌<◌, ◌≤◌, IsSome, length};
ghost use Rattle.pw_text.specs.Cursor.{ReadsTokens};
ghost use Rattle.pw_screen.specs.declared.clauses.Clause.TheVariants as clause;
ghost use Rattle.pw_screen.specs.Clauses.{no_clauses, is_unknown, naming, added, picture_clause, value_clause, index, subscript, item_name, item_clause, one_clause, clauses_in};

use pw_data::clauses::{eat_pic, is_end};
use pw_data::layout::Layout;
use pw_text::cursor::Cursor;
use pw_text::token::{Token, TokenKind};

/// The clauses of a field, the first one of each kind by the token that says what it is: the picture,
/// the text of its VALUE, and the items of FROM, TO and USING.
#[derive(Clone, Copy)]
pub struct Clauses {
    pub picture: Option<Token>,
    pub value: Option<Token>,
    pub from: Option<Token>,
    pub to: Option<Token>,
    pub using: Option<Token>,
    /// Whether a clause has the kind of one before it.
    pub repeated: bool,
    /// Whether an item that a clause names has a subscript.
    pub subscripted: bool,
    /// Whether there is no item of a name that a clause names.
    pub unknown: bool,
}

/// The item of a clause: its name, and whether a subscript stands behind it.
#[derive(Clone, Copy)]
pub struct ItemName {
    pub name: Token,
    pub subscripted: bool,
}

/// One clause.
#[derive(Clone, Copy)]
pub enum Clause {
    Picture(Token),
    Value(Token),
    From(ItemName),
    To(ItemName),
    Using(ItemName),
}

impl Clauses {
    /// No clause.
    fn none() -> Clauses
        ensures { result ≡ no_clauses }
    {
        Clauses {
            picture: None,
            value: None,
            from: None,
            to: None,
            using: None,
            repeated: false,
            subscripted: false,
            unknown: false,
        }
    }

    /// The clauses, where one of them names an item: whether it has a subscript, and whether it is unknown.
    fn naming(self, layout: &Layout, text: &[u8], item: ItemName) -> Clauses
        ensures { result ≡ naming text.now layout.now item self }
    {
        Clauses {
            subscripted: self.subscripted || item.subscripted,
            unknown: self.unknown || is_unknown(layout, text, item.name),
            ..self
        }
    }

    /// The clauses and one more: of each kind the first one stays, and whether one is repeated.
    fn with(self, layout: &Layout, text: &[u8], clause: Clause) -> Clauses
        ensures { result ≡ added text.now layout.now self clause }
    {
        match clause {
            Clause::Picture(token) => Clauses {
                picture: Some(self.picture.unwrap_or(token)),
                repeated: self.repeated || self.picture.is_some(),
                ..self
            },
            Clause::Value(token) => Clauses {
                value: Some(self.value.unwrap_or(token)),
                repeated: self.repeated || self.value.is_some(),
                ..self
            },
            Clause::From(item) => Clauses {
                from: Some(self.from.unwrap_or(item.name)),
                repeated: self.repeated || self.from.is_some(),
                ..self
            }
            .naming(layout, text, item),
            Clause::To(item) => Clauses {
                to: Some(self.to.unwrap_or(item.name)),
                repeated: self.repeated || self.to.is_some(),
                ..self
            }
            .naming(layout, text, item),
            Clause::Using(item) => Clauses {
                using: Some(self.using.unwrap_or(item.name)),
                repeated: self.repeated || self.using.is_some(),
                ..self
            }
            .naming(layout, text, item),
        }
    }
}

/// Whether there is no item of the name that a token is.
fn is_unknown(layout: &Layout, text: &[u8], name: Token) -> bool
    ensures { result ≡ is_unknown text.now layout.now name }
{
    layout.place(name.spelling(text)).is_none()
}

/// Reads what is behind PIC: a picture, and an IS before it or none.
fn picture_clause(cursor: &mut Cursor<'_>) -> Option<Clause>
    ensures value { ReadsTokens (picture_clause cursor.old) result cursor.new }
    ensures shorter { length cursor.new.tokens ≤ length cursor.old.tokens }
{
    let _is = cursor.eat_word(b"IS");
    Some(Clause::Picture(cursor.expect(TokenKind::Picture)?))
}

/// Reads what is behind VALUE: a text, and an IS before it or none.
fn value_clause(cursor: &mut Cursor<'_>) -> Option<Clause>
    ensures value { ReadsTokens (value_clause cursor.old) result cursor.new }
    ensures shorter { length cursor.new.tokens ≤ length cursor.old.tokens }
{
    let _is = cursor.eat_word(b"IS");
    Some(Clause::Value(cursor.expect(TokenKind::Text)?))
}

/// Reads what stands in the parentheses of a subscript: a number or a word.
fn index(cursor: &mut Cursor<'_>) -> Option<Token>
    ensures value { ReadsTokens (index cursor.old) result cursor.new }
    ensures shorter { length cursor.new.tokens ≤ length cursor.old.tokens }
{
    if cursor.sees(TokenKind::Number) {
        cursor.expect(TokenKind::Number)
    } else {
        cursor.expect(TokenKind::Word)
    }
}

/// Reads a subscript, where a parenthesis opens, and gives whether there is one.
fn subscript(cursor: &mut Cursor<'_>) -> Option<bool>
    ensures value { ReadsTokens (subscript cursor.old) result cursor.new }
    ensures shorter { length cursor.new.tokens ≤ length cursor.old.tokens }
{
    if !cursor.eat(TokenKind::LeftParen) {
        return Some(false);
    }
    let _index = index(cursor)?;
    let _close = cursor.expect(TokenKind::RightParen)?;
    Some(true)
}

/// Reads the name of an item, with a subscript or without one.
fn item_name(cursor: &mut Cursor<'_>) -> Option<ItemName>
    ensures value { ReadsTokens (item_name cursor.old) result cursor.new }
    ensures shorter { length cursor.new.tokens ≤ length cursor.old.tokens }
{
    let name = cursor.expect(TokenKind::Word)?;
    let subscripted = subscript(cursor)?;
    Some(ItemName { name, subscripted })
}

/// Reads what is behind FROM: an item.
fn from_clause(cursor: &mut Cursor<'_>) -> Option<Clause>
    ensures value { ReadsTokens (item_clause clause.From cursor.old) result cursor.new }
    ensures shorter { length cursor.new.tokens ≤ length cursor.old.tokens }
{
    Some(Clause::From(item_name(cursor)?))
}

/// Reads what is behind TO: an item.
fn to_clause(cursor: &mut Cursor<'_>) -> Option<Clause>
    ensures value { ReadsTokens (item_clause clause.To cursor.old) result cursor.new }
    ensures shorter { length cursor.new.tokens ≤ length cursor.old.tokens }
{
    Some(Clause::To(item_name(cursor)?))
}

/// Reads what is behind USING: an item.
fn using_clause(cursor: &mut Cursor<'_>) -> Option<Clause>
    ensures value { ReadsTokens (item_clause clause.Using cursor.old) result cursor.new }
    ensures shorter { length cursor.new.tokens ≤ length cursor.old.tokens }
{
    Some(Clause::Using(item_name(cursor)?))
}

/// Reads the clause in front.
fn one_clause(cursor: &mut Cursor<'_>) -> Option<Clause>
    ensures value { ReadsTokens (one_clause cursor.old) result cursor.new }
    ensures shorter { IsSome result → length cursor.new.tokens < length cursor.old.tokens }
{
    if eat_pic(cursor) {
        picture_clause(cursor)
    } else if cursor.eat_word(b"VALUE") {
        value_clause(cursor)
    } else if cursor.eat_word(b"FROM") {
        from_clause(cursor)
    } else if cursor.eat_word(b"TO") {
        to_clause(cursor)
    } else if cursor.eat_word(b"USING") {
        using_clause(cursor)
    } else {
        None
    }
}

/// The clauses up to a period that is the last token, by the items of the layout. It is None where they
/// have another form.
pub fn clauses_in(layout: &Layout, cursor: &Cursor<'_>) -> Option<Clauses>
    ensures { result ≡ clauses_in layout.now cursor.now }
{
    let mut found = Clauses::none();
    let mut ahead = cursor.fork();
    while !is_end(&ahead) {
        let one = one_clause(&mut ahead)?;
        found = found.with(layout, cursor.text(), one);
    }
    Some(found)
}
