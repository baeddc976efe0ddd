ghost use Rattle.std.specs.Prelude.{◌≡◌, ◌==◌, filter, find, get_or};
ghost use Rattle.std.specs.Str.{bytes_eq};
ghost use Rattle.pw_event.specs.Keywords.{keyword_text, keywords, keyword};

use crate::fault::EventFault;

/// A word that stands in lines of logs and of failures itself, in upper case (docs/reference/DECK.md).
#[derive(Clone, Copy)]
pub enum Keyword {
    Show,
    Key,
    Check,
    Start,
    End,
    Copy,
    Applied,
    Begin,
    Send,
    Take,
    File,
    Read,
    Next,
    Write,
    Rewrite,
    Delete,
    Shared,
    Exclusive,
    Reply,
    Okay,
    Fault,
    Again,
    Commit,
    Back,
    Restart,
    Older,
    Takeover,
    Server,
    Redo,
    Fail,
    Tcp,
    Primary,
    Backup,
    Raise,
    Stopped,
    NoEntries,
    Suspended,
    Lost,
    After,
}

/// The keywords that begin with a byte, in their order.
fn beginning_with(first: u8) -> &'static [Keyword]
    ensures { result.now ≡ filter (λ keyword. get_or (keyword_text keyword) 0 0 == first) keywords }
{
    match first {
        b'A' => &[Keyword::Applied, Keyword::Again, Keyword::After],
        b'B' => &[Keyword::Begin, Keyword::Back, Keyword::Backup],
        b'C' => &[Keyword::Check, Keyword::Copy, Keyword::Commit],
        b'D' => &[Keyword::Delete],
        b'E' => &[Keyword::End],
        b'F' => &[Keyword::File, Keyword::Fault, Keyword::Fail],
        b'K' => &[Keyword::Key],
        b'L' => &[Keyword::Lost],
        b'N' => &[Keyword::Next, Keyword::NoEntries],
        b'O' => &[Keyword::Okay, Keyword::Older],
        b'P' => &[Keyword::Primary],
        b'R' => &[
            Keyword::Read,
            Keyword::Rewrite,
            Keyword::Reply,
            Keyword::Restart,
            Keyword::Redo,
            Keyword::Raise,
        ],
        b'S' => &[
            Keyword::Show,
            Keyword::Start,
            Keyword::Send,
            Keyword::Shared,
            Keyword::Server,
            Keyword::Stopped,
            Keyword::Suspended,
        ],
        b'T' => &[Keyword::Take, Keyword::Takeover, Keyword::Tcp],
        b'W' => &[Keyword::Write],
        b'X' => &[Keyword::Exclusive],
        _ => &[],
    }
}

/// The first of some keywords that a word is.
fn among(keywords: &[Keyword], word: &[u8]) -> Option<Keyword>
    ensures { result ≡ find (λ keyword. bytes_eq (keyword_text keyword) word.now) keywords.now }
{
    keywords
        .iter()
        .copied()
        .find(|keyword| keyword.text() == word)
}

/// The keyword that a word is, if any. It looks at the few that begin with the word's first byte.
fn keyword_of(word: &[u8]) -> Option<Keyword>
    ensures { result ≡ find (λ keyword. bytes_eq (keyword_text keyword) word.now) keywords }
{
    match word {
        [first, ..] => among(beginning_with(*first), word),
        [] => None,
    }
}

impl Keyword {
    /// The keyword that a word is. It answers `Bad` exactly where the word is none.
    #[tactic(auto, unfolding(crate::specs::Keywords::keyword))]
    pub fn of(word: &[u8]) -> Result<Keyword, EventFault>
        ensures { result ≡ keyword word.now }
    {
        match keyword_of(word) {
            Some(keyword) => Ok(keyword),
            None => Err(EventFault::Bad),
        }
    }

    /// How it is spelled.
    pub fn text(self) -> &'static [u8]
        ensures { result.now ≡ keyword_text self }
    {
        match self {
            Keyword::Show => b"SHOW",
            Keyword::Key => b"KEY",
            Keyword::Check => b"CHECK",
            Keyword::Start => b"START",
            Keyword::End => b"END",
            Keyword::Copy => b"COPY",
            Keyword::Applied => b"APPLIED",
            Keyword::Begin => b"BEGIN",
            Keyword::Send => b"SEND",
            Keyword::Take => b"TAKE",
            Keyword::File => b"FILE",
            Keyword::Read => b"READ",
            Keyword::Next => b"NEXT",
            Keyword::Write => b"WRITE",
            Keyword::Rewrite => b"REWRITE",
            Keyword::Delete => b"DELETE",
            Keyword::Shared => b"S",
            Keyword::Exclusive => b"X",
            Keyword::Reply => b"REPLY",
            Keyword::Okay => b"OK",
            Keyword::Fault => b"FAULT",
            Keyword::Again => b"AGAIN",
            Keyword::Commit => b"COMMIT",
            Keyword::Back => b"BACK",
            Keyword::Restart => b"RESTART",
            Keyword::Older => b"OLDER",
            Keyword::Takeover => b"TAKEOVER",
            Keyword::Server => b"SERVER",
            Keyword::Redo => b"REDO",
            Keyword::Fail => b"FAIL",
            Keyword::Tcp => b"TCP",
            Keyword::Primary => b"PRIMARY",
            Keyword::Backup => b"BACKUP",
            Keyword::Raise => b"RAISE",
            Keyword::Stopped => b"STOPPED",
            Keyword::NoEntries => b"NOENTRIES",
            Keyword::Suspended => b"SUSPENDED",
            Keyword::Lost => b"LOST",
            Keyword::After => b"AFTER",
        }
    }
}
