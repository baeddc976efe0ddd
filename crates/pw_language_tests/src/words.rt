use pw_base::fault::Refusal;
use pw_base::fault_code::FaultCode;
use pw_words::texts::{pathcom_words, refusal_texts, requester_words, server_words};
use std::alloc::{AllocError, Global};
use std::process::Abort;
use std::test::Fail;

/// Words, and their places in the tables of requesters and servers, of the commands and of the refusals.
const PLACES: &str = "ACCEPT|Some(0) Some(0) None None
IF|Some(10) Some(10) None None
if|Some(10) Some(10) None None
IFF|None None None None
I|None None None None
|None None None None
Write|Some(20) Some(20) None None
ELSE|Some(21) Some(21) None None
SECTION|Some(59) Some(59) None None
BASE|Some(60) None None None
RESTART-COUNTER|Some(67) None None None
$RECEIVE|None Some(60) None None
WITH|None Some(65) None None
LOCK|None Some(66) None None
SET|None None Some(0) None
maxtmfrestarts|None None Some(9) None
BAD CHARACTER|None None None Some(0)
TOO MANY|None None None Some(34)";

/// The places of a word, as a row tells them.
fn places_of(alloc: Global, word: &[u8]) -> Result<String, AllocError> {
    let requester = requester_words().find(word);
    let server = server_words().find(word);
    let command = pathcom_words().find(word);
    let text = refusal_texts().find(word);
    format!(in alloc; "{requester:?} {server:?} {command:?} {text:?}")
}

/// Asserts that the word of a row has its places.
fn expect_places(rt: &impl Abort, alloc: Global, row: &str) -> Result<(), Fail> {
    let (word, wanted) = row.split_once('|').ok_or("no places")?;
    let found = places_of(alloc, word.as_bytes())?;
    assert_eq!(rt; found.as_str(), wanted, "{word}");
    Ok(())
}

#[test]
fn word_table_places(rt: HostRuntime) -> Result<(), Fail> {
    for row in PLACES.split('\n') {
        expect_places(&rt, rt.alloc(), row)?;
    }
    Ok(())
}

#[test]
fn rows_stand_at_their_places(rt: HostRuntime) {
    assert_eq!(rt; requester_words().row(67), b"RESTART-COUNTER".as_slice());
    assert_eq!(rt; server_words().row(10), b"IF".as_slice());
    assert_eq!(rt; pathcom_words().row(5), b"SERVER".as_slice());
    assert_eq!(rt; refusal_texts().row(10), b"NO IF".as_slice());
}

#[test]
fn refusals_are_told(rt: HostRuntime) -> Result<(), Fail> {
    let refusal = Refusal::At {
        line: 2,
        code: FaultCode::TooMany,
    };
    let told = format!(in rt.alloc(); "{refusal}")?;
    assert_eq!(rt; told.as_str(), "fault 196 on line 2");
    Ok(())
}
