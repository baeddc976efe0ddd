ghost use Rattle.std.specs.Prelude.{◌≡◌, true};
ghost use Rattle.pw_pair.specs.Bodies.{is_image};
ghost use Rattle.pw_pair.specs.Rooms.{MaySend};

use pw_base::bytes::Bytes;
use pw_image::decode::decode;
use pw_pair::link::{LinkDone, build};
use pw_pair::message::{Body, CheckKind, CheckMessage};
use pw_pair::mode::Mode;
use pw_pair::pair::Pair;
use std::alloc::{AllocError, Global};
use std::process::Abort;
use std::test::Fail;

/// Whether a message of this kind may be sent in this mode.
fn may_send(mode: Mode, kind: CheckKind) -> bool
    ensures { result ≡ true → MaySend mode kind }
{
    match kind {
        CheckKind::Copy => matches!(mode, Mode::Raising),
        CheckKind::Start | CheckKind::End => matches!(mode, Mode::Paired),
    }
}

/// Whether bytes are in the image format.
#[tactic(auto, unfolding(pw_pair::specs::Bodies::is_image))]
fn is_image(alloc: Global, bytes: &[u8]) -> bool
    ensures { result ≡ true → is_image bytes.now ≡ true }
{
    match decode(alloc, bytes) {
        Ok(_) => true,
        Err(_) => false,
    }
}

/// The image of a program without storage that stands at its first place and has shown so many screens.
fn image(alloc: Global, shown: u8) -> Result<Bytes, Fail> {
    let mut bytes = Bytes::from_slice(alloc, &[0x50, 0x57, 0x01])?;
    bytes.extend(&[0; 17])?;
    bytes.push(shown)?;
    bytes.extend(&[0; 10])?;
    let cells = vec![in alloc; b' '; 1920]?;
    bytes.extend(&cells)?;
    bytes.extend(&[1, 0, 0, 0, 0, 0, 0, 0, 0, 0, 0, 0])?;
    Ok(bytes)
}

/// The kind of message of a name.
fn kind_of(name: &str) -> Result<CheckKind, Fail> {
    match name {
        "start" => Ok(CheckKind::Start),
        "end" => Ok(CheckKind::End),
        "copy" => Ok(CheckKind::Copy),
        _ => Err("no kind".into()),
    }
}

/// Sends a message of the first unit, where it may be sent.
fn send(pair: &mut Pair, kind: CheckKind, terminal: u32, image: Bytes) -> Result<(), Fail> {
    if !may_send(pair.mode(), kind) || !is_image(image.allocator(), image.as_slice()) {
        return Err("it may not be sent".into());
    }
    pair.send(CheckMessage {
        terminal,
        kind,
        unit: 1,
        image,
    })?;
    Ok(())
}

/// A value that another thread may have.
fn handed_over<T: Send>(value: T) -> T {
    value
}

/// The task of a terminal's message in flight, built outside the pair.
fn built_outside(pair: &Pair, alloc: Global, terminal: u32) -> Result<LinkDone, Fail> {
    if !pair.is_waiting(terminal) {
        return Err("no message waits".into());
    }
    let task = handed_over(pair.lend(terminal)?);
    Ok(handed_over(build(alloc, task)?))
}

/// What a message carries: all of its image, or how many records of it.
fn carried(alloc: Global, body: &Body) -> Result<String, AllocError> {
    match body {
        Body::Whole(_) => format!(in alloc; "all"),
        Body::Delta(changes) => format!(in alloc; "{}", changes.as_slice().len()),
    }
}

/// Delivers a terminal's message that is built, and says whether the backup holds something of it then.
fn is_held(pair: &mut Pair, terminal: u32) -> bool {
    if !pair.built(terminal) {
        return false;
    }
    pair.applied(terminal);
    pair.holds(terminal) && !pair.in_flight(terminal)
}

/// Messages that are sent one behind the other, each with its terminal and the count of its image, and what they carry.
const MESSAGES: &str = "copy 4 1|all
copy 9 2|all
end 4 5|1
start 4 6|1
start 4 6|0";

/// Asserts what the message of a row carries: it is built outside the pair, given back and delivered.
fn expect_carried(rt: &impl Abort, alloc: Global, pair: &mut Pair, row: &str) -> Result<(), Fail> {
    let (kind, rest) = row.split_once(' ').ok_or("no terminal")?;
    let (terminal, rest) = rest.split_once(' ').ok_or("no count")?;
    let (shown, wanted) = rest.split_once('|').ok_or("nothing carried")?;
    let terminal = terminal.parse()?;
    send(
        pair,
        kind_of(kind)?,
        terminal,
        image(alloc, shown.parse()?)?,
    )?;
    let done = built_outside(pair, alloc, terminal)?;
    let found = carried(alloc, &done.task.message.body)?;
    assert_eq!(rt; found.as_str(), wanted, "{row}");
    assert!(rt; pair.give_back(done), "{row}");
    assert!(rt; is_held(pair, terminal), "{row}");
    Ok(())
}

#[test]
fn messages_carry_what_has_changed(rt: HostRuntime) -> Result<(), Fail> {
    let mut pair = Pair::new(rt.alloc(), &[4, 9, 4])?;
    if !matches!(pair.mode(), Mode::Alone) {
        return Err("not alone".into());
    }
    pair.raise()?;
    for row in MESSAGES.split('\n') {
        expect_carried(&rt, rt.alloc(), &mut pair, row)?;
    }
    Ok(())
}
