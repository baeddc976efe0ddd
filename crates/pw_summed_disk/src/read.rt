ghost use Rattle.std.specs.Prelude.{◌≡◌, ◌↔◌, ◌+◌, ◌^◌, ◌<◌, ◌≤◌, ℕ, ◌++◌, ◌∷◌, [], length, drop, option_map, Err, IfOk, OnOk, IsErrOf, IsTrue};
ghost use Rattle.pw_summed_disk.specs.Extents.{content_of, piece_in, shut_gate, staged, word_of};
ghost use Rattle.pw_summed_disk.specs.Summed.{IsSummedFile};

use crate::extent::{SHUT, piece_in, word_of};
use crate::fault::SumFault;
use pw_base::bytes::Bytes;
use pw_base::memory::Memory;
use std::alloc::Global;

/// The content of a summed disk, as it was read.
#[derive(Debug, Drop)]
pub struct ReadContent {
    pub bytes: Vec<u8>,
    /// The place of its last gate.
    pub end: usize,
    /// The place of the shut gate below.
    pub gate: usize,
}

/// Reads the bytes that a summed disk has below.
pub fn read_content(alloc: Global, below: &[u8]) -> Result<ReadContent, SumFault>
    ensures file { IfOk result (λ read. IsSummedFile read.gate read.end read.bytes.items below.now) }
    ensures small { IfOk result (λ read. read.gate + 4 < 2 ^ 64) }
    ensures damaged { (at : ℕ) → IsErrOf result (SumFault.Damaged at) → content_of below.now ≡ Err at }
    ensures failed { IsErrOf result SumFault.Failed → ⊥ }
{
    let mut content = Bytes::new(alloc);
    let mut at = 0;
    loop {
        if below.len() - at < 4 {
            return Err(SumFault::Damaged { at: at as u64 });
        }
        let found = piece_at(below, at);
        if is_shut(below, at) {
            let end = content.len();
            put_staged(&mut content, found)?;
            let bytes = content.into_vec();
            return Ok(ReadContent {
                bytes,
                end,
                gate: at,
            });
        }
        let Some(piece) = found else {
            return Err(SumFault::Damaged { at: at as u64 });
        };
        put_piece(&mut content, piece)?;
        at += 20 + piece.len();
    }
}

/// Whether the gate at a place is shut.
fn is_shut(below: &[u8], at: usize) -> bool
    requires { at + 4 ≤ length below.now }
    ensures { IsTrue result ↔ (word_of (drop at below.now) ≡ word_of shut_gate) }
{
    word_of(&below[at..]) == word_of(&SHUT)
}

/// The piece behind the gate at a place, if it is whole.
fn piece_at(below: &[u8], at: usize) -> Option<&[u8]>
    requires { at + 4 ≤ length below.now }
    ensures { option_map (λ piece. piece.now) result ≡ piece_in (drop (at + 4) below.now) }
{
    piece_in(&below[at + 4..])
}

/// Puts an open gate and a piece behind other content.
fn put_piece(content: &mut Bytes, piece: &[u8]) -> Result<(), Memory>
    ensures { OnOk result (content.new ≡ content.old ++ (1 ∷ piece.now)) }
{
    content.push(1)?;
    content.extend(piece)
}

/// Puts a shut gate behind other content, and what is staged behind it.
fn put_staged(content: &mut Bytes, found: Option<&[u8]>) -> Result<(), Memory>
    ensures { OnOk result (content.new ≡ content.old ++ (0 ∷ staged (option_map (λ piece. piece.now) found.entry))) }
{
    content.push(0)?;
    if let Some(piece) = found {
        content.extend(piece)?;
        content.push(0)?;
    }
    Ok(())
}
