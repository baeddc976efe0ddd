ghost use Rattle.std.specs.Prelude.{◌≡◌, ◌≢◌, ◌≤◌, ◌+◌, ◌++◌, ◌∷◌, [], All, IfOk, length, map};
ghost use Rattle.pw_base.specs.Limits.{most_content};
ghost use Rattle.pw_blocks.specs.Blocks.{first_key, records_of};
ghost use Rattle.pw_blocks.specs.Packing.{IsBlock, unpacked};
ghost use Rattle.pw_blocks.specs.Splits.{block_joined, split};

use crate::block::{BLOCK, DataBlock};
use pw_base::bytes::Bytes;
use pw_base::memory::Memory;
use std::alloc::Global;

/// The records of some bytes, one with this content, and the records of more bytes: in one block
/// where they fit, in two where the content fits beside either part, and else in three.
pub fn pieces(
    alloc: Global,
    before: &[u8],
    content: &[u8],
    behind: &[u8],
) -> Result<Vec<DataBlock>, Memory>
    requires before { IsBlock before.now }
    requires behind { IsBlock behind.now }
    requires content { length content.now ≤ most_content }
    ensures records { IfOk result (λ blocks. records_of blocks.items
        ≡ unpacked before.now ++ content.now ∷ unpacked behind.now) }
    ensures none_empty { IfOk result (λ blocks. All (λ block. block ≢ []) blocks.items) }
    ensures split { IfOk result (λ blocks. blocks.items ≡ split (unpacked before.now) content.now (unpacked behind.now)) }
{
    let size = content.len() + 2;
    let mut blocks = Vec::new(alloc);
    if before.len() + size + behind.len() <= BLOCK {
        blocks.push(DataBlock::joined(alloc, before, content, behind)?)?;
        return Ok(blocks);
    }
    if before.len() + size <= BLOCK {
        blocks.push(DataBlock::joined(alloc, before, content, &[])?)?;
        blocks.push(DataBlock::from_slice(alloc, behind)?)?;
        return Ok(blocks);
    }
    blocks.push(DataBlock::from_slice(alloc, before)?)?;
    if size + behind.len() <= BLOCK {
        blocks.push(DataBlock::joined(alloc, &[], content, behind)?)?;
        return Ok(blocks);
    }
    blocks.push(DataBlock::joined(alloc, &[], content, &[])?)?;
    blocks.push(DataBlock::from_slice(alloc, behind)?)?;
    Ok(blocks)
}

/// The records of some bytes and of more bytes in one block, and no block where there are none.
pub fn rest(alloc: Global, before: &[u8], behind: &[u8]) -> Result<Vec<DataBlock>, Memory>
    requires before { IsBlock before.now }
    requires behind { IsBlock behind.now }
    requires fits { length before.now + length behind.now ≤ 4096 }
    ensures records { IfOk result (λ blocks. records_of blocks.items
        ≡ unpacked before.now ++ unpacked behind.now) }
    ensures none_empty { IfOk result (λ blocks. All (λ block. block ≢ []) blocks.items) }
    ensures joined { IfOk result (λ blocks. blocks.items ≡ block_joined (unpacked before.now) (unpacked behind.now)) }
{
    let mut blocks = Vec::new(alloc);
    if !before.is_empty() || !behind.is_empty() {
        blocks.push(DataBlock::beside(alloc, before, behind)?)?;
    }
    Ok(blocks)
}

/// The first key of each block.
pub fn first_keys(
    alloc: Global,
    blocks: &[DataBlock],
    key_length: usize,
) -> Result<Vec<Bytes>, Memory>
    ensures { IfOk result (λ keys. keys.items ≡ map (first_key key_length) blocks.now) }
{
    let mut keys = Vec::new(alloc);
    for block in blocks {
        keys.push(block.first_key(alloc, key_length)?)?;
    }
    Ok(keys)
}

/// Equal blocks.
pub fn copies(alloc: Global, blocks: &[DataBlock]) -> Result<Vec<DataBlock>, Memory>
    ensures { IfOk result (λ copies. copies.items ≡ blocks.now) }
{
    let mut copies = Vec::new(alloc);
    for block in blocks {
        copies.push(block.copy(alloc)?)?;
    }
    Ok(copies)
}
