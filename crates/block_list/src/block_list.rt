//! A list in blocks.
ghost use Rattle.std.specs.Prelude.{◌≡◌, ◌<◌, ◌≤◌, ◌*◌, ◌%◌, ◌^◌, ◌++◌, [], length, take, drop, slice_get, option_map, Some, None, IfOk, IfSome, OnOk};

use std::alloc::Global;
use std::marker::Model;
use xc_base::{List, Memory, Shared};

/// How many members a block has, but the last one, which has one at least.
pub const BLOCK_SIZE: usize = 32;

/// A list whose members lie in blocks. A list that differs from it in a few members shares the other blocks. Contracts see it
/// as the list of its members.
#[derive(Drop)]
pub struct BlockList<T> {
    blocks: List<Shared<List<T>>>,
}

impl<T> Model for BlockList<T> {
    ghost use Rattle.std.specs.Prelude.{List};
    ghost use Rattle.block_list.specs.Blocks.{AreBlocks, members_of};

    ghost Value = { List T };

    ghost view = { λ l. members_of l.blocks };

    ghost invariant = { λ l. AreBlocks l.blocks };
}

/// The member at a place, from 0; none where there is no such place.
fn member_at<T>(members: &[T], place: usize) -> Option<&T>
    ensures { option_map (λ r. r.now) result ≡ slice_get members.now place }
{
    members.get(place)
}

impl<T: Drop> BlockList<T> {
    /// The empty list, which takes no memory.
    pub fn new(alloc: Global) -> BlockList<T>
        ensures { result ≡ [] }
    {
        BlockList {
            blocks: List::new(alloc),
        }
    }

    /// How many members it has.
    pub fn len(&self) -> usize
        requires { length self.now < 2 ^ 63 }
        ensures { result ≡ length self.now }
    {
        match self.blocks.as_slice().split_last() {
            Some((last, whole)) => BLOCK_SIZE * whole.len() + last.get().len(),
            None => 0,
        }
    }

    /// The member at a place, from 0; none where there is no such place.
    pub fn get(&self, place: usize) -> Option<&T>
        ensures { option_map (λ r. r.now) result ≡ slice_get self.now place }
    {
        let block = member_at(self.blocks.as_slice(), place / BLOCK_SIZE)?;
        member_at(block.get().as_slice(), place % BLOCK_SIZE)
    }

    /// The member at a place, from 0.
    pub fn at(&self, place: usize) -> &T
        requires { place < length self.now }
        ensures { slice_get self.now place ≡ Some result.now }
    {
        match self.get(place) {
            Some(member) => member,
            None => unreachable!(),
        }
    }

    /// The block of a number, from 0, which begins at the place that is 32 times as much; none where there is no such block.
    pub fn block(&self, number: usize) -> Option<&Shared<List<T>>>
        ensures members { IfSome result (λ b. b.now ≡ take 32 (drop (32 * number) self.now)) }
        ensures none { result ≡ None → length self.now ≤ 32 * number }
    {
        self.blocks.as_slice().get(number)
    }

    /// Adds a block at the end, behind whole ones. It answers want of memory where there is none.
    pub fn push_block(&mut self, block: Shared<List<T>>) -> Result<(), Memory>
        requires whole { length self.old % 32 ≡ 0 }
        requires some { 0 < length block }
        requires most { length block ≤ 32 }
        ensures { OnOk result (self.new ≡ self.old ++ block) }
    {
        self.blocks.push(block)?;
        Ok(())
    }

    /// The same list once more, which shares all blocks.
    pub fn share(&self, alloc: Global) -> Result<BlockList<T>, Memory>
        ensures { IfOk result (λ l. l ≡ self.now) }
    {
        let mut blocks = List::from_vec(Vec::with_capacity(alloc, self.blocks.len())?);
        for block in self.blocks.as_slice() {
            blocks.push(block.share()?)?;
        }
        Ok(BlockList { blocks })
    }
}
