//! A list in blocks, made of its members one by one.
ghost use Rattle.std.specs.Prelude.{◌≡◌, ◌++◌, ◌∷◌, [], IfOk, OnOk};
ghost use Rattle.block_list.specs.Fillings.{IsClosing, IsFilling, filled};

use crate::block_list::{BLOCK_SIZE, BlockList};
use std::alloc::Global;
use std::mem;
use xc_base::{List, Memory, Shared};

/// A list in the making: whole blocks, and the members behind them, fewer than a block has.
#[derive(Drop)]
pub struct Filling<T> {
    pub(crate) whole: BlockList<T>,
    pub(crate) rest: List<T>,
}

impl<T: Drop> Filling<T> {
    /// No members yet. It takes no memory.
    fn new(alloc: Global) -> Filling<T>
        ensures filling { IsFilling result }
        ensures none { filled result ≡ [] }
    {
        Filling {
            whole: BlockList::new(alloc),
            rest: List::new(alloc),
        }
    }

    /// Makes a block of the members behind the whole ones, where they are as many as one has. It answers want of memory where
    /// there is none.
    fn close_block(&mut self, alloc: Global) -> Result<(), Memory>
        requires { IsClosing self.old }
        ensures filling { OnOk result (IsFilling self.new) }
        ensures same { OnOk result (filled self.new ≡ filled self.old) }
    {
        if self.rest.len() == BLOCK_SIZE {
            let block = mem::replace(&mut self.rest, List::new(alloc));
            self.whole.push_block(Shared::new(alloc, block)?)?;
        }
        Ok(())
    }

    /// Adds a member at the end. It answers want of memory where there is none.
    fn push(&mut self, alloc: Global, member: T) -> Result<(), Memory>
        requires { IsFilling self.old }
        ensures filling { OnOk result (IsFilling self.new) }
        ensures pushed { OnOk result (filled self.new ≡ filled self.old ++ member ∷ []) }
    {
        self.rest.push(member)?;
        self.close_block(alloc)
    }

    /// The list of all members. It answers want of memory where there is none.
    fn finish(self, alloc: Global) -> Result<BlockList<T>, Memory>
        requires { IsFilling self }
        ensures { IfOk result (λ list. list ≡ filled self) }
    {
        let Filling { mut whole, rest } = self;
        if !rest.is_empty() {
            whole.push_block(Shared::new(alloc, rest)?)?;
        }
        Ok(whole)
    }
}

/// The list of these members, in blocks. It answers want of memory where there is none.
pub fn in_blocks<T: Drop>(alloc: Global, members: List<T>) -> Result<BlockList<T>, Memory>
    ensures { IfOk result (λ list. list ≡ members) }
{
    let mut filling = Filling::new(alloc);
    for member in members.into_vec() {
        filling.push(alloc, member)?;
    }
    filling.finish(alloc)
}
