//! The objects in blocks, and the free cells.

use crate::machine::pointer::{Pointer, empty};
use control_word::Refusal;
use indexmap::IndexSet;
use std::alloc::Global;

/// What a block has: an object, with how many pointers own it and watch it, and what its members hold; or what is left
/// of one that is gone while weak pointers watch it. A vacant block has neither.
#[derive(Clone, Copy, PartialEq, Eq, Hash)]
pub(crate) struct Object {
    pub fields: [u64; 4],
    pub is_enabled: bool,
    pub is_null: bool,
    pub is_gone: bool,
    pub owners: u32,
    pub weaks: u32,
    pub members: [Pointer; 3],
}

/// What a vacant block has, and one whose object is gone but for the weak pointers.
pub(crate) fn gone(weaks: u32) -> Object {
    Object {
        fields: [0; 4],
        is_enabled: false,
        is_null: false,
        is_gone: true,
        owners: 0,
        weaks,
        members: [empty(); 3],
    }
}

impl Object {
    /// What a member holds.
    pub fn member(&self, member: u8) -> Pointer {
        match member {
            0 => self.members[0],
            1 => self.members[1],
            _ => self.members[2],
        }
    }

    /// The same object with this in a member.
    pub fn with_member(self, member: u8, pointer: Pointer) -> Object {
        let [first, next, up] = self.members;
        let members = match member {
            0 => [pointer, next, up],
            1 => [first, pointer, up],
            _ => [first, next, pointer],
        };
        Object { members, ..self }
    }

    /// The field with this number.
    pub fn field(&self, field: u8) -> u64 {
        match field {
            0 => self.fields[0],
            1 => self.fields[1],
            2 => self.fields[2],
            _ => self.fields[3],
        }
    }
}

/// All objects that were seen in any state, each once.
#[derive(Drop)]
pub(crate) struct Objects {
    seen: IndexSet<Object>,
}

/// What is in each block, from the second on, by numbers of objects, and in each free cell, the weak ones behind the
/// shared ones. Number 0 is that of a vacant block.
#[derive(Clone, PartialEq, Eq, Hash, Drop)]
pub(crate) struct Heap {
    pub blocks: Vec<u32>,
    pub cells: Vec<Pointer>,
}

impl Objects {
    pub fn new(alloc: Global) -> Result<Objects, Refusal> {
        let mut seen = IndexSet::new(alloc);
        seen.insert(gone(0))?;
        Ok(Objects { seen })
    }

    /// What is in a block. Blocks count from 1.
    pub fn get(&self, heap: &Heap, block: u32) -> Object {
        let index = (block as usize).saturating_sub(1);
        match heap.blocks.as_slice().get(index) {
            Some(number) => self.numbered(*number),
            None => gone(0),
        }
    }

    fn numbered(&self, number: u32) -> Object {
        match self.seen.get_index(number as usize) {
            Some(object) => *object,
            None => gone(0),
        }
    }

    /// Puts an object into a block.
    pub fn put(&mut self, heap: &mut Heap, block: u32, object: Object) -> Result<(), Refusal> {
        let (number, _) = self.seen.insert_full(object)?;
        let number = narrow(number)?;
        let index = (block as usize).saturating_sub(1);
        if index < heap.blocks.len() {
            heap.blocks[index] = number;
        }
        Ok(())
    }
}

/// A number of which there are fewer than 2^32.
pub(crate) fn narrow(number: usize) -> Result<u32, Refusal> {
    match u32::try_from(number) {
        Ok(number) => Ok(number),
        Err(_) => Err(Refusal::Limit),
    }
}
