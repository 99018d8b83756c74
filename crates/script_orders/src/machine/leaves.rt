//! How pointers come and go, and how objects end.

use crate::machine::heap::{Object, Objects, gone};
use crate::machine::line::Line;
use crate::machine::pointer::{Hold, Pointer, empty};
use crate::machine::position::End;
use crate::machine::turn::Turn;
use control_word::Refusal;

/// What an object leaves that ends.
fn remains(object: &Object) -> Line {
    if object.is_null {
        Line::EndedNull
    } else {
        Line::Ended(object.fields)
    }
}

impl Turn {
    /// There is a pointer more like this one.
    pub fn share(&mut self, objects: &mut Objects, pointer: Pointer) -> Result<(), Refusal> {
        let Some(block) = pointer.block() else {
            return Ok(());
        };
        let mut object = objects.get(&self.heap, block);
        match pointer.hold {
            Hold::Owner(_) => object.owners = object.owners.saturating_add(1),
            Hold::Nothing | Hold::Weak(_) => object.weaks = object.weaks.saturating_add(1),
        }
        objects.put(&mut self.heap, block, object)
    }

    /// A pointer leaves. Where it was the last owner, its object begins to end; where it was the last that watched one
    /// that is gone, the block is vacant.
    pub fn leave(
        &mut self,
        objects: &mut Objects,
        pointer: Pointer,
        statement: u32,
    ) -> Result<(), Refusal> {
        match pointer.hold {
            Hold::Nothing => Ok(()),
            Hold::Owner(block) => self.leave_owner(objects, block, statement),
            Hold::Weak(block) => self.leave_weak(objects, block),
        }
    }

    fn leave_owner(
        &mut self,
        objects: &mut Objects,
        block: u32,
        statement: u32,
    ) -> Result<(), Refusal> {
        let mut object = objects.get(&self.heap, block);
        object.owners = object.owners.saturating_sub(1);
        if object.owners == 0 {
            self.tell(statement, remains(&object));
            self.standing.ends.push(End {
                block,
                stage: 0,
                statement,
            })?;
        }
        objects.put(&mut self.heap, block, object)
    }

    fn leave_weak(&mut self, objects: &mut Objects, block: u32) -> Result<(), Refusal> {
        let mut object = objects.get(&self.heap, block);
        object.weaks = object.weaks.saturating_sub(1);
        if object.is_gone && object.weaks == 0 {
            self.standing.store.put(block)?;
        }
        objects.put(&mut self.heap, block, object)
    }

    /// What came out of a member of an object that ends leaves.
    pub fn leave_carried(&mut self, objects: &mut Objects) -> Result<(), Refusal> {
        let statement = match self.standing.ends.as_slice().last() {
            Some(end) => end.statement,
            None => 0,
        };
        let pointer = self.standing.let_go();
        self.leave(objects, pointer, statement)
    }

    /// Ends of objects go on, the one begun last first, until they are over, or what came out of a member is in hand.
    pub fn rest(&mut self, objects: &mut Objects) -> Result<(), Refusal> {
        for _ in 0..self.standing.ends.len().saturating_mul(4) {
            if self.standing.hand.is_full() {
                return Ok(());
            }
            let Some(end) = self.standing.ends.pop() else {
                return Ok(());
            };
            if end.stage < 3 {
                self.empty_member(objects, end)?;
            } else {
                self.finish(objects, end.block)?;
            }
        }
        Ok(())
    }

    /// What a member holds comes out, into the hand if it has an object.
    fn empty_member(&mut self, objects: &mut Objects, end: End) -> Result<(), Refusal> {
        let object = objects.get(&self.heap, end.block);
        let held = object.member(end.stage);
        self.standing.ends.push(End {
            stage: end.stage.saturating_add(1),
            ..end
        })?;
        if held.is_full() {
            self.standing.hand = held;
        }
        let object = object.with_member(end.stage, empty());
        objects.put(&mut self.heap, end.block, object)
    }

    /// An object is gone; its block is vacant where nothing watches it.
    fn finish(&mut self, objects: &mut Objects, block: u32) -> Result<(), Refusal> {
        let object = objects.get(&self.heap, block);
        if object.weaks == 0 {
            self.standing.store.put(block)?;
        }
        objects.put(&mut self.heap, block, gone(object.weaks))
    }
}
