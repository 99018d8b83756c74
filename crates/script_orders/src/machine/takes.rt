//! Acts that take a value into the hand.

use crate::machine::heap::{Object, Objects};
use crate::machine::line::Line;
use crate::machine::pointer::{Hold, Pointer, aliased, empty, first_field, without_object};
use crate::machine::turn::Turn;
use control_word::Refusal;
use step_core::{Field, Kind};
use step_table::memory::form::Form;

impl Turn {
    /// Takes a pointer more, like this one.
    fn take_more(&mut self, objects: &mut Objects, pointer: Pointer) -> Result<(), Refusal> {
        self.standing.take(pointer);
        self.share(objects, pointer)
    }

    /// A new object, which is owned by what is in hand. Refused without a vacant block.
    pub fn make(
        &mut self,
        objects: &mut Objects,
        statement: u32,
        form: Form,
    ) -> Result<(), Refusal> {
        let Some(block) = self.standing.store.take_least() else {
            self.refuse(statement, Refusal::Full);
            return Ok(());
        };
        let fields = form.fields;
        let object = Object {
            fields,
            is_enabled: form.enabled,
            is_null: form.null,
            is_gone: false,
            owners: 1,
            weaks: 0,
            members: [empty(); 3],
        };
        let spot = if form.null { None } else { first_field(block) };
        self.standing.take(Pointer {
            hold: Hold::Owner(block),
            spot,
        });
        objects.put(&mut self.heap, block, object)
    }

    /// A copy of what a name holds.
    pub fn copy(&mut self, objects: &mut Objects, name: u8) -> Result<(), Refusal> {
        let pointer = self.standing.name(name);
        self.take_more(objects, pointer)
    }

    /// A weak pointer to what a name owns.
    pub fn downgrade(&mut self, objects: &mut Objects, name: u8) -> Result<(), Refusal> {
        let pointer = self.standing.name(name);
        let weak = match pointer.block() {
            Some(block) => Pointer {
                hold: Hold::Weak(block),
                spot: pointer.spot,
            },
            None => empty(),
        };
        self.take_more(objects, weak)
    }

    /// An owner of what a name owns, that points at a field of what another points into.
    pub fn alias(
        &mut self,
        objects: &mut Objects,
        name: u8,
        of: u8,
        field: Option<Field>,
    ) -> Result<(), Refusal> {
        let spot = aliased(field, self.standing.name(of).spot);
        let alias = match self.standing.name(name).owned() {
            Some(block) => Pointer {
                hold: Hold::Owner(block),
                spot,
            },
            None => without_object(spot),
        };
        self.take_more(objects, alias)
    }

    /// What a name holds, which becomes empty.
    pub fn pull(&mut self, name: u8) {
        let pointer = self.standing.name(name);
        self.standing.set_name(name, empty());
        self.standing.take(pointer);
    }

    /// An owner of what a name watches, if one is left. Where it must, it is refused without one.
    pub fn lock(
        &mut self,
        objects: &mut Objects,
        statement: u32,
        name: u8,
        must: bool,
    ) -> Result<(), Refusal> {
        let pointer = self.standing.name(name);
        match pointer.watched() {
            Some(block) if objects.get(&self.heap, block).owners > 0 => {
                let line = if must {
                    Line::Upgraded
                } else {
                    Line::Locked(true)
                };
                self.tell(statement, line);
                let owner = Pointer {
                    hold: Hold::Owner(block),
                    spot: pointer.spot,
                };
                self.take_more(objects, owner)
            }
            _ => {
                self.lock_nothing(statement, must);
                Ok(())
            }
        }
    }

    fn lock_nothing(&mut self, statement: u32, must: bool) {
        if must {
            self.refuse(statement, Refusal::BadWeak);
        } else {
            self.tell(statement, Line::Locked(false));
            self.standing.has_taken = true;
        }
    }

    /// A pointer that an object gives to itself.
    pub fn from_this(
        &mut self,
        objects: &mut Objects,
        statement: u32,
        name: u8,
        kind: Kind,
    ) -> Result<(), Refusal> {
        let Some(spot) = self.standing.name(name).inside() else {
            self.refuse_outside(statement, name);
            return Ok(());
        };
        if !objects.get(&self.heap, spot.block).is_enabled {
            self.refuse(statement, Refusal::NotEnabled);
            return Ok(());
        }
        let hold = match kind {
            Kind::Owner => Hold::Owner(spot.block),
            Kind::Weak => Hold::Weak(spot.block),
        };
        self.take_more(
            objects,
            Pointer {
                hold,
                spot: first_field(spot.block),
            },
        )
    }
}
