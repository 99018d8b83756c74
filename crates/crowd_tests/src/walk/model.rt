//! What slots and cells have, and how many owners each object has.

use pointers::Fault;
use std::alloc::Global;

/// What a slot or a cell has, by the number of an object.
#[derive(Clone, Copy, PartialEq, Eq, Drop)]
pub(crate) enum Held {
    Nothing,
    Owner(usize),
    Weak(usize),
}

/// An object: how many owners it has, and the one that its member `first` owns, or 0.
#[derive(Clone, Copy, Drop)]
pub(crate) struct Node {
    pub owners: u64,
    pub first: usize,
}

/// Slots, cells and objects. Object 0 is nobody.
#[derive(Drop)]
pub(crate) struct Model {
    slots: Vec<Held>,
    /// Two for owners, and two for weak pointers.
    cells: Vec<Held>,
    pub objects: Vec<Node>,
    pub ended: u64,
}

pub(crate) const SLOTS: usize = 8;

pub(crate) const CELLS: usize = 4;

impl Model {
    /// Nothing anywhere.
    pub(crate) fn new(alloc: Global) -> Result<Model, Fault> {
        let mut objects = Vec::new(alloc);
        objects.push(Node {
            owners: 0,
            first: 0,
        })?;
        Ok(Model {
            slots: nothings(alloc, SLOTS)?,
            cells: nothings(alloc, CELLS)?,
            objects,
            ended: 0,
        })
    }

    /// How many objects ended by the last call.
    pub(crate) fn ended(&self) -> u64 {
        self.ended
    }

    /// What a slot has.
    pub(crate) fn at(&self, at: usize) -> Held {
        self.slots.get(at).copied().unwrap_or(Held::Nothing)
    }

    /// What a cell has.
    pub(crate) fn cell(&self, cell: usize) -> Held {
        self.cells.get(cell).copied().unwrap_or(Held::Nothing)
    }

    pub(crate) fn node(&self, object: usize) -> Node {
        let nobody = Node {
            owners: 0,
            first: 0,
        };
        self.objects.get(object).copied().unwrap_or(nobody)
    }

    /// A pointer more.
    pub(crate) fn comes(&mut self, held: Held) {
        if let Held::Owner(object) = held
            && let Some(node) = self.objects.get_mut(object)
        {
            node.owners = node.owners.saturating_add(1);
        }
    }

    /// A pointer less: the last owner ends its object, which lets go what it owns.
    pub(crate) fn goes(&mut self, held: Held) {
        let mut held = held;
        for _ in 0..u64::MAX {
            let Held::Owner(object) = held else {
                break;
            };
            let Some(node) = self.objects.get_mut(object) else {
                break;
            };
            node.owners = node.owners.saturating_sub(1);
            if node.owners > 0 || object == 0 {
                break;
            }
            held = owner(std::mem::replace(&mut node.first, 0));
            self.ended = self.ended.saturating_add(1);
        }
    }

    /// What has come lies in a slot, and what lay there lets go.
    pub(crate) fn put(&mut self, to: usize, held: Held) {
        let old = self.at(to);
        if let Some(slot) = self.slots.get_mut(to) {
            *slot = held;
        }
        self.goes(old);
    }

    /// The same of a cell.
    pub(crate) fn put_in(&mut self, cell: usize, held: Held) {
        let old = self.cell(cell);
        if let Some(slot) = self.cells.get_mut(cell) {
            *slot = held;
        }
        self.goes(old);
    }

    /// A slot is vacant: what it had.
    pub(crate) fn emptied(&mut self, at: usize) -> Held {
        let held = self.at(at);
        if let Some(slot) = self.slots.get_mut(at) {
            *slot = Held::Nothing;
        }
        held
    }

    /// How many objects live.
    pub(crate) fn living(&self) -> usize {
        self.objects.iter().filter(|node| node.owners > 0).count()
    }
}

/// An owner of an object, or nothing of nobody.
pub(crate) fn owner(object: usize) -> Held {
    if object == 0 {
        Held::Nothing
    } else {
        Held::Owner(object)
    }
}

fn nothings(alloc: Global, count: usize) -> Result<Vec<Held>, Fault> {
    let mut all = Vec::with_capacity(alloc, count)?;
    for _ in 0..count {
        all.push(Held::Nothing)?;
    }
    Ok(all)
}
