//! Calls by chance, each with what it is to answer.

use crate::chance::Chance;
use crate::walk::model::{CELLS, Held, Model, Node, SLOTS, owner};
use pointer_calls::{Answer, Cell, Form, Look, New, Pair, Row, Step, Way};
use pointers::Fault;

/// The model's cells: two for owners, and two for weak pointers.
const KINDS: [Cell; CELLS] = [
    Cell::Free(0),
    Cell::Place(1),
    Cell::Weak(0),
    Cell::WeakPlace(1),
];

/// How many objects live at one time at most, or have weak pointers.
const MOST: usize = 40;

impl Model {
    /// The next call, and what it is to answer.
    pub(crate) fn next(&mut self, chance: &mut Chance) -> Result<Row, Fault> {
        self.ended = 0;
        let (at, to) = (chance.slot(SLOTS), chance.slot(SLOTS));
        Ok(match chance.below(13) {
            0 | 1 => self.make(to)?,
            2 | 3 => self.come(chance, at, to),
            4 => self.drops(at),
            5 => self.look(chance, at),
            6 => self.both(at, to),
            7 => self.load(chance, to),
            8 => self.take(chance, to),
            9 => self.store(chance, at),
            10 => self.own(at, to),
            11 => self.compare(chance, at, to),
            _ => self.first_of(at, to),
        })
    }

    fn make(&mut self, to: usize) -> Result<Row, Fault> {
        if self.living() > MOST {
            return Ok(self.drops(to));
        }
        let object = self.objects.len();
        self.objects.push(Node {
            owners: 1,
            first: 0,
        })?;
        self.put(to, Held::Owner(object));
        Ok((Step::Make(New::Object, object as u64, to), Answer::Done))
    }

    /// A pointer of another.
    fn come(&mut self, chance: &mut Chance, at: usize, to: usize) -> Row {
        let shares = chance.below(2) == 0;
        let (way, held) = match self.at(at) {
            Held::Nothing => return self.drops(at),
            Held::Owner(object) if shares => (Way::Share, Held::Owner(object)),
            Held::Owner(object) => (Way::Downgrade, Held::Weak(object)),
            Held::Weak(object) if shares => (Way::Share, Held::Weak(object)),
            Held::Weak(object) if self.node(object).owners > 0 => (Way::Lock, Held::Owner(object)),
            Held::Weak(_) => (Way::Lock, Held::Nothing),
        };
        self.comes(held);
        self.put(to, held);
        (Step::Come(at, way, to), Answer::came(held != Held::Nothing))
    }

    fn drops(&mut self, at: usize) -> Row {
        let held = self.emptied(at);
        self.goes(held);
        (Step::Drop(at), Answer::came(held != Held::Nothing))
    }

    fn look(&mut self, chance: &mut Chance, at: usize) -> Row {
        let counts = chance.below(2) == 0;
        match self.at(at) {
            Held::Nothing => self.drops(at),
            Held::Owner(object) if !counts => {
                (Step::Look(at, Look::Read), Answer::Number(object as u64))
            }
            Held::Weak(object) if !counts => {
                let expired = self.node(object).owners == 0;
                (Step::Look(at, Look::Expired), Answer::Is(expired))
            }
            Held::Owner(object) | Held::Weak(object) => {
                let owners = self.node(object).owners;
                (Step::Look(at, Look::UseCount), Answer::Number(owners))
            }
        }
    }

    /// Whether two pointers are of one object.
    fn both(&mut self, a: usize, b: usize) -> Row {
        match (self.at(a), self.at(b)) {
            (Held::Owner(one), Held::Owner(other)) | (Held::Weak(one), Held::Weak(other)) => {
                (Step::Both(a, Pair::Is, b), Answer::Is(one == other))
            }
            _ => self.drops(b),
        }
    }

    fn load(&mut self, chance: &mut Chance, to: usize) -> Row {
        let cell = chance.slot(CELLS);
        let held = self.cell(cell);
        self.comes(held);
        self.put(to, held);
        let answer = Answer::came(held != Held::Nothing);
        (Step::Load(cell_of(cell), to), answer)
    }

    fn take(&mut self, chance: &mut Chance, to: usize) -> Row {
        let cell = chance.slot(CELLS);
        let held = self.cell(cell);
        self.comes(held);
        self.put_in(cell, Held::Nothing);
        self.put(to, held);
        let answer = Answer::came(held != Held::Nothing);
        (Step::Take(cell_of(cell), to), answer)
    }

    /// A store, or an exchange, into a cell for such pointers.
    fn store(&mut self, chance: &mut Chance, at: usize) -> Row {
        let number = chance.slot(2);
        let cell = match self.at(at) {
            Held::Weak(_) => number.saturating_add(2),
            _ => number,
        };
        let held = self.emptied(at);
        let exchanges = chance.below(2) == 0;
        if exchanges {
            let old = self.cell(cell);
            self.comes(old);
            self.put_in(cell, held);
            self.put(at, old);
            let answer = Answer::came(old != Held::Nothing);
            return (Step::Exchange(at, cell_of(cell)), answer);
        }
        self.put_in(cell, held);
        (Step::Store(at, cell_of(cell)), Answer::Done)
    }

    /// A compare of a cell with what lies in a slot, where what lies in another is desired.
    fn compare(&mut self, chance: &mut Chance, expected: usize, desired: usize) -> Row {
        let (hoped, new) = (self.at(expected), self.at(desired));
        let number = chance.slot(2);
        let cell = match (hoped, new) {
            _ if expected == desired => return self.drops(expected),
            (Held::Weak(_), Held::Owner(_)) => return self.drops(expected),
            (Held::Owner(_), Held::Weak(_)) => return self.drops(desired),
            (Held::Weak(_), _) | (_, Held::Weak(_)) => number.saturating_add(2),
            _ => number,
        };
        let found = self.cell(cell);
        let swaps = found == hoped;
        if swaps {
            self.emptied(desired);
            self.put_in(cell, new);
        } else {
            self.comes(found);
            self.put(expected, found);
        }
        let step = Step::Compare(Form::Strong, cell_of(cell), expected, desired);
        (step, Answer::Is(swaps))
    }

    /// An object owns an older one, by its member `first`.
    fn own(&mut self, at: usize, of: usize) -> Row {
        let (Held::Owner(older), Held::Owner(object)) = (self.at(at), self.at(of)) else {
            return self.drops(at);
        };
        if older >= object {
            return self.drops(at);
        }
        self.emptied(at);
        let mut old = 0;
        if let Some(node) = self.objects.get_mut(object) {
            old = std::mem::replace(&mut node.first, older);
        }
        self.goes(owner(old));
        (Step::Store(at, Cell::First(of)), Answer::Done)
    }

    /// What an object owns is loaded.
    fn first_of(&mut self, of: usize, to: usize) -> Row {
        let Held::Owner(object) = self.at(of) else {
            return self.drops(of);
        };
        let held = owner(self.node(object).first);
        self.comes(held);
        self.put(to, held);
        let answer = Answer::came(held != Held::Nothing);
        (Step::Load(Cell::First(of), to), answer)
    }
}

fn cell_of(cell: usize) -> Cell {
    KINDS.get(cell).copied().unwrap_or(Cell::Free(0))
}
