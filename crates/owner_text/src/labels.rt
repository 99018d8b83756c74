//! Labels, numbered in the order in which they first come.

use crate::fault::Stop;
use indexmap::IndexMap;
use std::alloc::Global;
use std::marker::Model;

/// How many labels are numbered at most.
const MOST_LABELS: usize = 4_000_000_000;

/// Labels. A clause sees a list of them, in which a label's place is its number.
#[derive(Drop)]
pub(crate) struct Labels {
    table: IndexMap<String, ()>,
}

impl Model for Labels {
    ghost use Rattle.std.specs.Prelude.{ℕ, List};
    ghost use Rattle.owner_text.specs.Labels.{labels_in};

    ghost Value = { List (List ℕ) };

    ghost view = { λ labels. labels_in labels.table.entries };
}

impl Labels {
    ghost use Rattle.std.specs.Prelude.{◌≡◌, [], None, Ok};
    ghost use Rattle.owner_text.specs.Prelude.{Gives};
    ghost use Rattle.owner_text.specs.Labels.{find_label, label_text, with_label};

    pub(crate) fn new(alloc: Global) -> Labels
        ensures { result ≡ [] }
    {
        Labels {
            table: IndexMap::new(alloc),
        }
    }

    /// A label's number.
    fn find(&self, label: &str) -> Option<usize>
        ensures { result ≡ find_label label.now self.now }
    {
        self.table.get_index_of(label)
    }

    /// Adds a label that isn't there yet, as the last.
    fn add(&mut self, alloc: Global, label: &str) -> Result<u32, Stop>
        requires { find_label label.now self.old ≡ None }
        ensures { Gives (λ n. (n, self.new)) result (Ok (with_label label.now self.old)) }
    {
        let number = self.table.len();
        if number >= MOST_LABELS {
            return Err(Stop::Memory);
        }
        let label = String::from_str(alloc, label)?;
        self.table.insert(label, ())?;
        Ok(number as u32)
    }

    /// The number of a label, which is added if it is new.
    pub(crate) fn number(&mut self, alloc: Global, label: &str) -> Result<u32, Stop>
        ensures { Gives (λ n. (n, self.new)) result (Ok (with_label label.now self.old)) }
    {
        match self.find(label) {
            Some(number) if number < MOST_LABELS => Ok(number as u32),
            Some(_) => Err(Stop::Memory),
            None => self.add(alloc, label),
        }
    }

    /// The label with a number; an empty text where there are fewer.
    pub(crate) fn text(&self, number: u32) -> &str
        ensures { result.now ≡ label_text self.now number }
    {
        match self.table.get_index(number as usize) {
            Some((label, _)) => label.as_str(),
            None => "",
        }
    }
}
