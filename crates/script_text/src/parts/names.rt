//! The names of a thread, numbered in the order of their declarations.

use crate::fault::{Cause, Stop};
use crate::words::word::name_of;
use indexmap::IndexMap;
use std::alloc::{AllocError, Global};
use std::marker::Model;
use step_core::{Kind, Name};
use step_table::limits::SCRIPT_NAMES;

/// How many names a thread has at most.
const NAMES: usize = SCRIPT_NAMES as usize;

/// The names of a thread with their kinds.
/// A clause sees a list of them, in which a name's place is its number.
#[derive(Drop)]
pub(crate) struct Names {
    table: IndexMap<String, Kind>,
}

impl Model for Names {
    ghost use Rattle.std.specs.Prelude.{◌≤◌, length};
    ghost use Rattle.script_text.specs.Names.{NameList, names_in};

    ghost Value = { NameList };

    ghost view = { λ names. names_in names.table.entries };

    ghost invariant = { λ names. length names.table.entries ≤ 32 };
}

impl Names {
    ghost use Rattle.std.specs.Prelude.{◌≡◌, [], IfOk, map};
    ghost use Rattle.text_lines.specs.Reading.{Gives};
    ghost use Rattle.script_text.specs.Names.{find_name, source_at, any_source_at, asked_source_at};
    ghost use Rattle.script_text.specs.Names.{target_at, declared, name_text};

    pub(crate) fn new(alloc: Global) -> Names
        ensures { result ≡ [] }
    {
        Names {
            table: IndexMap::new(alloc),
        }
    }

    /// A name's number and kind.
    fn find(&self, name: &str) -> Option<(u8, Kind)>
        ensures { result ≡ find_name name.now self.now }
    {
        let (number, _, kind) = self.table.get_full(name)?;
        Some((number as u8, *kind))
    }

    /// The name that a statement reads.
    #[tactic(auto, unfolding(crate::specs::Names::source_at))]
    pub(crate) fn source(&self, kind: Kind, word: &[u8]) -> Result<Name, Stop>
        ensures { Gives (λ n. n) result (source_at self.now kind word.now) }
    {
        let name = name_of(word)?;
        match (self.find(name), kind) {
            (None, _) => Err(Stop::Cause(Cause::UnknownName)),
            (Some((number, Kind::Owner)), Kind::Owner) => Ok(Name(number)),
            (Some((number, Kind::Weak)), Kind::Weak) => Ok(Name(number)),
            (Some(_), _) => Err(Stop::Cause(Cause::WrongKindOfName)),
        }
    }

    /// The same, where a name of either kind will do.
    #[tactic(auto, unfolding(crate::specs::Names::any_source_at))]
    fn any_source(&self, word: &[u8]) -> Result<Name, Stop>
        ensures { Gives (λ n. n) result (any_source_at self.now word.now) }
    {
        let name = name_of(word)?;
        match self.find(name) {
            None => Err(Stop::Cause(Cause::UnknownName)),
            Some((number, _)) => Ok(Name(number)),
        }
    }

    /// The name that a statement reads, of the kind that is asked for, if one is.
    pub(crate) fn asked_source(&self, asked: Option<Kind>, word: &[u8]) -> Result<Name, Stop>
        ensures { Gives (λ n. n) result (asked_source_at self.now asked word.now) }
    {
        match asked {
            None => self.any_source(word),
            Some(kind) => self.source(kind, word),
        }
    }

    /// The name that a statement writes: a new one, or one of this kind.
    #[tactic(auto, unfolding(crate::specs::Names::target_at))]
    pub(crate) fn target<'a>(&self, kind: Kind, word: &'a [u8]) -> Result<&'a str, Stop>
        ensures { Gives (λ s. s.now) result (target_at self.now kind word.now) }
    {
        let name = name_of(word)?;
        match (self.find(name), kind) {
            (None, _) => Ok(name),
            (Some((_, Kind::Owner)), Kind::Owner) => Ok(name),
            (Some((_, Kind::Weak)), Kind::Weak) => Ok(name),
            (Some(_), _) => Err(Stop::Cause(Cause::WrongKindOfName)),
        }
    }

    /// A target, which is declared if it is new.
    #[tactic(auto, unfolding(crate::specs::Names::declared))]
    pub(crate) fn declare(&mut self, alloc: Global, kind: Kind, name: &str) -> Result<Name, Stop>
        ensures { Gives (λ n. (n, self.new)) result (declared self.old kind name.now) }
    {
        if let Some((number, _)) = self.find(name) {
            return Ok(Name(number));
        }
        let number = self.table.len();
        if number >= NAMES {
            return Err(Stop::Cause(Cause::TooManyNames));
        }
        let name = String::from_str(alloc, name)?;
        self.table.insert(name, kind)?;
        Ok(Name(number as u8))
    }

    pub(crate) fn copy(&self) -> Result<Names, AllocError>
        ensures { IfOk result (λ names. names ≡ self.now) }
    {
        let table = self.table.clone()?;
        Ok(Names { table })
    }

    /// How a name is spelled.
    pub(crate) fn text(&self, name: Name) -> &str
        ensures { result.now ≡ name_text self.now name }
    {
        match self.table.get_index(usize::from(name.0)) {
            Some((text, _)) => text.as_str(),
            None => "",
        }
    }

    /// The kinds of the names, by their numbers.
    pub(crate) fn kinds(&self, alloc: Global) -> Result<Vec<Kind>, AllocError>
        ensures { IfOk result (λ kinds. kinds.items ≡ map (λ name. name.1) self.now) }
    {
        self.table.values().copied().collect(alloc)
    }
}
