//! Calls over numbered names, and the programs that they make.
ghost use Rattle.std.specs.Prelude.{◌≡◌};
ghost use Rattle.step_threads.specs.Programs.{is_member_of, kind_at};

pub use control_word::model::handle::Kind;
use control_word::place::Block;
use step_table::memory::field::Field;

/// A name of an actor by its number: its place, from 0, in the order of the declarations.
#[derive(Clone, Copy, Debug, PartialEq, Eq)]
pub struct Name(pub u8);

/// A cell: an `atomic<shared_ptr>` or an `atomic<weak_ptr>`. A free one has its number, from 0, among those of its
/// kind; a member is one of the object that a name owns and points into: 0 and 1 are shared, 2 is weak.
#[derive(Clone, Copy, Debug, PartialEq, Eq)]
pub enum CellName {
    Shared(u8),
    Weak(u8),
    Member { name: Name, member: u8 },
}

impl CellName {
    /// The kind of what the cell holds, and of the names whose values go into it.
    ///
    /// ISO/IEC 14882:2020 [util.smartptr.atomic.shared], [util.smartptr.atomic.weak].
    pub fn kind(self) -> Kind
        ensures { result ≡ kind_at self }
    {
        match self {
            CellName::Shared(_) => Kind::Owner,
            CellName::Weak(_) => Kind::Weak,
            CellName::Member { member, .. } => { if member < 2 { Kind::Owner } else { Kind::Weak } }
        }
    }

    /// Whether the cell is a member of what the name owns (own).
    pub fn is_member_of(self, owner: Name) -> bool
        ensures { result ≡ is_member_of self owner }
    {
        match self {
            CellName::Member { name, .. } => name == owner,
            CellName::Shared(_) | CellName::Weak(_) => false,
        }
    }
}

/// What one statement asks for.
#[derive(Clone, Copy)]
pub enum Call {
    /// A new object with these fields; the target owns it.
    Make {
        target: Name,
        fields: [u64; 4],
    },
    /// The same with the from-this flag: the object gives pointers to itself ([util.smartptr.enab]).
    MakeThis {
        target: Name,
        fields: [u64; 4],
    },
    /// The target owns a null pointer ([util.smartptr.shared.const], from `nullptr` and a deleter).
    Null {
        target: Name,
    },
    /// The target becomes empty.
    Empty {
        target: Name,
    },
    /// The name becomes empty.
    Reset {
        name: Name,
    },
    /// The target shares what the source owns ([util.smartptr.shared.assign]).
    Copy {
        target: Name,
        source: Name,
    },
    /// The target becomes what the source was, and the source becomes empty, unless it is the target
    /// ([util.smartptr.shared.assign], from an rvalue).
    Move {
        target: Name,
        source: Name,
    },
    /// The target shares what the source owns, and points at this field of what `of` points into; at null where `of`
    /// does ([util.smartptr.shared.const], the aliasing constructor).
    Alias {
        target: Name,
        source: Name,
        of: Name,
        field: Field,
    },
    /// The target shares what the source owns, and points at null.
    AliasNull {
        target: Name,
        source: Name,
    },
    /// How many shared pointers share ownership ([util.smartptr.shared.obs], `use_count`).
    Count {
        name: Name,
    },
    /// The target shares ownership with the owner, as a weak pointer ([util.smartptr.weak.const]).
    Weak {
        target: Name,
        source: Name,
    },
    /// The target shares what the weak source shares ([util.smartptr.weak.assign]).
    WeakCopy {
        target: Name,
        source: Name,
    },
    /// The weak target becomes empty.
    WeakEmpty {
        target: Name,
    },
    /// The weak name becomes empty ([util.smartptr.weak.mod], `reset`).
    WeakReset {
        name: Name,
    },
    /// The target becomes an owner of the weak source's object if an owner remains, and else empty
    /// ([util.smartptr.weak.obs], `lock`).
    Lock {
        target: Name,
        source: Name,
    },
    /// The same, but refused where no owner remains ([util.smartptr.shared.const], `bad_weak_ptr`).
    Upgrade {
        target: Name,
        source: Name,
    },
    /// How many shared pointers share ownership, by a weak pointer ([util.smartptr.weak.obs], `use_count`).
    WeakCount {
        name: Name,
    },
    /// Whether no shared pointer shares ownership ([util.smartptr.weak.obs], `expired`).
    Expired {
        name: Name,
    },
    /// The target owns the object that the source points into and owns ([util.smartptr.enab], `shared_from_this`).
    This {
        target: Name,
        source: Name,
    },
    /// The same as a weak pointer ([util.smartptr.enab], `weak_from_this`).
    WeakThis {
        target: Name,
        source: Name,
    },
    /// The field that an owner points at ([util.smartptr.shared.obs], `operator*`).
    Read {
        name: Name,
    },
    /// Where an owner points ([util.smartptr.shared.obs], `get`).
    Place {
        name: Name,
    },
    /// Whether two owners point at one place ([util.smartptr.shared.cmp], `operator==`).
    Same {
        first: Name,
        second: Name,
    },
    /// Whether the first, a name of either kind, comes before the second by what they own
    /// ([util.smartptr.shared.obs], `owner_before`).
    Before {
        first: Name,
        second: Name,
    },
    /// The cell becomes what the source is; what it was is left ([util.smartptr.atomic.shared],
    /// [util.smartptr.atomic.weak], `store`).
    Store {
        cell: CellName,
        source: Name,
    },
    /// The cell becomes what the name was, and the name what the cell was ([util.smartptr.atomic.shared],
    /// [util.smartptr.atomic.weak], `exchange`).
    Exchange {
        cell: CellName,
        name: Name,
    },
    /// The target becomes what the cell is, which stays as it is ([util.smartptr.atomic.shared],
    /// [util.smartptr.atomic.weak], `load`).
    Load {
        target: Name,
        cell: CellName,
    },
    /// Where the cell is equivalent to `expected`, that is, where it stores the same place and shares the same
    /// ownership or both own nothing, it becomes what `desired` is, and what it was is left. Else `expected` becomes
    /// what the cell is. It answers which ([util.smartptr.atomic.shared], [util.smartptr.atomic.weak],
    /// `compare_exchange_strong`, and `compare_exchange_weak` where it is `weak`: that might also answer no on an
    /// equivalent value, but doesn't here).
    Compare {
        cell: CellName,
        expected: Name,
        desired: Name,
        weak: bool,
    },
    /// Whether the cell is equivalent to the name, as `Compare` compares: whether `load` would give what the name is
    /// ([util.smartptr.atomic.shared], [util.smartptr.atomic.weak]; own).
    Holds {
        cell: CellName,
        name: Name,
    },
    /// So many vacant blocks of the actor's store go to the shelf, or all where it has fewer, each by an act of its
    /// own. It says nothing, and no statement of the script language asks for it (own).
    Shelve {
        count: u16,
    },
    /// This block comes from the shelf into the actor's store, if it is there. It says nothing, and no statement of the
    /// script language asks for it (own).
    Unshelve {
        block: Block,
    },
}

/// An actor: the kinds of its names, by their numbers, and its calls in order.
#[derive(Drop)]
pub struct Actor {
    pub kinds: Vec<Kind>,
    pub calls: Vec<Call>,
}

/// The actors, of which the first has number 1.
#[derive(Drop)]
pub struct Program {
    pub actors: Vec<Actor>,
}
