//! A map at a concrete type: what a caller knows at each call.
ghost use Rattle.std.specs.Prelude.{◌≡◌};

use crate::{Blank, Ghost, GhostEntry, GhostMap, Named, Tells, TellsPair};
use std::marker::Brand;

struct Itself;

impl Tells<u64, u64> for Itself {
    ghost told = { λ x. x };
}

struct Second;

impl TellsPair<u64, u64, u64> for Second {
    ghost told = { λ _ y. y };
}

/// A number, and an entry that says it.
struct Kept<N: Named> {
    number: u64,
    entry: GhostEntry<N, u64>,
    ghost says: { entry.value ≡ number },
}

fn keep<N: Named>(map: &mut GhostMap<N, u64>, number: u64) -> Kept<N>
    ensures { result.number ≡ number }
{
    let entry = map.insert(Ghost::of::<u64, Itself>(&number));
    Kept { number, entry }
}

fn keep_second<N: Named>(map: &mut GhostMap<N, u64>, first: u64, second: u64) -> Kept<N>
    ensures { result.number ≡ second }
{
    let entry = map.insert(Ghost::of_pair::<u64, u64, Second>(&first, &second));
    Kept {
        number: second,
        entry,
    }
}

/// Two entries at one place of a map say the same.
fn agree<N: Named>(map: &mut GhostMap<N, u64>, one: &Kept<N>, two: &Kept<N>)
    requires { one.now.entry.at ≡ two.now.entry.at }
    ensures { one.now.number ≡ two.now.number }
{
    map.look(&one.entry);
    map.look(&two.entry);
}

fn end<N: Named>(map: &mut GhostMap<N, u64>, kept: Kept<N>) -> u64
    ensures { result ≡ kept.number }
{
    let Kept { number, entry } = kept;
    map.remove(entry);
    number
}

fn sum_of_two<N: Named>(blank: Blank) -> u64
    requires { blank.name ≡ N.name }
    ensures { result ≡ 12 }
{
    let mut map = blank.open::<N, u64>();
    let five = keep(&mut map, 5);
    let seven = keep_second(&mut map, 6, 7);
    agree(&mut map, &five, &five);
    end(&mut map, five) + end(&mut map, seven)
}

#[test]
fn entries_end_one_by_one(rt: HostRuntime) {
    assert!(&rt; sum_of_two::<Brand>(Blank::new()) == 12);
}
