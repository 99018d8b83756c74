//! What faults are called.

use pointers::{Call, Fault, Refusal, Spot};
use std::alloc::Global;

/// Faults, and their texts.
const ROWS: [(Fault, &str); 15] = [
    (Fault::Busy(Call::Read), "read: busy, within a visit"),
    (
        Fault::Crowded(Call::Share),
        "share: crowded, no pointer is left to the desk",
    ),
    (
        Fault::Cell(Call::Load(Spot::Shared(7))),
        "load of shared cell 7: no such cell",
    ),
    (
        Fault::Cell(Call::Store(Spot::Weak(7))),
        "store of weak cell 7: no such cell",
    ),
    (
        Fault::Member(Call::Load(Spot::Owner(9))),
        "load of owner 9: no such member",
    ),
    (
        Fault::Member(Call::Exchange(Spot::WeakMember(2))),
        "exchange of weak 2: no such member",
    ),
    (Fault::Place(Call::Alias), "alias: no such place"),
    (
        Fault::Refused(Call::Exchange(Spot::Owner(0)), Refusal::Null),
        "exchange of member first: null",
    ),
    (
        Fault::Refused(Call::Clear(Spot::Owner(1)), Refusal::Outside),
        "clear of member next: outside",
    ),
    (
        Fault::Refused(Call::CompareExchange(Spot::WeakMember(0)), Refusal::Limit),
        "compare_exchange of member up: limit",
    ),
    (Fault::Refused(Call::Make, Refusal::Full), "make: full"),
    (
        Fault::Busy(Call::Unshelve),
        "unshelve: busy, within a visit",
    ),
    (Fault::Memory, "no memory"),
    (Fault::Output, "input or output failed"),
    (Fault::Other(3), "fault 3"),
];

/// The text of a fault.
fn text(alloc: Global, fault: Fault) -> Option<String> {
    format!(in alloc; "{fault}").ok()
}

/// Whether a fault is a refusal for this reason alone.
fn is_bad_weak(fault: Fault) -> bool {
    fault.is_refusal(Refusal::BadWeak) && !fault.is_refusal(Refusal::Full)
}

#[cfg(test)]
mod tests {
    use super::*;

    #[test]
    fn a_refusal_is_told_apart(rt: HostRuntime) {
        let why = Fault::Refused(Call::Upgrade, Refusal::BadWeak);
        assert_eq!(rt;
            (is_bad_weak(why), is_bad_weak(Fault::Memory)),
            (true, false)
        );
    }

    #[test]
    fn a_fault_tells_its_call(rt: HostRuntime) {
        for (fault, wanted) in &ROWS {
            match text(rt.alloc(), *fault) {
                Some(text) => assert_eq!(rt; text.as_str(), *wanted),
                None => panic!(rt; "no memory"),
            }
        }
    }
}
