//! Rows of the counts' words, and each half at its limits.
ghost use Rattle.std.specs.Prelude.{◌≡◌};
ghost use Rattle.control_word.specs.Packing.{count_bits};

use crate::same::same;
use control_word::packed::counts::{
    Count, Counts, FUND_TURNED, ONE_FUND, is_last, unpack_count, use_count_of, with_fund_turned,
    with_funds, with_handle, without_funds, without_handle,
};

/// The word of a count: the number in its low half, the funds in its high half.
fn packed(count: Count) -> u64
    ensures { result ≡ count_bits count }
{
    u64::from(count.number) | u64::from(count.funds) << 32
}

#[test]
fn counts_have_their_words(rt: HostRuntime) {
    let full = Count {
        number: 1,
        funds: 256,
    };
    let turned = Count {
        number: 2,
        funds: 255,
    };
    let word = packed(full);
    let words = [word, packed(turned), with_fund_turned(word)];
    let wanted = [1_099_511_627_777, 1_095_216_660_482, 1_095_216_660_482];
    same(
        &rt,
        (words, ONE_FUND, FUND_TURNED),
        (wanted, 4_294_967_296, 4_294_967_295),
    );
}

/// Numbers and funds at their limits.
const HALVES: [(u32, u32); 9] = [
    (0, 0),
    (0, 1),
    (0, u32::MAX),
    (1, 0),
    (1, 1),
    (1, u32::MAX),
    (u32::MAX, 0),
    (u32::MAX, 1),
    (u32::MAX, u32::MAX),
];

/// A word that was taken apart.
fn again(word: u64) -> u64 {
    packed(unpack_count(word))
}

#[test]
fn each_half_of_a_count_comes_back_at_its_limits(rt: HostRuntime) {
    for (number, funds) in HALVES {
        let count = Count { number, funds };
        same(&rt, unpack_count(packed(count)), count);
    }
    let words = [
        again(0),
        again(1),
        again(FUND_TURNED),
        again(ONE_FUND),
        again(u64::MAX),
    ];
    same(&rt, words, [0, 1, FUND_TURNED, ONE_FUND, u64::MAX]);
}

/// One handle on the number's last value carries nothing into the funds, and the last fund nothing
/// out of the word.
#[test]
fn halves_change_alone_at_their_limits(rt: HostRuntime) {
    let below = packed(Count {
        number: u32::MAX - 1,
        funds: 7,
    });
    let last = packed(Count {
        number: u32::MAX,
        funds: 7,
    });
    let paid = packed(Count {
        number: u32::MAX,
        funds: u32::MAX,
    });
    let changed = [
        with_handle(below),
        without_handle(last),
        with_funds(last, u32::MAX - 7),
        without_funds(paid, u32::MAX - 7),
        with_fund_turned(below),
        with_funds(5, 0),
        without_funds(5, 0),
    ];
    same(
        &rt,
        changed,
        [last, below, paid, last, last - ONE_FUND, 5, 5],
    );
}

/// Words, whether each is the last handle, and how many it tells of.
const TOLD: [(u64, bool, u32); 8] = [
    (0, false, 0),
    (1, true, 1),
    (2, false, 2),
    (ONE_FUND, false, 1),
    (1 + ONE_FUND, false, 1),
    (2 + 255 * ONE_FUND, false, 2),
    (4_325_630, false, 4_325_630),
    (u64::MAX, false, u32::MAX),
];

#[test]
fn words_tell_the_last_and_the_count(rt: HostRuntime) {
    for wanted in TOLD {
        let word = wanted.0;
        let shown = (word, is_last(word), use_count_of(word));
        same(&rt, shown, wanted);
    }
}

#[test]
fn counts_start_at_none(rt: HostRuntime) {
    same(
        &rt,
        Counts::default(),
        Counts {
            owners: 0,
            weaks: 0,
        },
    );
}
