// Worked answers and refusals.
use crate::{AskFault, BestFit, FirstFit, FitRule, MOST_GAPS, MOST_SIZE, Question, SheetRule, ask};
use rules::memory::Stretch;
use rules::sheet::{Fit, Layer};

// The rule's answer to a question, or why it is refused.
fn answer<R: FitRule>(
    rule: &R,
    gaps: &[Stretch],
    size: u32,
    grain: u32,
) -> Result<Option<(u32, u32)>, AskFault> {
    Question::new(gaps, size, grain).map(|q| rule.fit(q))
}

// The answer to a question from outside, or the number of its refusal.
// kept: what is tested is the refusal's number
fn outside<R: FitRule>(
    rule: &R,
    gaps: &[Stretch],
    size: u32,
    grain: u32,
) -> Result<Option<(u32, u32)>, u32> {
    ask(rule, gaps, size, grain).map_err(|fault| fault.number())
}

// Three gaps, of which the middle one is the narrowest.
const THREE: [Stretch; 3] = [
    Stretch { start: 0, end: 10 },
    Stretch { start: 20, end: 26 },
    Stretch {
        start: 40,
        end: 100,
    },
];

// A size, and the answers of first and of best fit to it among the three gaps.
const SIZES: [(u32, Option<(u32, u32)>, Option<(u32, u32)>); 3] = [
    (5, Some((0, 5)), Some((20, 1))),
    (60, Some((40, 0)), Some((40, 0))),
    (61, None, None),
];

#[test]
fn takes_the_lowest_or_the_tightest(rt: HostRuntime) {
    for (size, first, best) in SIZES {
        assert_eq!(rt; answer(&FirstFit, &THREE, size, 1), Ok(first));
        assert_eq!(rt; answer(&BestFit, &THREE, size, 1), Ok(best));
    }
}

#[test]
fn measures_from_the_grain(rt: HostRuntime) {
    let gaps = [
        Stretch { start: 1, end: 16 },
        Stretch { start: 32, end: 44 },
    ];
    assert_eq!(rt; answer(&BestFit, &gaps, 8, 8), Ok(Some((32, 4))));
}

#[test]
fn takes_the_lowest_of_equals(rt: HostRuntime) {
    let gaps = [
        Stretch { start: 0, end: 10 },
        Stretch { start: 20, end: 30 },
    ];
    assert_eq!(rt; answer(&BestFit, &gaps, 5, 1), Ok(Some((0, 5))));
}

#[test]
fn answers_questions_from_outside(rt: HostRuntime) {
    for (size, first, best) in SIZES {
        assert_eq!(rt; outside(&FirstFit, &THREE, size, 1), Ok(first));
        assert_eq!(rt; outside(&BestFit, &THREE, size, 1), Ok(best));
    }
    let narrow = [Stretch { start: 0, end: 6 }, Stretch { start: 10, end: 16 }];
    assert_eq!(rt; outside(&BestFit, &narrow, 5, 1), Ok(Some((0, 1))));
}

#[test]
fn asks_the_outer_layer_first(rt: HostRuntime) {
    let gaps = [
        Stretch { start: 0, end: 10 },
        Stretch { start: 40, end: 46 },
    ];
    let cases = [
        ([Layer::SnugLimit(1), Layer::LowLine(20)], Some((0, 5))),
        ([Layer::LowLine(20), Layer::SnugLimit(1)], Some((40, 1))),
    ];
    for (layers, expected) in cases {
        let rule = SheetRule::of(Fit::First, &layers);
        assert_eq!(rt; answer(&rule, &gaps, 5, 1), Ok(expected));
    }
}

#[test]
fn refuses_sizes_and_grains_off_range(rt: HostRuntime) {
    let gaps = [Stretch {
        start: 0,
        end: u32::MAX,
    }];
    let whole = Ok(Some((0, u32::MAX - MOST_SIZE)));
    let cases = [
        (0, 1, Err(5)),
        (MOST_SIZE, 1, whole),
        (MOST_SIZE + 1, 1, Err(5)),
        (MOST_SIZE, 0, Err(5)),
        (MOST_SIZE, 3, Err(5)),
        (MOST_SIZE, 4096, whole),
        (MOST_SIZE, 8192, Err(5)),
    ];
    for (size, grain, expected) in cases {
        assert_eq!(rt; outside(&FirstFit, &gaps, size, grain), expected);
    }
}

#[test]
fn refuses_gaps_off_range(rt: HostRuntime) {
    let cases = [
        // it starts where the one before it ends
        (Stretch { start: 4, end: 10 }, Ok(Some((4, 1)))),
        // it starts below that
        (Stretch { start: 3, end: 10 }, Err(5)),
        // it is empty
        (Stretch { start: 4, end: 4 }, Err(5)),
        (Stretch { start: 6, end: 5 }, Err(5)),
    ];
    for (gap, expected) in cases {
        let gaps = [Stretch { start: 0, end: 4 }, gap];
        assert_eq!(rt; outside(&FirstFit, &gaps, 5, 1), expected);
    }
    assert_eq!(rt; outside(&FirstFit, &[], 5, 1), Ok(None));
}

// More gaps than a rule is asked about, each with one byte and starting where the one before it ends.
fn adjoining() -> [Stretch; 257] {
    std::array::from_fn(|i| {
        let start = i as u32;
        Stretch {
            start,
            end: start + 1,
        }
    })
}

#[test]
fn refuses_many_gaps_last(rt: HostRuntime) {
    let mut gaps = adjoining();
    let most = &gaps[0..MOST_GAPS];
    assert_eq!(rt; outside(&FirstFit, most, 1, 1), Ok(Some((0, 0))));
    assert_eq!(rt; outside(&FirstFit, &gaps, 1, 1), Err(7));
    assert_eq!(rt; outside(&FirstFit, &gaps, 0, 1), Err(5));
    gaps[256].end = 256;
    assert_eq!(rt; outside(&FirstFit, &gaps, 1, 1), Err(5));
}
