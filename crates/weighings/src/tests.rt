// Tests of weights at the ends of their ranges.
use crate::chance::Chance;
use crate::sum::Sum;
use crate::worst::Worst;
use weighing::Weighing;

#[test]
fn sums(rt: HostRuntime) {
    assert_eq!(rt; Sum.weigh(65_535), 65_535);
    assert_eq!(rt; Sum.join(40, 69), 109);
    assert_eq!(rt; Sum.join(u64::MAX - 1, 1), u64::MAX);
    assert_eq!(rt; Sum.join(u64::MAX, 2), u64::MAX);
    assert!(rt; Sum.is_lighter(1, 2) && !Sum.is_lighter(2, 2));
}

#[test]
fn worst_marks(rt: HostRuntime) {
    assert_eq!(rt; Worst.weigh(7), 7);
    assert_eq!(rt; Worst.join(40, 30), 40);
    assert_eq!(rt; Worst.join(30, 40), 40);
    assert!(rt; Worst.is_lighter(1, 2) && !Worst.is_lighter(2, 2));
}

#[test]
fn chances(rt: HostRuntime) {
    let half = Chance.weigh(32_768);
    assert_eq!(rt; half, 1_073_741_824);
    assert_eq!(rt; Chance.join(half, half), 536_870_912);
    let least = Chance.weigh(65_535);
    assert_eq!(rt; Chance.join(least, least), 0);
    assert_eq!(rt;
        Chance.join(u64::MAX, half),
        half,
        "a code past certainty counts as certainty"
    );
    assert!(rt; Chance.is_lighter(2, 1) && !Chance.is_lighter(2, 2));
}
