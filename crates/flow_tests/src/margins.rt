//! Sets of margins (CSS 2.1, section 8.3.1).
use margin_flow::{Margins, join, value};
use std::test::Fail;
use units64::Units;

const MOST: i64 = 1_073_741_824;

fn set(positive: i64, negative: i64) -> Margins {
    Margins {
        positive: Units::new(positive),
        negative: Units::new(negative),
    }
}

#[test]
fn sets_that_are_joined(rt: HostRuntime) -> Result<(), Fail> {
    let table: [(i64, i64, i64, i64, i64, i64); 6] = [
        (0, 0, 0, 0, 0, 0),
        (10, 0, 20, 0, 20, 0),
        (20, 0, 10, 0, 20, 0),
        (0, -10, 0, -20, 0, -20),
        (10, -4, 6, -3, 10, -4),
        (MOST, 0, 0, -MOST, MOST, -MOST),
    ];
    for (ap, an, bp, bn, positive, negative) in table {
        let joined = join(set(ap, an), set(bp, bn));
        assert_eq!(rt; joined.positive, Units::new(positive));
        assert_eq!(rt; joined.negative, Units::new(negative));
    }
    Ok(())
}

#[test]
fn values_of_sets(rt: HostRuntime) -> Result<(), Fail> {
    let table: [(i64, i64, i32); 6] = [
        (0, 0, 0),
        (10, 0, 10),
        (0, -10, -10),
        (10, -4, 6),
        (4, -10, -6),
        (MOST, -1, 1_073_741_823),
    ];
    for (positive, negative, margin) in table {
        assert_eq!(rt; value(set(positive, negative)).get(), margin);
    }
    Ok(())
}
