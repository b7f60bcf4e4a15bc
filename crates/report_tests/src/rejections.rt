//! The texts of rejections.

use crate::answers::is_text;
use plan_report::rejection_text;
use tqd_instance::Standing;
use tree_checker::{Rejection, Why};

#[test]
fn rejections_of_plans(rt: HostRuntime) {
    for (why, text) in [
        (
            Why::PlanStanding(Standing::Need { good: 0, sum: 99 }),
            "rejected\t2\tgood 0 gets 99\n",
        ),
        (
            Why::PlanStanding(Standing::Stock {
                supplier: 1,
                good: 2,
            }),
            "rejected\t2\tsupplier 1 good 2 above stock\n",
        ),
        (
            Why::PlanStanding(Standing::Gap {
                supplier: 1,
                total: 50,
            }),
            "rejected\t2\tsupplier 1 total 50 in no segment\n",
        ),
        (
            Why::PlanStanding(Standing::Winners(3)),
            "rejected\t2\t3 winners\n",
        ),
        (
            Why::PlanCost {
                said: 7_999_999,
                real: 8_000_000,
            },
            "rejected\t2\tcost said 7999999, is 8000000\n",
        ),
    ] {
        let printed = rejection_text(rt.alloc(), &Rejection { line: 2, why });
        assert!(rt; is_text(printed, text), "{text}");
    }
}

#[test]
fn rejections_with_values(rt: HostRuntime) {
    for (line, why, text) in [
        (
            3,
            Why::EmptyFails(0),
            "rejected\t3\tfree value 0 is not above 0\n",
        ),
        (
            3,
            Why::EmptyFails(-12),
            "rejected\t3\tfree value -12 is not above 0\n",
        ),
        (
            4,
            Why::BoundShort {
                value: 7_999_900,
                cost: 8_000_000,
            },
            "rejected\t4\tvalue 7999900 below cost 8000000\n",
        ),
        (
            4,
            Why::BoundShort {
                value: -100,
                cost: 0,
            },
            "rejected\t4\tvalue -100 below cost 0\n",
        ),
        (
            5,
            Why::RowLength {
                found: 4,
                wanted: 5,
            },
            "rejected\t5\t4 prices, wanted 5\n",
        ),
        (5, Why::RowSlot { slot: 1 }, "rejected\t5\tbad row slot 1\n"),
        (
            4,
            Why::RowSlot {
                slot: 99_999_999_999_999_999_999_999,
            },
            "rejected\t4\tbad row slot 99999999999999999999999\n",
        ),
    ] {
        let printed = rejection_text(rt.alloc(), &Rejection { line, why });
        assert!(rt; is_text(printed, text), "{text}");
    }
}

#[test]
fn rejections_in_fixed_words(rt: HostRuntime) {
    for (line, why, text) in [
        (1, Why::EarlyEnd, "rejected\t1\tends early\n"),
        (1, Why::Header, "rejected\t1\tbad header\n"),
        (2, Why::PlanForm, "rejected\t2\tbad plan line\n"),
        (5, Why::Line, "rejected\t5\tbad line\n"),
        (4, Why::SplitRange, "rejected\t4\tbad split\n"),
        (
            4,
            Why::PriceRange {
                value: 4_000_000_000_000_001,
            },
            "rejected\t4\tprice out of range\n",
        ),
        (
            3,
            Why::BoundWithoutPlan,
            "rejected\t3\tbound without a plan\n",
        ),
        (
            4,
            Why::WinnersFit,
            "rejected\t4\twinner limits can be met\n",
        ),
        (6, Why::Trailing, "rejected\t6\ttext after the tree\n"),
    ] {
        let printed = rejection_text(rt.alloc(), &Rejection { line, why });
        assert!(rt; is_text(printed, text), "{text}");
    }
}
