//! Winner tables.
use crate::runs::{FailingRow, Row};
use tqd_base::DeskCall;

const ORDERS: &str = "product,quantity\nx,100\ny,50\n";

const OFFERS: &str =
    "supplier,from,part,price\nA,1,x,1.00\nA,1,y,2.00\nA,150,x,0.90\nA,150,y,1.50\nB,1,x,0.95\nB,1,y,1.60\n";

/// Each of two suppliers is the cheaper one for one part.
const EACH_ONE: &str = "supplier,from,part,price\nA,1,x,1.00\nA,1,y,2.00\nB,1,x,1.20\nB,1,y,1.60\n";

/// Least costs with each greatest number of winners, by one worker and by several.
pub(crate) const TABLES: [Row<'static>; 9] = [
    Row {
        files: &[("o", ORDERS), ("f", OFFERS)],
        lines: &["winners o - f -"],
        status: 0,
        output: "winners\t0\tinfeasible\nwinners\t1\t165.000000\nwinners\t2\t165.000000\n",
    },
    Row {
        files: &[("o", ORDERS), ("f", OFFERS)],
        lines: &["winners o - f - --workers 4"],
        status: 0,
        output: "winners\t0\tinfeasible\nwinners\t1\t165.000000\nwinners\t2\t165.000000\n",
    },
    Row {
        files: &[
            ("o", ORDERS),
            ("f", OFFERS),
            (
                "t",
                "kind,supplier,part,low,high\nstock,A,x,,60\nstock,B,y,,20\n",
            ),
        ],
        lines: &["winners o - f t --workers 2"],
        status: 0,
        output: "winners\t0\tinfeasible\nwinners\t1\tinfeasible\nwinners\t2\t187.000000\n",
    },
    // more workers than jobs
    Row {
        files: &[("o", ORDERS), ("f", EACH_ONE)],
        lines: &["winners o - f - --workers 64"],
        status: 0,
        output: "winners\t0\tinfeasible\nwinners\t1\t200.000000\nwinners\t2\t180.000000\n",
    },
    // the table begins with the least number of winners, and the greatest one of the terms has no part in it
    Row {
        files: &[
            ("o", ORDERS),
            ("f", OFFERS),
            ("t", "kind,supplier,part,low,high\nwinners,,,2,2\n"),
        ],
        lines: &["winners o - f t"],
        status: 0,
        output: "winners\t2\t175.050000\n",
    },
    Row {
        files: &[
            ("o", ORDERS),
            ("f", EACH_ONE),
            ("t", "kind,supplier,part,low,high\nwinners,,,1,1\n"),
        ],
        lines: &["winners o - f t --workers 1"],
        status: 0,
        output: "winners\t1\t200.000000\nwinners\t2\t180.000000\n",
    },
    Row {
        files: &[
            ("o", ORDERS),
            ("f", OFFERS),
            ("t", "kind,supplier,part,low,high\nwinners,,,3,\n"),
        ],
        lines: &["winners o - f t --workers 2"],
        status: 0,
        output: "winners\t3\tinfeasible\n",
    },
    // nothing is needed, so that there is no supplier
    Row {
        files: &[("o", "product,quantity\n"), ("f", OFFERS)],
        lines: &["winners o - f -"],
        status: 0,
        output: "winners\t0\t0.000000\n",
    },
    Row {
        files: &[
            ("o", ORDERS),
            ("f", OFFERS),
            ("t", "kind,supplier,part,low,high\nwinners,,,2,1\n"),
        ],
        lines: &["winners o - f t --workers 2"],
        status: 3,
        output: "bad input: job: winners: low above high\n",
    },
];

/// Tables of which a file cannot be read, or the output not be written.
pub(crate) const FAILING_TABLES: [FailingRow<'static>; 3] = [
    FailingRow {
        call: DeskCall::Open,
        nth: 2,
        files: &[("o", ORDERS), ("f", OFFERS)],
        line: "winners o - f - --workers 2",
        status: 5,
        output: "cannot read offers\n",
        tree: "",
    },
    FailingRow {
        call: DeskCall::Take,
        nth: 1,
        files: &[("o", ORDERS), ("f", OFFERS)],
        line: "winners o - f -",
        status: 5,
        output: "cannot read orders\n",
        tree: "",
    },
    // half of the 63 bytes of the text
    FailingRow {
        call: DeskCall::Out,
        nth: 1,
        files: &[("o", ORDERS), ("f", OFFERS)],
        line: "winners o - f - --workers 3",
        status: 6,
        output: "winners\t0\tinfeasible\nwinners\t1\t",
        tree: "",
    },
];
