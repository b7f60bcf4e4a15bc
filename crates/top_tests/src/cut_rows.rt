//! Least cuts of a supplier's prices that pay.
use crate::runs::{FailingRow, Row};
use tqd_base::DeskCall;

const ORDERS: &str = "product,quantity\nx,100\ny,50\n";

const OFFERS: &str =
    "supplier,from,part,price\nA,1,x,1.00\nA,1,y,2.00\nA,150,x,0.90\nA,150,y,1.50\nB,1,x,0.95\nB,1,y,1.60\n";

/// The cut that is found, and what a least purchase costs without it and with it.
pub(crate) const CUTS: [Row<'static>; 8] = [
    // with a cut of 57 thousandths all from B costs 165.025000
    Row {
        files: &[("o", ORDERS), ("f", OFFERS)],
        lines: &["break-even o - f - B"],
        status: 0,
        output: "break-even\tB\t58\t165.000000\t164.850000\n",
    },
    Row {
        files: &[("o", ORDERS), ("f", OFFERS)],
        lines: &["break-even o - f - A"],
        status: 0,
        output: "break-even\tA\t1\t165.000000\t164.835000\n",
    },
    // the fee is not cut: all from A costs 165 less the cut, and 20
    Row {
        files: &[
            ("o", ORDERS),
            ("f", OFFERS),
            ("t", "kind,supplier,part,low,high\nfee,A,,,20\n"),
        ],
        lines: &["break-even o - f t A"],
        status: 0,
        output: "break-even\tA\t61\t175.000000\t174.935000\n",
    },
    Row {
        files: &[
            ("o", ORDERS),
            ("f", OFFERS),
            ("t", "kind,supplier,part,low,high\nfee,A,,,9.99\n"),
        ],
        lines: &["break-even o - f t B"],
        status: 0,
        output: "break-even\tB\t1\t174.990000\t174.825000\n",
    },
    // prices of 0 cannot fall
    Row {
        files: &[
            ("o", "product,quantity\nr,100\n"),
            ("f", "supplier,from,part,price\nA,1,r,0\nA,100,r,0\n"),
        ],
        lines: &["break-even o - f - A"],
        status: 0,
        output: "break-even\tA\tnone\t0.000000\n",
    },
    Row {
        files: &[
            ("o", "product,quantity\nr,100\n"),
            ("f", "supplier,from,part,price\nA,1,r,0\nB,1,r,0.10\n"),
            ("t", "kind,supplier,part,low,high\nstock,A,r,,50\n"),
        ],
        lines: &["break-even o - f t A"],
        status: 0,
        output: "break-even\tA\tnone\t5.000000\n",
    },
    // the share asks for 120 units at A if any are bought there, and allows no more than 149
    Row {
        files: &[
            ("o", ORDERS),
            ("f", OFFERS),
            ("t", "kind,supplier,part,low,high\nshare,A,,800,999\n"),
        ],
        lines: &["break-even o - f t A"],
        status: 0,
        output: "break-even\tA\t93\t175.000000\t174.980000\n",
    },
    Row {
        files: &[
            ("o", ORDERS),
            ("f", OFFERS),
            ("t", "kind,supplier,part,low,high\nshare,A,,,999\n"),
        ],
        lines: &["break-even o - f t A"],
        status: 0,
        output: "break-even\tA\t51\t175.000000\t174.900000\n",
    },
];

/// Where there is no cut to be told.
pub(crate) const NO_CUTS: [Row<'static>; 7] = [
    Row {
        files: &[("o", ORDERS), ("f", OFFERS)],
        lines: &["break-even o - f - C", "break-even o - f - a"],
        status: 3,
        output: "bad input: offers: no such supplier\nbad input: offers: no such supplier\n",
    },
    // C offers nothing that is needed
    Row {
        files: &[
            ("o", "product,quantity\nr,100\n"),
            ("f", "supplier,from,part,price\nA,1,r,0.10\nC,1,z,1\n"),
        ],
        lines: &["break-even o - f - C"],
        status: 3,
        output: "bad input: offers: no such supplier\n",
    },
    // the files are tested before the supplier
    Row {
        files: &[
            ("o", ORDERS),
            ("f", OFFERS),
            ("t", "kind,supplier,part,low,high\nwinners,,,2,1\n"),
        ],
        lines: &["break-even o - f t C"],
        status: 3,
        output: "bad input: job: winners: low above high\n",
    },
    Row {
        files: &[
            ("o", "product,quantity\nr,10\n"),
            ("f", "supplier,from,part,price\nA,1,r,0.10\nA,100,r,0.08\n"),
            ("t", "kind,supplier,part,low,high\nstock,A,r,,5\n"),
        ],
        lines: &["break-even o - f t A"],
        status: 1,
        output: "infeasible\n",
    },
    // the supplier is tested before the search
    Row {
        files: &[
            ("o", "product,quantity\nr,10\n"),
            ("f", "supplier,from,part,price\nA,1,r,0.10\nA,100,r,0.08\n"),
            ("t", "kind,supplier,part,low,high\nstock,A,r,,5\n"),
        ],
        lines: &["break-even o - f t B"],
        status: 3,
        output: "bad input: offers: no such supplier\n",
    },
    Row {
        files: &[("o", ORDERS), ("f", OFFERS)],
        lines: &["break-even o - f t A"],
        status: 5,
        output: "cannot read terms\n",
    },
    // the name of a supplier may be any word
    Row {
        files: &[
            ("o", "product,quantity\nr,100\n"),
            ("f", "supplier,from,part,price\n-,1,r,0.10\n-,100,r,0.08\n"),
        ],
        lines: &["break-even o - f - -"],
        status: 0,
        output: "break-even\t-\t1\t8.000000\t7.992000\n",
    },
];

/// Cuts of which a file cannot be read, or the output not be written.
pub(crate) const FAILING_CUTS: [FailingRow<'static>; 2] = [
    FailingRow {
        call: DeskCall::Open,
        nth: 1,
        files: &[("o", ORDERS), ("f", OFFERS)],
        line: "break-even o - f - A",
        status: 5,
        output: "cannot read orders\n",
        tree: "",
    },
    // half of the 38 bytes of the text
    FailingRow {
        call: DeskCall::Out,
        nth: 1,
        files: &[("o", ORDERS), ("f", OFFERS)],
        line: "break-even o - f - B",
        status: 6,
        output: "break-even\tB\t58\t165",
        tree: "",
    },
];
