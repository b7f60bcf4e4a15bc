//! Jobs that are solved, and files with a fault.
use crate::runs::Row;

const OFFERS: &str = "supplier,from,part,price\nA,1,r,0.10\nA,100,r,0.08\n";

const FROM_FIFTY: &str = "supplier,from,part,price\nA,50,r,0.10\n";

const TWO: &str =
    "supplier,from,part,price\nA,1,x,1.00\nA,1,y,2.00\nA,150,x,0.90\nA,150,y,1.50\nB,1,x,0.95\nB,1,y,1.60\n";

const HUNDRED: &str = "product,quantity\nr,100\n";

const NINETY: &str = "product,quantity\nr,90\n";

const THIRTY: &str = "product,quantity\nr,30\n";

const NONE: &str = "product,quantity\nr,0\n";

const BOTH: &str = "product,quantity\nx,100\ny,50\n";

const NO_TERMS: &str = "kind,supplier,part,low,high\n";

const STEP: &str =
    "solved\t8.000000\nsupplier\tA\t100\t100\t8.000000\nbuy\tr\t100\t0.080000\t8.000000\n";

const ON_THE_STEP: &str =
    "solved\t8.000000\nsupplier\tA\t100\t100\t8.000000\nbuy\tr\t100\t0.080000\t8.000000\naccepted\t8.000000\n";

const BELOW_THE_STEP: &str =
    "solved\t9.000000\nsupplier\tA\t90\t1\t9.000000\nbuy\tr\t90\t0.100000\t9.000000\naccepted\t9.000000\n";

const ALL_FROM_A: &str =
    "solved\t165.000000\nsupplier\tA\t150\t150\t165.000000\nbuy\tx\t100\t0.900000\t90.000000\nbuy\ty\t50\t1.500000\t75.000000\naccepted\t165.000000\n";

const ALL_FROM_B: &str =
    "solved\t175.000000\nsupplier\tB\t150\t1\t175.000000\nbuy\tx\t100\t0.950000\t95.000000\nbuy\ty\t50\t1.600000\t80.000000\naccepted\t175.000000\n";

const NOTHING: &str = "solved\t0.000000\naccepted\t0.000000\n";

const NO_PURCHASE: &str = "infeasible\naccepted\tnone\n";

const PRODUCTS: &str = "product,quantity\npump,40\nvalve,25\n";

const BILL: &str =
    "assembly,part,quantity\npump,seal,2\npump,bolt,8\npump,housing,1\nvalve,seal,1\nvalve,bolt,4\n";

const SUPPLIERS: &str =
    "supplier,from,part,price\nNorth,1,seal,1.20\nNorth,1,bolt,0.15\nNorth,1,housing,18.50\nNorth,500,seal,1.05\nNorth,500,bolt,0.12\nNorth,500,housing,17.90\nSouth,1,seal,1.10\nSouth,1,bolt,0.14\nSouth,300,seal,1.00\nSouth,300,bolt,0.11\n";
/// A job is solved, and its tree is checked.
const SOLVE_AND_CHECK: &[&str] = &["solve o - f t tree", "check o - f t tree"];

/// One supplier and one good: on a step, below it, and where more may be bought than is needed.
pub(crate) const ONE_GOOD: [Row<'static>; 8] = [
    Row {
        files: &[("o", HUNDRED), ("f", OFFERS), ("t", NO_TERMS)],
        lines: SOLVE_AND_CHECK,
        status: 0,
        output: ON_THE_STEP,
    },
    Row {
        files: &[
            ("o", "product,quantity\nr,99\n"),
            ("f", OFFERS),
            ("t", NO_TERMS),
        ],
        lines: SOLVE_AND_CHECK,
        status: 0,
        output: "solved\t9.900000\nsupplier\tA\t99\t1\t9.900000\nbuy\tr\t99\t0.100000\t9.900000\naccepted\t9.900000\n",
    },
    Row {
        files: &[("o", NINETY), ("f", OFFERS), ("t", NO_TERMS)],
        lines: SOLVE_AND_CHECK,
        status: 0,
        output: BELOW_THE_STEP,
    },
    Row {
        files: &[
            ("o", NINETY),
            ("f", OFFERS),
            ("t", "kind,supplier,part,low,high\nover,,,,any"),
        ],
        lines: SOLVE_AND_CHECK,
        status: 0,
        output: ON_THE_STEP,
    },
    Row {
        files: &[
            ("o", NINETY),
            ("f", OFFERS),
            ("t", "kind,supplier,part,low,high\nover,,r,,10"),
        ],
        lines: SOLVE_AND_CHECK,
        status: 0,
        output: BELOW_THE_STEP,
    },
    Row {
        files: &[
            ("o", "product,quantity\nr,10\n"),
            ("f", OFFERS),
            ("t", "kind,supplier,part,low,high\nstock,A,r,,5"),
        ],
        lines: SOLVE_AND_CHECK,
        status: 1,
        output: NO_PURCHASE,
    },
    Row {
        files: &[("o", THIRTY), ("f", FROM_FIFTY), ("t", NO_TERMS)],
        lines: SOLVE_AND_CHECK,
        status: 1,
        output: NO_PURCHASE,
    },
    Row {
        files: &[
            ("o", THIRTY),
            ("f", FROM_FIFTY),
            ("t", "kind,supplier,part,low,high\nover,,r,,any"),
        ],
        lines: SOLVE_AND_CHECK,
        status: 0,
        output: "solved\t5.000000\nsupplier\tA\t50\t50\t5.000000\nbuy\tr\t50\t0.100000\t5.000000\naccepted\t5.000000\n",
    },
];

/// Two suppliers and two goods: a step over both goods, a stock, winners, a share, and fees.
pub(crate) const TWO_GOODS: [Row<'static>; 6] = [
    Row {
        files: &[("o", BOTH), ("f", TWO), ("t", NO_TERMS)],
        lines: SOLVE_AND_CHECK,
        status: 0,
        output: ALL_FROM_A,
    },
    Row {
        files: &[
            ("o", BOTH),
            ("f", TWO),
            ("t", "kind,supplier,part,low,high\nstock,A,x,,60"),
        ],
        lines: SOLVE_AND_CHECK,
        status: 0,
        output: ALL_FROM_B,
    },
    Row {
        files: &[
            ("o", BOTH),
            ("f", TWO),
            ("t", "kind,supplier,part,low,high\nwinners,,,2,"),
        ],
        lines: SOLVE_AND_CHECK,
        status: 0,
        output: "solved\t175.050000\nsupplier\tA\t1\t1\t1.000000\nbuy\tx\t1\t1.000000\t1.000000\nsupplier\tB\t149\t1\t174.050000\nbuy\tx\t99\t0.950000\t94.050000\nbuy\ty\t50\t1.600000\t80.000000\naccepted\t175.050000\n",
    },
    Row {
        files: &[
            ("o", BOTH),
            ("f", TWO),
            ("t", "kind,supplier,part,low,high\nshare,A,,,999"),
        ],
        lines: SOLVE_AND_CHECK,
        status: 0,
        output: ALL_FROM_B,
    },
    Row {
        files: &[
            ("o", BOTH),
            ("f", TWO),
            ("t", "kind,supplier,part,low,high\nfee,A,,,10.01"),
        ],
        lines: SOLVE_AND_CHECK,
        status: 0,
        output: ALL_FROM_B,
    },
    Row {
        files: &[
            ("o", BOTH),
            ("f", TWO),
            ("t", "kind,supplier,part,low,high\nfee,A,,,9.99"),
        ],
        lines: SOLVE_AND_CHECK,
        status: 0,
        output: "solved\t174.990000\nsupplier\tA\t150\t150\t165.000000\nfee\t9.990000\nbuy\tx\t100\t0.900000\t90.000000\nbuy\ty\t50\t1.500000\t75.000000\naccepted\t174.990000\n",
    },
];

/// Nothing is ordered; and terms that nothing can meet.
pub(crate) const EDGES: [Row<'static>; 4] = [
    Row {
        files: &[("o", NONE), ("f", OFFERS), ("t", NO_TERMS)],
        lines: SOLVE_AND_CHECK,
        status: 0,
        output: NOTHING,
    },
    Row {
        files: &[
            ("o", NONE),
            ("f", OFFERS),
            ("t", "kind,supplier,part,low,high\nfee,A,,,1"),
        ],
        lines: SOLVE_AND_CHECK,
        status: 0,
        output: NOTHING,
    },
    Row {
        files: &[
            ("o", NONE),
            ("f", OFFERS),
            ("t", "kind,supplier,part,low,high\nwinners,,,1,"),
        ],
        lines: SOLVE_AND_CHECK,
        status: 1,
        output: NO_PURCHASE,
    },
    Row {
        files: &[
            ("o", HUNDRED),
            ("f", OFFERS),
            ("t", "kind,supplier,part,low,high\ntotal,A,,,99"),
        ],
        lines: SOLVE_AND_CHECK,
        status: 1,
        output: NO_PURCHASE,
    },
];

/// One, two and as many workers as there may be.
pub(crate) const WORKERS: [Row<'static>; 3] = [
    Row {
        files: &[("o", BOTH), ("f", TWO)],
        lines: &["solve o - f - tree --workers 1", "check o - f - tree"],
        status: 0,
        output: ALL_FROM_A,
    },
    Row {
        files: &[("o", BOTH), ("f", TWO)],
        lines: &["solve o - f - tree --workers 2", "check o - f - tree"],
        status: 0,
        output: ALL_FROM_A,
    },
    Row {
        files: &[("o", BOTH), ("f", TWO)],
        lines: &["solve o - f - tree --workers 64", "check o - f - tree"],
        status: 0,
        output: ALL_FROM_A,
    },
];

/// A bill and terms; a mark, quotes and line ends.
pub(crate) const FILES: [Row<'static>; 2] = [
    Row {
        files: &[
            ("o", PRODUCTS),
            ("b", BILL),
            ("f", SUPPLIERS),
            (
                "t",
                "kind,supplier,part,low,high\nstock,North,housing,,45\nshare,North,,,800\n",
            ),
        ],
        lines: &["solve o b f t -"],
        status: 0,
        output: "solved\t891.200000\nsupplier\tNorth\t40\t1\t740.000000\nbuy\thousing\t40\t18.500000\t740.000000\nsupplier\tSouth\t525\t300\t151.200000\nbuy\tseal\t105\t1.000000\t105.000000\nbuy\tbolt\t420\t0.110000\t46.200000\n",
    },
    Row {
        files: &[
            ("o", "\u{feff}product,quantity\r\n\"r\",\"0100\"\r\n"),
            ("f", OFFERS),
        ],
        lines: &["solve o - f - -"],
        status: 0,
        output: STEP,
    },
];

/// The first fault of orders, a bill, offers, terms and the whole.
pub(crate) const FAULTS: [Row<'static>; 13] = [
    Row {
        files: &[
            ("o", HUNDRED),
            ("f", OFFERS),
            ("t", "kind,supplier,part,low,high\nmultiple,A,r,10,"),
        ],
        lines: &["solve o - f t -"],
        status: 3,
        output: "bad input: terms: row 2: order multiples are not supported\n",
    },
    Row {
        files: &[
            ("o", HUNDRED),
            ("f", OFFERS),
            ("t", "kind,supplier,part,low,high\nfee,A,,,x"),
        ],
        lines: &["solve o - f t -"],
        status: 3,
        output: "bad input: terms: row 2: bad field 5\n",
    },
    Row {
        files: &[
            ("o", HUNDRED),
            ("f", OFFERS),
            ("t", "kind,supplier,part,low,high\ntotal,C,,,5"),
        ],
        lines: &["solve o - f t -"],
        status: 3,
        output: "bad input: terms: row 2: unknown supplier\n",
    },
    Row {
        files: &[
            ("o", HUNDRED),
            ("f", OFFERS),
            ("t", "kind,supplier,part,low,high\nover,,r,1,any"),
        ],
        lines: &["solve o - f t -"],
        status: 3,
        output: "bad input: terms: row 2: bad field 4\n",
    },
    Row {
        files: &[
            ("o", HUNDRED),
            ("f", OFFERS),
            ("t", "kind,supplier,part,low,high\nshare,A,,900,100"),
        ],
        lines: &["solve o - f t -"],
        status: 3,
        output: "bad input: job: share of A: low above high\n",
    },
    Row {
        files: &[
            ("o", HUNDRED),
            ("f", OFFERS),
            ("t", "kind,supplier,part,low,high\nwinners,,,2,1"),
        ],
        lines: &["solve o - f t -"],
        status: 3,
        output: "bad input: job: winners: low above high\n",
    },
    Row {
        files: &[
            ("o", HUNDRED),
            ("f", "supplier,from,part,price\nA,1,r,0.1000001\n"),
            ("t", NO_TERMS),
        ],
        lines: &["solve o - f t -"],
        status: 3,
        output: "bad input: offers: row 2: bad price\n",
    },
    Row {
        files: &[
            ("o", BOTH),
            (
                "f",
                "supplier,from,part,price\nA,1,x,1.00\nA,1,y,2.00\nA,150,x,0.90\nB,1,x,0.95\nB,1,y,1.60\n",
            ),
            ("t", NO_TERMS),
        ],
        lines: &["solve o - f t -"],
        status: 3,
        output: "bad input: job: no price of y from 150 at A\n",
    },
    Row {
        files: &[
            ("o", "product,quantity\nr\n"),
            ("f", OFFERS),
            ("t", NO_TERMS),
        ],
        lines: &["solve o - f t -"],
        status: 3,
        output: "bad input: orders: row 2: 1 fields\n",
    },
    Row {
        files: &[("o", HUNDRED), ("f", ""), ("t", NO_TERMS)],
        lines: &["solve o - f t -"],
        status: 3,
        output: "bad input: offers: no header\n",
    },
    Row {
        files: &[
            ("o", "product,quantity\na,1\n"),
            ("b", "assembly,part,quantity\na,b,1\nb,a,1\n"),
            ("f", OFFERS),
        ],
        lines: &["solve o b f - tree"],
        status: 3,
        output: "bad input: bill: circle through a\n",
    },
    Row {
        files: &[
            ("o", "product,quantity\na,1\n"),
            ("b", "assembly,part,quantity\na,q,100000\nq,r,100000\n"),
            ("f", OFFERS),
        ],
        lines: &["solve o b f - tree"],
        status: 3,
        output: "bad input: bill: need of r above 100000000\n",
    },
    Row {
        files: &[("o", HUNDRED)],
        lines: &["solve o - f - -"],
        status: 5,
        output: "cannot read offers\n",
    },
];
