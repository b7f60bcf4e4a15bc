//! Scenarios: the offers with the terms of each of several files.
use crate::runs::{FailingRow, Row};
use tqd_base::DeskCall;

const ORDERS: &str = "product,quantity\nx,100\ny,50\n";

const OFFERS: &str =
    "supplier,from,part,price\nA,1,x,1.00\nA,1,y,2.00\nA,150,x,0.90\nA,150,y,1.50\nB,1,x,0.95\nB,1,y,1.60\n";

/// A has too few x for its lower prices, so that all is bought from B.
const STOCK: &str = "kind,supplier,part,low,high\nstock,A,x,,60\n";

/// Something has to be bought from B too.
const BOTH: &str = "kind,supplier,part,low,high\nwinners,,,2,\n";

/// There are no three suppliers.
const THREE: &str = "kind,supplier,part,low,high\nwinners,,,3,\n";

/// Both suppliers have too few.
const STOCKS: &str = "kind,supplier,part,low,high\nstock,A,x,,60\nstock,B,y,,20\n";

const PRODUCTS: &str = "product,quantity\npump,40\nvalve,25\n";

const BILL: &str =
    "assembly,part,quantity\npump,seal,2\npump,bolt,8\npump,housing,1\nvalve,seal,1\nvalve,bolt,4\n";

const PARTS: &str =
    "supplier,from,part,price\nNorth,1,seal,1.20\nNorth,1,bolt,0.15\nNorth,1,housing,18.50\nNorth,500,seal,1.05\n\
     North,500,bolt,0.12\nNorth,500,housing,17.90\nSouth,1,seal,1.10\nSouth,1,bolt,0.14\nSouth,300,seal,1.00\n\
     South,300,bolt,0.11\n";

const SHARE: &str = "kind,supplier,part,low,high\nstock,North,housing,,45\nshare,North,,,800\n";

const FIVE_TIMES: &str =
    "scenario\t1\t175.000000\nscenario\t2\t175.050000\nscenario\t3\t165.000000\nscenario\t4\t175.000000\n\
     scenario\t5\t175.050000\nscenario\t6\t165.000000\nscenario\t7\t175.000000\nscenario\t8\t175.050000\n\
     scenario\t9\t165.000000\nscenario\t10\t175.000000\nscenario\t11\t175.050000\nscenario\t12\t165.000000\n\
     scenario\t13\t175.000000\nscenario\t14\t175.050000\nscenario\t15\t165.000000\nscenario\t16\tinfeasible\n";

/// Least costs with the terms of several files, by one worker and by several.
pub(crate) const SCENARIOS: [Row<'static>; 9] = [
    Row {
        files: &[("o", ORDERS), ("f", OFFERS), ("t1", STOCK), ("t2", BOTH)],
        lines: &["scenarios o - f t1 t2 -"],
        status: 0,
        output: "scenario\t1\t175.000000\nscenario\t2\t175.050000\nscenario\t3\t165.000000\n",
    },
    Row {
        files: &[("o", ORDERS), ("f", OFFERS), ("t1", STOCK), ("t2", BOTH)],
        lines: &["scenarios o - f t1 t2 - --workers 4"],
        status: 0,
        output: "scenario\t1\t175.000000\nscenario\t2\t175.050000\nscenario\t3\t165.000000\n",
    },
    // a scenario without a purchase is followed by others
    Row {
        files: &[("o", ORDERS), ("f", OFFERS), ("t1", THREE), ("t2", STOCKS)],
        lines: &["scenarios o - f t1 t2 -"],
        status: 0,
        output: "scenario\t1\tinfeasible\nscenario\t2\t187.000000\nscenario\t3\t165.000000\n",
    },
    Row {
        files: &[("o", ORDERS), ("f", OFFERS), ("t1", THREE), ("t2", STOCKS)],
        lines: &["scenarios o - f t1 t2 - --workers 2"],
        status: 0,
        output: "scenario\t1\tinfeasible\nscenario\t2\t187.000000\nscenario\t3\t165.000000\n",
    },
    // sixteen words
    Row {
        files: &[
            ("o", ORDERS),
            ("f", OFFERS),
            ("s", STOCK),
            ("b", BOTH),
            ("t", THREE),
        ],
        lines: &["scenarios o - f s b - s b - s b - s b - s b - t"],
        status: 0,
        output: FIVE_TIMES,
    },
    Row {
        files: &[
            ("o", ORDERS),
            ("f", OFFERS),
            ("s", STOCK),
            ("b", BOTH),
            ("t", THREE),
        ],
        lines: &["scenarios o - f s b - s b - s b - s b - s b - t --workers 4"],
        status: 0,
        output: FIVE_TIMES,
    },
    // more workers than jobs
    Row {
        files: &[("o", ORDERS), ("f", OFFERS), ("t", STOCK)],
        lines: &["scenarios o - f t --workers 64"],
        status: 0,
        output: "scenario\t1\t175.000000\n",
    },
    // with a bill, and one file for two words
    Row {
        files: &[
            ("o", PRODUCTS),
            ("b", BILL),
            ("f", PARTS),
            ("t1", SHARE),
            ("t2", BOTH),
        ],
        lines: &["scenarios o b f t1 t2 - t1 --workers 3"],
        status: 0,
        output: "scenario\t1\t891.200000\nscenario\t2\t876.670000\nscenario\t3\t876.650000\n\
                 scenario\t4\t891.200000\n",
    },
    // nothing is needed
    Row {
        files: &[("o", "product,quantity\n"), ("f", OFFERS), ("t", BOTH)],
        lines: &["scenarios o - f - t"],
        status: 0,
        output: "scenario\t1\t0.000000\nscenario\t2\tinfeasible\n",
    },
];

/// Files with a fault.
pub(crate) const SCENARIO_FAULTS: [Row<'static>; 9] = [
    Row {
        files: &[("o", ORDERS), ("f", OFFERS), ("t1", STOCK)],
        lines: &["scenarios o - f t1 t2 -"],
        status: 5,
        output: "cannot read terms 2\n",
    },
    Row {
        files: &[
            ("o", ORDERS),
            ("f", OFFERS),
            ("t1", STOCK),
            ("t2", "kind,supplier,part,low,high\nwinners,,,2,1\n"),
        ],
        lines: &["scenarios o - f t1 t2 -"],
        status: 3,
        output: "bad input: job 2: winners: low above high\n",
    },
    Row {
        files: &[
            ("o", ORDERS),
            ("f", OFFERS),
            ("t1", STOCK),
            ("t2", "kind,supplier,part,low,high\nwinners,,,2,1\n"),
        ],
        lines: &["scenarios o - f t1 t2 - --workers 4"],
        status: 3,
        output: "bad input: job 2: winners: low above high\n",
    },
    Row {
        files: &[
            ("o", ORDERS),
            ("f", OFFERS),
            ("t1", STOCK),
            (
                "t3",
                "kind,supplier,part,low,high\nstock,A,x,,60\nstock,C,x,,60\n",
            ),
        ],
        lines: &["scenarios o - f t1 - t3 --workers 2"],
        status: 3,
        output: "bad input: terms 3: row 3: unknown supplier\n",
    },
    // the job of a word comes before the file of the next one
    Row {
        files: &[
            ("o", ORDERS),
            ("f", OFFERS),
            ("t1", "kind,supplier,part,low,high\nshare,A,,500,400\n"),
            ("t2", "kind,supplier,part\n"),
        ],
        lines: &["scenarios o - f t1 t2"],
        status: 3,
        output: "bad input: job 1: share of A: low above high\n",
    },
    Row {
        files: &[
            ("o", ORDERS),
            ("f", OFFERS),
            ("t1", "kind,supplier,part\n"),
            ("t2", "kind,supplier,part,low,high\nshare,A,,500,400\n"),
        ],
        lines: &["scenarios o - f t1 t2"],
        status: 3,
        output: "bad input: terms 1: wrong header\n",
    },
    // the offers come before the terms
    Row {
        files: &[
            ("o", ORDERS),
            ("f", "supplier,from,part,price\nA,1,x,1.0000001\n"),
        ],
        lines: &["scenarios o - f t1 t2"],
        status: 3,
        output: "bad input: offers: row 2: bad price\n",
    },
    // and a fault of their job is one of the first word
    Row {
        files: &[
            ("o", ORDERS),
            (
                "f",
                "supplier,from,part,price\nA,1,x,1.00\nA,1,y,2.00\nA,150,x,0.90\nB,1,x,0.95\nB,1,y,1.60\n",
            ),
        ],
        lines: &["scenarios o - f - -"],
        status: 3,
        output: "bad input: job 1: no price of y from 150 at A\n",
    },
    Row {
        files: &[("o", ORDERS), ("t", STOCK)],
        lines: &["scenarios o - f t"],
        status: 5,
        output: "cannot read offers\n",
    },
];

/// Scenarios of which a file cannot be read, or the output not be written.
pub(crate) const FAILING_SCENARIOS: [FailingRow<'static>; 5] = [
    FailingRow {
        call: DeskCall::Open,
        nth: 5,
        files: &[("o", ORDERS), ("f", OFFERS), ("t", STOCK)],
        line: "scenarios o - f t t t --workers 2",
        status: 5,
        output: "cannot read terms 3\n",
        tree: "",
    },
    // each file is taken once for its bytes, and once for its end
    FailingRow {
        call: DeskCall::Take,
        nth: 9,
        files: &[("o", ORDERS), ("f", OFFERS), ("t", STOCK)],
        line: "scenarios o - f t t t",
        status: 5,
        output: "cannot read terms 3\n",
        tree: "",
    },
    // a word that names no file has a number too
    FailingRow {
        call: DeskCall::Take,
        nth: 6,
        files: &[("o", ORDERS), ("f", OFFERS), ("t", STOCK)],
        line: "scenarios o - f - t",
        status: 5,
        output: "cannot read terms 2\n",
        tree: "",
    },
    FailingRow {
        call: DeskCall::Open,
        nth: 2,
        files: &[("o", ORDERS), ("f", OFFERS), ("t", STOCK)],
        line: "scenarios o - f t",
        status: 5,
        output: "cannot read offers\n",
        tree: "",
    },
    // half of the 66 bytes of the text
    FailingRow {
        call: DeskCall::Out,
        nth: 1,
        files: &[("o", ORDERS), ("f", OFFERS), ("t", STOCK)],
        line: "scenarios o - f t t t --workers 3",
        status: 6,
        output: "scenario\t1\t175.000000\nscenario\t2\t",
        tree: "",
    },
];
