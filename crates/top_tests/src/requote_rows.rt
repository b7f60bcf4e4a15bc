//! Jobs that are solved from an old tree.
use crate::runs::{FailingRow, Row};
use tqd_base::DeskCall;

const OFFERS: &str = "supplier,from,part,price\nA,1,r,0.10\nA,100,r,0.08\n";

const HUNDRED: &str = "product,quantity\nr,100\n";

const STEP: &str =
    "solved\t8.000000\nsupplier\tA\t100\t100\t8.000000\nbuy\tr\t100\t0.080000\t8.000000\naccepted\t8.000000\n";

const BOTH: &str = "product,quantity\nx,100\ny,50\n";

const TWO: &str =
    "supplier,from,part,price\nA,1,x,1.00\nA,1,y,2.00\nA,150,x,0.90\nA,150,y,1.50\nB,1,x,0.95\nB,1,y,1.60\n";

/// B sells y for less than before.
const CHEAPER: &str =
    "supplier,from,part,price\nA,1,x,1.00\nA,1,y,2.00\nA,150,x,0.90\nA,150,y,1.50\nB,1,x,0.95\nB,1,y,1.30\n";

/// A sells both parts for more than before, so that all is bought from B.
const DEARER: &str =
    "supplier,from,part,price\nA,1,x,1.00\nA,1,y,2.00\nA,150,x,1.00\nA,150,y,2.00\nB,1,x,0.95\nB,1,y,1.60\n";

/// A tree of the two goods, which shows that nothing is cheaper than all from A.
const OLD: &str =
    "tqd-tree 1\nplan 165000000 2\nbuy 0 0 100\nbuy 0 1 50\nbound 900000 1500000 0 0 0\n";

/// The same in format 2, with leaves that share a row.
const SHARED: &str =
    "tqd-tree 2\nplan 165000000 2\nbuy 0 0 100\nbuy 0 1 50\nrow 0 900000 1500000 0 0 0\nsplit 0 1\nbound 0\nbound 0\n";

const ALL_FROM_A: &str =
    "solved\t165.000000\nsupplier\tA\t150\t150\t165.000000\nbuy\tx\t100\t0.900000\t90.000000\n\
     buy\ty\t50\t1.500000\t75.000000\naccepted\t165.000000\n";

const ALL_FROM_B: &str =
    "solved\t175.000000\nsupplier\tB\t150\t1\t175.000000\nbuy\tx\t100\t0.950000\t95.000000\n\
     buy\ty\t50\t1.600000\t80.000000\naccepted\t175.000000\n";

const CHEAPER_FROM_B: &str =
    "solved\t160.000000\nsupplier\tB\t150\t1\t160.000000\nbuy\tx\t100\t0.950000\t95.000000\n\
     buy\ty\t50\t1.300000\t65.000000\naccepted\t160.000000\n";

const PRODUCTS: &str = "product,quantity\npump,40\nvalve,25\n";

const BILL: &str =
    "assembly,part,quantity\npump,seal,2\npump,bolt,8\npump,housing,1\nvalve,seal,1\nvalve,bolt,4\n";

const SUPPLIERS: &str =
    "supplier,from,part,price\nNorth,1,seal,1.20\nNorth,1,bolt,0.15\nNorth,1,housing,18.50\nNorth,500,seal,1.05\n\
     North,500,bolt,0.12\nNorth,500,housing,17.90\nSouth,1,seal,1.10\nSouth,1,bolt,0.14\nSouth,300,seal,1.00\n\
     South,300,bolt,0.11\n";

/// South sells bolts for less.
const NEW_BOLTS: &str =
    "supplier,from,part,price\nNorth,1,seal,1.20\nNorth,1,bolt,0.15\nNorth,1,housing,18.50\nNorth,500,seal,1.05\n\
     North,500,bolt,0.12\nNorth,500,housing,17.90\nSouth,1,seal,1.10\nSouth,1,bolt,0.14\nSouth,300,seal,1.00\n\
     South,300,bolt,0.10\n";

/// A job is solved from the file `old`, and its tree is checked.
const REQUOTE_AND_CHECK: &[&str] = &["requote o - f - old tree", "check o - f - tree"];

/// The same, with terms.
const REQUOTE_WITH_TERMS: &[&str] = &["requote o - f t old tree", "check o - f t tree"];

/// The job of the old tree, and jobs in which prices, needs or terms have changed.
pub(crate) const CHANGED: [Row<'static>; 13] = [
    Row {
        files: &[("o", BOTH), ("f", TWO), ("old", OLD)],
        lines: REQUOTE_AND_CHECK,
        status: 0,
        output: ALL_FROM_A,
    },
    Row {
        files: &[("o", BOTH), ("f", TWO), ("old", SHARED)],
        lines: REQUOTE_AND_CHECK,
        status: 0,
        output: ALL_FROM_A,
    },
    // the old purchase costs what it did, and another is cheaper
    Row {
        files: &[("o", BOTH), ("f", CHEAPER), ("old", OLD)],
        lines: REQUOTE_AND_CHECK,
        status: 0,
        output: CHEAPER_FROM_B,
    },
    Row {
        files: &[("o", BOTH), ("f", CHEAPER), ("old", SHARED)],
        lines: REQUOTE_AND_CHECK,
        status: 0,
        output: CHEAPER_FROM_B,
    },
    // the old purchase costs more than it did
    Row {
        files: &[("o", BOTH), ("f", DEARER), ("old", OLD)],
        lines: REQUOTE_AND_CHECK,
        status: 0,
        output: ALL_FROM_B,
    },
    // the old purchase is not what is needed now
    Row {
        files: &[
            ("o", "product,quantity\nx,100\ny,60\n"),
            ("f", TWO),
            ("old", SHARED),
        ],
        lines: REQUOTE_AND_CHECK,
        status: 0,
        output: "solved\t180.000000\nsupplier\tA\t160\t150\t180.000000\nbuy\tx\t100\t0.900000\t90.000000\n\
                 buy\ty\t60\t1.500000\t90.000000\naccepted\t180.000000\n",
    },
    // A has too few x for the old purchase
    Row {
        files: &[
            ("o", BOTH),
            ("f", TWO),
            ("t", "kind,supplier,part,low,high\nstock,A,x,,60\n"),
            ("old", OLD),
        ],
        lines: REQUOTE_WITH_TERMS,
        status: 0,
        output: ALL_FROM_B,
    },
    // there is no purchase any more
    Row {
        files: &[
            ("o", BOTH),
            ("f", TWO),
            ("t", "kind,supplier,part,low,high\nwinners,,,3,\n"),
            ("old", SHARED),
        ],
        lines: REQUOTE_WITH_TERMS,
        status: 1,
        output: "infeasible\naccepted\tnone\n",
    },
    // there was none before, and is none now
    Row {
        files: &[
            ("o", "product,quantity\nr,10\n"),
            ("f", OFFERS),
            ("t", "kind,supplier,part,low,high\nstock,A,r,,5\n"),
            ("old", "tqd-tree 1\nnone\nempty 1 0 0\n"),
        ],
        lines: REQUOTE_WITH_TERMS,
        status: 1,
        output: "infeasible\naccepted\tnone\n",
    },
    // there was none before
    Row {
        files: &[
            ("o", HUNDRED),
            ("f", OFFERS),
            ("old", "tqd-tree 1\nnone\nempty 1 0 0\n"),
        ],
        lines: REQUOTE_AND_CHECK,
        status: 0,
        output: STEP,
    },
    // the new tree takes the place of the old one
    Row {
        files: &[("o", BOTH), ("f", CHEAPER), ("tree", OLD)],
        lines: &["requote o - f - tree tree", "check o - f - tree"],
        status: 0,
        output: CHEAPER_FROM_B,
    },
    // the same with the tree that was written for the first offers
    Row {
        files: &[
            ("o", PRODUCTS),
            ("b", BILL),
            ("f", SUPPLIERS),
            ("n", NEW_BOLTS),
            (
                "t",
                "kind,supplier,part,low,high\nstock,North,housing,,45\nshare,North,,,800\n",
            ),
        ],
        lines: &[
            "solve o b f t tree",
            "requote o b n t tree tree",
            "check o b n t tree",
        ],
        status: 0,
        output: "solved\t891.200000\nsupplier\tNorth\t40\t1\t740.000000\nbuy\thousing\t40\t18.500000\t740.000000\n\
                 supplier\tSouth\t525\t300\t151.200000\nbuy\tseal\t105\t1.000000\t105.000000\n\
                 buy\tbolt\t420\t0.110000\t46.200000\n\
                 solved\t887.000000\nsupplier\tNorth\t40\t1\t740.000000\nbuy\thousing\t40\t18.500000\t740.000000\n\
                 supplier\tSouth\t525\t300\t147.000000\nbuy\tseal\t105\t1.000000\t105.000000\n\
                 buy\tbolt\t420\t0.100000\t42.000000\naccepted\t887.000000\n",
    },
    // no tree is asked for
    Row {
        files: &[("o", HUNDRED), ("f", OFFERS), ("old", OLD)],
        lines: &["requote o - f - old -"],
        status: 0,
        output: "solved\t8.000000\nsupplier\tA\t100\t100\t8.000000\nbuy\tr\t100\t0.080000\t8.000000\n",
    },
];

/// Old trees that end early, that are of another job, or that are no trees: the answer is the same.
pub(crate) const OLD_TREES: [Row<'static>; 14] = [
    Row {
        files: &[("o", HUNDRED), ("f", OFFERS), ("old", "hello")],
        lines: REQUOTE_AND_CHECK,
        status: 0,
        output: STEP,
    },
    Row {
        files: &[("o", HUNDRED), ("f", OFFERS), ("old", "")],
        lines: REQUOTE_AND_CHECK,
        status: 0,
        output: STEP,
    },
    // the second leaf is not there
    Row {
        files: &[
            ("o", HUNDRED),
            ("f", OFFERS),
            (
                "old",
                "tqd-tree 1\nplan 8000000 1\nbuy 0 0 100\nsplit 0 0\nbound 80000\n",
            ),
        ],
        lines: REQUOTE_AND_CHECK,
        status: 0,
        output: STEP,
    },
    Row {
        files: &[("o", HUNDRED), ("f", OFFERS), ("old", SHARED)],
        lines: REQUOTE_AND_CHECK,
        status: 0,
        output: STEP,
    },
    Row {
        files: &[
            ("o", BOTH),
            ("f", TWO),
            (
                "old",
                "tqd-tree 2\nplan 8000000 1\nbuy 0 0 100\nrow 0 80000 0 0\nbound 0\n",
            ),
        ],
        lines: REQUOTE_AND_CHECK,
        status: 0,
        output: ALL_FROM_A,
    },
    // a row with one price too few, and one with one too many
    Row {
        files: &[
            ("o", HUNDRED),
            ("f", OFFERS),
            (
                "old",
                "tqd-tree 2\nplan 8000000 1\nbuy 0 0 100\nrow 0 80000 0\nbound 0\n",
            ),
        ],
        lines: REQUOTE_AND_CHECK,
        status: 0,
        output: STEP,
    },
    Row {
        files: &[
            ("o", HUNDRED),
            ("f", OFFERS),
            (
                "old",
                "tqd-tree 2\nplan 8000000 1\nbuy 0 0 100\nrow 0 80000 0 0 0\nbound 0\n",
            ),
        ],
        lines: REQUOTE_AND_CHECK,
        status: 0,
        output: STEP,
    },
    // a slot that was not given, and a leaf without a right price
    Row {
        files: &[
            ("o", HUNDRED),
            ("f", OFFERS),
            (
                "old",
                "tqd-tree 2\nplan 8000000 1\nbuy 0 0 100\nrow 0 80000 0 0\nbound 1\n",
            ),
        ],
        lines: REQUOTE_AND_CHECK,
        status: 0,
        output: STEP,
    },
    Row {
        files: &[
            ("o", HUNDRED),
            ("f", OFFERS),
            (
                "old",
                "tqd-tree 1\nplan 8000000 1\nbuy 0 0 100\nbound 4000000000000001 0 0\n",
            ),
        ],
        lines: REQUOTE_AND_CHECK,
        status: 0,
        output: STEP,
    },
    // a cost that the old purchase does not have
    Row {
        files: &[
            ("o", HUNDRED),
            ("f", OFFERS),
            (
                "old",
                "tqd-tree 1\nplan 1 1\nbuy 0 0 100\nbound 80000 0 0\n",
            ),
        ],
        lines: REQUOTE_AND_CHECK,
        status: 0,
        output: STEP,
    },
    // a leaf that shows nothing, one of winners whose limits can be met, and a split that the root does not have
    Row {
        files: &[
            ("o", HUNDRED),
            ("f", OFFERS),
            (
                "old",
                "tqd-tree 1\nplan 8000000 1\nbuy 0 0 100\nbound 0 0 0\n",
            ),
        ],
        lines: REQUOTE_AND_CHECK,
        status: 0,
        output: STEP,
    },
    Row {
        files: &[
            ("o", HUNDRED),
            ("f", OFFERS),
            ("old", "tqd-tree 1\nplan 8000000 1\nbuy 0 0 100\nwinners\n"),
        ],
        lines: REQUOTE_AND_CHECK,
        status: 0,
        output: STEP,
    },
    Row {
        files: &[
            ("o", HUNDRED),
            ("f", OFFERS),
            (
                "old",
                "tqd-tree 1\nplan 8000000 1\nbuy 0 0 100\nsplit 0 2\n",
            ),
        ],
        lines: REQUOTE_AND_CHECK,
        status: 0,
        output: STEP,
    },
    // text behind the tree
    Row {
        files: &[
            ("o", BOTH),
            ("f", TWO),
            (
                "old",
                "tqd-tree 1\nplan 165000000 2\nbuy 0 0 100\nbuy 0 1 50\nbound 900000 1500000 0 0 0\nwinners\n",
            ),
        ],
        lines: REQUOTE_AND_CHECK,
        status: 0,
        output: ALL_FROM_A,
    },
];

/// Faults come in the order in which files are read: the old tree is read once there is a job.
pub(crate) const OLD_FAULTS: [Row<'static>; 3] = [
    Row {
        files: &[("o", HUNDRED), ("f", OFFERS)],
        lines: &["requote o - f - old tree"],
        status: 5,
        output: "cannot read old tree\n",
    },
    Row {
        files: &[("o", HUNDRED), ("f", OFFERS)],
        lines: &["requote o - f t old tree"],
        status: 5,
        output: "cannot read terms\n",
    },
    Row {
        files: &[
            ("o", BOTH),
            (
                "f",
                "supplier,from,part,price\nA,1,x,1.00\nA,1,y,2.00\nA,150,x,0.90\nB,1,x,0.95\nB,1,y,1.60\n",
            ),
        ],
        lines: &["requote o - f - old tree"],
        status: 3,
        output: "bad input: job: no price of y from 150 at A\n",
    },
];

/// Runs in which the old tree cannot be read, or the new one not be written where the old one lies.
pub(crate) const FAILING_REQUOTES: [FailingRow<'static>; 5] = [
    FailingRow {
        call: DeskCall::Open,
        nth: 3,
        files: &[("o", BOTH), ("f", TWO), ("old", OLD)],
        line: "requote o - f - old tree",
        status: 5,
        output: "cannot read old tree\n",
        tree: "",
    },
    // each file is taken once for its bytes, and once for its end
    FailingRow {
        call: DeskCall::Take,
        nth: 5,
        files: &[("o", BOTH), ("f", TWO), ("tree", OLD)],
        line: "requote o - f - tree tree",
        status: 5,
        output: "cannot read old tree\n",
        tree: OLD,
    },
    FailingRow {
        call: DeskCall::Take,
        nth: 6,
        files: &[("o", BOTH), ("f", TWO), ("tree", OLD)],
        line: "requote o - f - tree tree",
        status: 5,
        output: "cannot read old tree\n",
        tree: OLD,
    },
    FailingRow {
        call: DeskCall::Make,
        nth: 1,
        files: &[("o", BOTH), ("f", TWO), ("tree", OLD)],
        line: "requote o - f - tree tree",
        status: 6,
        output: "",
        tree: OLD,
    },
    FailingRow {
        call: DeskCall::Put,
        nth: 3,
        files: &[("o", BOTH), ("f", TWO), ("tree", OLD)],
        line: "requote o - f - tree tree",
        status: 6,
        output: "",
        tree: "tqd-tree 2\nplan 165000000 2\nbuy 0 ",
    },
];
