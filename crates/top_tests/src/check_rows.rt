//! Trees that are checked.
use crate::runs::Row;

const OFFERS: &str = "supplier,from,part,price\nA,1,r,0.10\nA,100,r,0.08\n";

const TWO: &str =
    "supplier,from,part,price\nA,1,x,1.00\nA,1,y,2.00\nA,150,x,0.90\nA,150,y,1.50\nB,1,x,0.95\nB,1,y,1.60\n";

const HUNDRED: &str = "product,quantity\nr,100\n";

const BOTH: &str = "product,quantity\nx,100\ny,50\n";

const NO_TERMS: &str = "kind,supplier,part,low,high\n";

const TREE: &str = "tqd-tree 1\nplan 8000000 1\nbuy 0 0 100\nbound 80000 0 0\n";

/// Trees on an order of 100 units: those that are right, and each with something wrong.
pub(crate) const TREES: [Row<'static>; 15] = [
    Row {
        files: &[
            ("o", HUNDRED),
            ("f", OFFERS),
            ("t", NO_TERMS),
            (
                "tree",
                "tqd-tree 2\nplan 8000000 1\nbuy 0 0 100\nsplit 0 0\nrow 0 80000 0 0\nbound 0\nbound 0\n",
            ),
        ],
        lines: &["check o - f t tree"],
        status: 0,
        output: "accepted\t8.000000\n",
    },
    Row {
        files: &[
            ("o", HUNDRED),
            ("f", OFFERS),
            ("t", NO_TERMS),
            (
                "tree",
                "tqd-tree 2\nplan 8000000 1\nbuy 0 0 100\nrow 0 80000 0 0\nbound 1\n",
            ),
        ],
        lines: &["check o - f t tree"],
        status: 4,
        output: "rejected\t5\tbad row slot 1\n",
    },
    Row {
        files: &[
            ("o", HUNDRED),
            ("f", OFFERS),
            ("t", NO_TERMS),
            ("tree", TREE),
        ],
        lines: &["check o - f t tree"],
        status: 0,
        output: "accepted\t8.000000\n",
    },
    Row {
        files: &[
            ("o", HUNDRED),
            ("f", OFFERS),
            ("t", NO_TERMS),
            (
                "tree",
                "tqd-tree 1\nplan 8000000 1\nbuy 0 0 100\nbound 80001 0 0\n",
            ),
        ],
        lines: &["check o - f t tree"],
        status: 0,
        output: "accepted\t8.000000\n",
    },
    Row {
        files: &[
            ("o", HUNDRED),
            ("f", OFFERS),
            ("t", NO_TERMS),
            (
                "tree",
                "tqd-tree 1\nplan 8000000 1\nbuy 0 0 100\nbound 79999 0 0\n",
            ),
        ],
        lines: &["check o - f t tree"],
        status: 4,
        output: "rejected\t4\tvalue 7999900 below cost 8000000\n",
    },
    Row {
        files: &[
            ("o", HUNDRED),
            ("f", OFFERS),
            ("t", NO_TERMS),
            (
                "tree",
                "tqd-tree 1\nplan 8000000 1\nbuy 0 0 99\nbound 80000 0 0\n",
            ),
        ],
        lines: &["check o - f t tree"],
        status: 4,
        output: "rejected\t2\tgood 0 gets 99\n",
    },
    Row {
        files: &[
            ("o", HUNDRED),
            ("f", OFFERS),
            ("t", NO_TERMS),
            (
                "tree",
                "tqd-tree 1\nplan 7999999 1\nbuy 0 0 100\nbound 80000 0 0\n",
            ),
        ],
        lines: &["check o - f t tree"],
        status: 4,
        output: "rejected\t2\tcost said 7999999, is 8000000\n",
    },
    Row {
        files: &[
            ("o", HUNDRED),
            ("f", OFFERS),
            ("t", NO_TERMS),
            ("tree", "tqd-tree 1\nplan 8000000 1\nbuy 0 0 100\n"),
        ],
        lines: &["check o - f t tree"],
        status: 4,
        output: "rejected\t4\tends early\n",
    },
    Row {
        files: &[
            ("o", HUNDRED),
            ("f", OFFERS),
            ("t", NO_TERMS),
            (
                "tree",
                "tqd-tree 1\nplan 8000000 1\nbuy 0 0 100\nbound 80000 0 0\nwinners\n",
            ),
        ],
        lines: &["check o - f t tree"],
        status: 4,
        output: "rejected\t5\ttext after the tree\n",
    },
    Row {
        files: &[
            ("o", HUNDRED),
            ("f", OFFERS),
            ("t", NO_TERMS),
            ("tree", "tqd-tree 1\nnone\nbound 80000 0 0\n"),
        ],
        lines: &["check o - f t tree"],
        status: 4,
        output: "rejected\t3\tbound without a plan\n",
    },
    Row {
        files: &[
            ("o", HUNDRED),
            ("f", OFFERS),
            ("t", "kind,supplier,part,low,high\nfee,A,,,1"),
            (
                "tree",
                "tqd-tree 1\nplan 9000000 1\nbuy 0 0 100\nbound 90000 0 0\n",
            ),
        ],
        lines: &["check o - f t tree"],
        status: 0,
        output: "accepted\t9.000000\n",
    },
    Row {
        files: &[
            ("o", HUNDRED),
            ("f", OFFERS),
            ("t", "kind,supplier,part,low,high\nfee,A,,,1"),
            (
                "tree",
                "tqd-tree 1\nplan 9000000 1\nbuy 0 0 100\nbound 80000 0 0\n",
            ),
        ],
        lines: &["check o - f t tree"],
        status: 4,
        output: "rejected\t4\tvalue 8000000 below cost 9000000\n",
    },
    Row {
        files: &[
            ("o", HUNDRED),
            ("f", OFFERS),
            ("t", "kind,supplier,part,low,high\nstock,A,r,,5"),
            ("tree", "tqd-tree 1\nnone\nempty 1 0 0\n"),
        ],
        lines: &["check o - f t tree"],
        status: 1,
        output: "accepted\tnone\n",
    },
    Row {
        files: &[
            ("o", HUNDRED),
            ("f", OFFERS),
            ("t", "kind,supplier,part,low,high\nstock,A,r,,5"),
            ("tree", "tqd-tree 1\nnone\nempty 0 0 0\n"),
        ],
        lines: &["check o - f t tree"],
        status: 4,
        output: "rejected\t3\tfree value 0 is not above 0\n",
    },
    Row {
        files: &[("o", HUNDRED), ("f", OFFERS)],
        lines: &["check o - f - tree"],
        status: 5,
        output: "cannot read tree\n",
    },
];

/// Trees whose lines are of no form, and trees on two goods.
pub(crate) const FORMS: [Row<'static>; 12] = [
    Row {
        files: &[
            ("o", HUNDRED),
            ("f", OFFERS),
            ("t", NO_TERMS),
            (
                "tree",
                "tqd-tree 1\nplan 8000000 1\nbuy 0 0 100\nbound 4000000000000001 0 0\n",
            ),
        ],
        lines: &["check o - f t tree"],
        status: 4,
        output: "rejected\t4\tprice out of range\n",
    },
    Row {
        files: &[
            ("o", HUNDRED),
            ("f", OFFERS),
            ("t", NO_TERMS),
            (
                "tree",
                "tqd-tree 1\nplan 8000000 1\nbuy 0 0 100\nbound -0 0 0\n",
            ),
        ],
        lines: &["check o - f t tree"],
        status: 4,
        output: "rejected\t4\tbad line\n",
    },
    Row {
        files: &[
            ("o", HUNDRED),
            ("f", OFFERS),
            ("t", NO_TERMS),
            (
                "tree",
                "tqd-tree 1\nplan 8000000 1\nbuy 0 0 100\nbound 80000 0 0",
            ),
        ],
        lines: &["check o - f t tree"],
        status: 4,
        output: "rejected\t4\tends early\n",
    },
    Row {
        files: &[
            ("o", HUNDRED),
            ("f", OFFERS),
            ("t", NO_TERMS),
            (
                "tree",
                "tqd-tree 1\nplan 8000000 1\nbuy 0 0 100\nsplit 0 2\n",
            ),
        ],
        lines: &["check o - f t tree"],
        status: 4,
        output: "rejected\t4\tbad split\n",
    },
    Row {
        files: &[
            ("o", HUNDRED),
            ("f", OFFERS),
            ("t", NO_TERMS),
            ("tree", "tqd-tree 1\nplan 8000000 1\nbuy 0 0 100\nwinners\n"),
        ],
        lines: &["check o - f t tree"],
        status: 4,
        output: "rejected\t4\twinner limits can be met\n",
    },
    Row {
        files: &[
            ("o", HUNDRED),
            ("f", OFFERS),
            ("t", NO_TERMS),
            ("tree", "tqd-tree 1\nplan 8000000 2\nbuy 0 0 100\n"),
        ],
        lines: &["check o - f t tree"],
        status: 4,
        output: "rejected\t2\tbad plan line\n",
    },
    Row {
        files: &[("o", HUNDRED), ("f", OFFERS), ("t", NO_TERMS), ("tree", "")],
        lines: &["check o - f t tree"],
        status: 4,
        output: "rejected\t1\tends early\n",
    },
    Row {
        files: &[
            ("o", BOTH),
            ("f", TWO),
            (
                "tree",
                "tqd-tree 1\nplan 165000000 2\nbuy 0 0 100\nbuy 0 1 50\nbound 900000 1500000 0 0 0\n",
            ),
        ],
        lines: &["check o - f - tree"],
        status: 0,
        output: "accepted\t165.000000\n",
    },
    Row {
        files: &[
            ("o", BOTH),
            ("f", TWO),
            (
                "tree",
                "tqd-tree 1\nplan 165000000 2\nbuy 0 0 100\nbuy 0 1 50\n",
            ),
        ],
        lines: &["check o - f - tree"],
        status: 4,
        output: "rejected\t5\tends early\n",
    },
    Row {
        files: &[
            ("o", BOTH),
            ("f", TWO),
            (
                "tree",
                "tqd-tree 1\nplan 165000000 2\nbuy 0 0 100\nbuy 0 1 50\nbound 900000 1500000 0 0 0\nwinners\n",
            ),
        ],
        lines: &["check o - f - tree"],
        status: 4,
        output: "rejected\t6\ttext after the tree\n",
    },
    Row {
        files: &[
            ("o", BOTH),
            ("f", TWO),
            (
                "tree",
                "tqd-tree 1\nplan 165000000 2\nbuy 0 0 100\nbuy 0 1 50\nbound 0900000 1500000 0 0 0\n",
            ),
        ],
        lines: &["check o - f - tree"],
        status: 4,
        output: "rejected\t5\tbad line\n",
    },
    Row {
        files: &[
            ("o", BOTH),
            ("f", TWO),
            (
                "tree",
                "tqd-tree 1\nplan 165000000 2\nbuy 0 0 100\nbuy 0 1 50\nbound 900000 1500000 0 0\n",
            ),
        ],
        lines: &["check o - f - tree"],
        status: 4,
        output: "rejected\t5\t4 prices, wanted 5\n",
    },
];
