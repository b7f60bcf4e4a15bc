//! The limits of the program: rules of this program, chosen so that every sum fits its type.

/// The greatest quantity, in units of a part.
pub const QTY_MAX: u64 = 100_000_000;

/// The greatest price of one unit, and the greatest fee, in millionths of the currency.
pub const PRICE_MAX: u64 = 1_000_000_000_000;

/// The greatest number of goods, which are the parts that have to be bought.
pub const GOODS_MAX: usize = 1_000;

/// The greatest number of suppliers that offer a good.
pub const SUPPLIERS_MAX: usize = 64;

/// The greatest number of quantity intervals of a supplier.
pub const INTERVALS_MAX: usize = 16;

/// The greatest number of lines of a bill of materials.
pub const LINES_MAX: usize = 100_000;

/// The greatest number of names in orders and bill together.
pub const NAMES_MAX: usize = 20_000;

/// The greatest length of a name, in bytes.
pub const NAME_MAX: usize = 64;

/// The greatest length of an input file other than the tree, in bytes.
pub const FILE_MAX: u64 = 16_777_216;

/// The greatest length of a tree file that is read, in bytes.
pub const TREE_MAX: u64 = 4_611_686_018_427_387_904;

/// The greatest length of a line of a tree without its line feed, in bytes.
pub const LINE_MAX: usize = 65_536;

/// The greatest absolute value of a price in a row of a tree, in millionths of the currency.
pub const DUAL_MAX: i64 = 4_000_000_000_000_000;

/// The greatest upper bound of an arc of a net, in units.
pub const FLOW_MAX: i64 = 10_000_000_000;

/// The greatest number of workers.
pub const WORKERS_MAX: u64 = 64;
