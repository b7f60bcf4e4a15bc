/// Why a bill has no needs that can be counted. It carries the number of a name.
#[derive(Clone, Copy, Debug, PartialEq, Eq)]
pub enum ExplodeFault {
    /// The name goes into itself, through one line or several: the least such name.
    Circle(u32),
    /// More than 100,000,000 units of the name are needed: the least such name.
    NeedRange(u32),
}
