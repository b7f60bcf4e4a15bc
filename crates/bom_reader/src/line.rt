/// A line of a bill of materials: so many units of the part go into one unit of the assembly. Both
/// are numbers of names.
#[derive(Clone, Copy, Debug, PartialEq, Eq)]
pub struct Line {
    pub assembly: u32,
    pub part: u32,
    pub quantity: u64,
}
