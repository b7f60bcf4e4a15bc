/// The files that a command reads.
#[derive(Clone, Copy, Debug, PartialEq, Eq)]
pub enum InputFile {
    Orders,
    Bill,
    Offers,
    Terms,
    Tree,
    /// The tree of an earlier answer, from which a job is solved anew.
    Old,
    /// The terms of a scenario, of which there are 1 to 16; they are numbered from 1.
    Scenario(u32),
}
