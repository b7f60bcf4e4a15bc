ghost use Rattle.std.specs.Prelude.{◌≤◌, ◌^◌};

use crate::buffer::{LineBuffer, line_end};
use crate::due::{Due, verdict_by};
use crate::judge::Judge;
use crate::rejection::{Feed, Rejection, Verdict, Why};
use std::alloc::Global;
use tqd_base::Memory;
use tqd_instance::Job;

/// Checks a text of a tree, of either format, that comes in pieces. It keeps the line that is not ended yet, the plan, the
/// prices of one row, the rows in 64 slots and the boxes that are due.
#[derive(Debug, Drop)]
pub struct CheckRun<'j> {
    taken: u64,
    lines: u64,
    line: LineBuffer,
    judge: Judge<'j>,
    pub ghost within: { taken ≤ 2 ^ 63 },
    pub ghost counted: { lines ≤ taken },
}

impl<'j> CheckRun<'j> {
    ghost use Rattle.std.specs.Prelude.{ℕ, false, ◌≡◌, ◌≤◌, ◌<◌, ◌+◌, ◌^◌, [], ◌++◌, length, take, IfOk};
    ghost use Rattle.tqd_base.specs.World.{Bytes};
    ghost use Rattle.bound_tree.specs.ReadLine.{read_line};
    ghost use Rattle.tree_checker.specs.Verdict.{Phase, Progress, reading, is_whole, line_ended, after_line, after_bytes, verdict};
    ghost use Rattle.tree_checker.specs.Run.{job_of, taken_by, IsAt, Stands, AnswersPiece};

    /// A run that was fed nothing. It reserves a line of 65,536 bytes, 2,024 prices, 1,025 boxes, a plan and 64 rows of the
    /// root, which are at most 1,036,288 bytes; no other call here takes memory.
    #[tactic(auto, unfolding(crate::specs::Run::job_of, crate::specs::Run::taken_by, crate::specs::Run::Stands))]
    pub fn start(alloc: Global, job: &'j Job) -> Result<CheckRun<'j>, Memory>
        ensures job { IfOk result (λ run. job_of run ≡ job.now) }
        ensures taken { IfOk result (λ run. taken_by run ≡ 0) }
        ensures stands { IfOk result (λ run. Stands run []) }
    {
        Ok(CheckRun {
            taken: 0,
            lines: 0,
            line: LineBuffer::start(alloc)?,
            judge: Judge::start(alloc, job)?,
        })
    }

    /// How many bytes were fed.
    #[tactic(auto, unfolding(crate::specs::Run::job_of, crate::specs::Run::taken_by, crate::specs::Run::Stands))]
    pub fn taken(&self) -> u64
        ensures value { result ≡ taken_by self.now }
        ensures of_fed { (fed : Bytes) → Stands self.now fed → result ≡ length fed }
        ensures within { result ≤ 2 ^ 63 }
    {
        self.taken
    }

    /// Feeds the next piece, and says whether what was fed so far is rejected whatever follows.
    #[tactic(auto, unfolding(crate::specs::Run::job_of, crate::specs::Run::taken_by))]
    pub fn feed(&mut self, piece: &[u8]) -> Feed
        requires { taken_by self.old + length piece.now ≤ 2 ^ 63 }
        ensures job { job_of self.new ≡ job_of self.old }
        ensures taken { taken_by self.new ≡ taken_by self.old + length piece.now }
        ensures stands { (fed : Bytes) → Stands self.old fed → Stands self.new (fed ++ piece.now) }
        ensures answer { (fed : Bytes) → Stands self.old fed → AnswersPiece (job_of self.old) (fed ++ piece.now) result }
    {
        let mut at = 0;
        while at < piece.len() {
            at += self.feed_line(&piece[at..]);
        }
        match self.judge.due() {
            Due::Ended(rejection) => Feed::Rejected(rejection),
            _ => Feed::More,
        }
    }

    /// The verdict of what was fed.
    #[tactic(auto, unfolding(crate::specs::Run::job_of, crate::specs::Run::taken_by))]
    pub fn finish(self) -> Verdict
        ensures { (fed : Bytes) → Stands self.entry fed → result ≡ verdict (job_of self.entry) fed }
    {
        verdict_by(self.judge.due(), self.judge.has_no_box(), self.lines + 1)
    }

    // Feeds the piece up to its first line feed, where it has one, and says how many bytes that is.
    #[tactic(auto, unfolding(crate::specs::Run::job_of, crate::specs::Run::taken_by))]
    fn feed_line(&mut self, piece: &[u8]) -> usize
        requires some { 0 < length piece.now }
        requires room { taken_by self.old + length piece.now ≤ 2 ^ 63 }
        ensures some { 0 < result }
        ensures within { result ≤ length piece.now }
        ensures job { job_of self.new ≡ job_of self.old }
        ensures taken { taken_by self.new ≡ taken_by self.old + result }
        ensures at { (progress : Progress) → IsAt self.old progress
            → IsAt self.new (after_bytes (job_of self.old) progress (take result piece.now)) }
    {
        if let Due::Ended(_) = self.judge.due() {
            return self.pass_over(piece);
        }
        if self.judge.is_whole() {
            // No byte may follow a whole tree.
            self.judge.end(Rejection {
                line: self.lines + 1,
                why: Why::Trailing,
            });
            return self.pass_over(piece);
        }
        self.read(piece)
    }

    // Counts a piece that changes nothing any more.
    #[tactic(auto, unfolding(crate::specs::Run::job_of, crate::specs::Run::taken_by))]
    fn pass_over(&mut self, piece: &[u8]) -> usize
        requires { taken_by self.old + length piece.now ≤ 2 ^ 63 }
        ensures all { result ≡ length piece.now }
        ensures taken { taken_by self.new ≡ taken_by self.old + result }
        ensures at { (progress : Progress) → IsAt self.old progress → IsAt self.new progress }
        ensures judge { self.new.judge ≡ self.old.judge }
    {
        self.taken += piece.len() as u64;
        piece.len()
    }

    // Reads a piece up to its first line feed, where it has one, while lines are due.
    #[tactic(auto, unfolding(crate::specs::Run::job_of, crate::specs::Run::taken_by))]
    fn read(&mut self, piece: &[u8]) -> usize
        requires some { 0 < length piece.now }
        requires room { taken_by self.old + length piece.now ≤ 2 ^ 63 }
        ensures some { 0 < result }
        ensures within { result ≤ length piece.now }
        ensures job { job_of self.new ≡ job_of self.old }
        ensures taken { taken_by self.new ≡ taken_by self.old + result }
        ensures at { (lines : ℕ) (line : Bytes) (phase : Phase) → IsAt self.old (reading lines line phase) → is_whole phase ≡ false
            → IsAt self.new (after_bytes (job_of self.old) (reading lines line phase) (take result piece.now)) }
    {
        match line_end(piece) {
            Some(at) => {
                self.line.add(&piece[..at]);
                self.taken += at as u64 + 1;
                self.end_line();
                at + 1
            }
            None => {
                self.line.add(piece);
                self.taken += piece.len() as u64;
                piece.len()
            }
        }
    }

    // Judges the line that has ended, and begins the next one.
    #[tactic(auto, unfolding(crate::specs::Run::job_of, crate::specs::Run::taken_by))]
    fn end_line(&mut self)
        requires { self.old.lines < self.old.taken }
        ensures job { job_of self.new ≡ job_of self.old }
        ensures taken { taken_by self.new ≡ taken_by self.old }
        ensures at { (lines : ℕ) (line : Bytes) (phase : Phase) → IsAt self.old (reading lines line phase)
            → IsAt self.new (line_ended (lines + 1) (after_line (job_of self.old) (lines + 1) phase (read_line line))) }
    {
        self.lines += 1;
        self.judge.judge(self.lines, &self.line);
        self.line.clear();
    }
}
