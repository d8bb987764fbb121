// The runs of which specs/Demands speaks are those of the call: one run, and the runs before and after a list of changes.
ghost use Rattle.demands.specs.Demands.{Run, Demand1, Demand2, Demand3};

use calls::answers::Refusal;
use settlement::settle::{Settled, settle};

#[derive(Clone, Copy)]
pub struct Answers {
    pub before: Result<Settled, Refusal>,
    pub after: Result<Settled, Refusal>,
}

// One case settled is a run of the demands, and meets the first two.
pub fn settled_once<'a>(
    file: &'a [u8],
    correction: &'a [u8],
    rows: &mut [u8],
) -> Result<Settled, Refusal>
    ensures run { Run file.now correction.now rows.old result rows.new }
    ensures demand1 { Demand1 file.now correction.now rows.old result rows.new }
    ensures demand2 { Demand2 file.now correction.now rows.old result rows.new }
{
    settle(file, correction, rows)
}

// Two cases settled whole with one correction, each into a rows buffer of its own.
fn both_settled<'a>(
    file: &'a [u8],
    worse: &'a [u8],
    correction: &'a [u8],
    rows: &mut [u8],
    next: &mut [u8],
) -> Answers
    ensures run { Run file.now correction.now rows.old result.before rows.new }
    ensures worse_run { Run worse.now correction.now next.old result.after next.new }
{
    let before = settled_once(file, correction, rows);
    let after = settled_once(worse, correction, next);
    Answers { before, after }
}

// The cases before and after a list of changes: two runs, of which demand 3 holds.
pub fn settled_twice<'a>(
    file: &'a [u8],
    worse: &'a [u8],
    correction: &'a [u8],
    rows: &mut [u8],
    next: &mut [u8],
) -> Answers
    ensures run { Run file.now correction.now rows.old result.before rows.new }
    ensures worse_run { Run worse.now correction.now next.old result.after next.new }
    ensures demand3 { Demand3 file.now worse.now correction.now rows.old next.old result.before result.after rows.new next.new }
{
    both_settled(file, worse, correction, rows, next)
}
