// The girth test by sorted pairs (source 000, Algorithm B): from each column the tree of walks is grown and sorted in a lent work
// list. It answers only whether a plan passes.
#![tactic(auto)]

ghost use Rattle.std.specs.Prelude.{◌≡◌, None, length};
ghost use Rattle.refusal.specs.Lowest.{lowest};
ghost use Rattle.girth.specs.Test.{test_rules};
ghost use Rattle.treetest.specs.Answer.{Answer, Leaves};

use exponent::plan::Plan;
use index::rows::Graph;
use refusal::Refusal;
use trees::columns;

// Tests a plan at a target that is not turned away: first whether every tree has room, then whether one has a pair.
fn test_valid(plan: &Plan, target: usize, work: &mut [u64]) -> Result<bool, Refusal>
    requires { lowest (test_rules plan.now.entries.now plan.now.shape.rows plan.now.shape.cols plan.now.shape.lift target) ≡ None }
    ensures answers { Answer plan.now.entries.now plan.now.shape.rows plan.now.shape.cols plan.now.shape.lift target (length work.old) result }
    ensures leaves { Leaves work.old work.new result }
{
    let mut down = [0u16; index::PLACES];
    let mut along = [0u16; index::PLACES];
    let graph = Graph::new(*plan, &mut down, &mut along);
    let depth = target / 2 - 1;
    let places = work.len();
    if columns::any_overfull(&graph, depth, places) {
        return Err(Refusal::WorkPlace);
    }
    Ok(!columns::any_pair(&graph, depth, work))
}

// Whether no simple cycle has fewer edges than the target, and the plan passes.
pub fn test(
    plan: &[i16],
    rows: usize,
    cols: usize,
    lift: usize,
    target: usize,
    work: &mut [u64],
) -> Result<bool, Refusal>
    ensures answers { Answer plan.now rows cols lift target (length work.old) result }
    ensures leaves { Leaves work.old work.new result }
{
    let plan = girth::judge(plan, rows, cols, lift, target)?;
    test_valid(&plan, target, work)
}
