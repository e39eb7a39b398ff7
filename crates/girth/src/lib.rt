// The girth test (document 01: girth verdict): whether a plan's Tanner graph has no simple cycle shorter than a target.
#![tactic(auto)]

ghost use Rattle.std.specs.Prelude.{◌≡◌, ◌+◌, ◌-◌, ◌/◌, ◌≤◌, IfOk};
ghost use Rattle.std.specs.Result.{result_err};
ghost use Rattle.refusal.specs.Lowest.{lowest};
ghost use Rattle.exponent.specs.Plan.{shape_of};
ghost use Rattle.walks.specs.Steps.{blocks};
ghost use Rattle.walks.specs.Trail.{places};
ghost use Rattle.girth.specs.Model.{shortest};
ghost use Rattle.girth.specs.Test.{Answer, allowed, test_rules};

mod rounds; // rounds.rt: cycles of 2, 3, … checks

use exponent::plan::Plan;
use index::rows::Graph;
use refusal::Refusal;
use walks::trail::PLACES;

// A cycle of n checks and n bits; 0 in the places not used.
#[derive(Clone, Copy, Debug, PartialEq, Eq)]
pub struct Cycle {
    pub n: usize,
    pub checks: [usize; PLACES],
    pub bits: [usize; PLACES],
}

// Whether the target is one that the test takes.
#[tactic(auto, unfolding(crate::specs::Test::allowed, graph::specs::Count::member))]
pub fn is_allowed(target: usize) -> bool
    ensures { result ≡ allowed target }
{
    matches!(target, 6 | 8 | 10 | 12 | 14 | 16 | 18)
}

// The plan, where it and the target may be used, or the lowest of refusals 1 to 6 and 14 that applies.
#[tactic(auto, using(crate::proofs::Rules::refused_plan, crate::proofs::Rules::refused_target, crate::proofs::Rules::not_refused))]
pub fn judge<'a>(
    plan: &'a [i16],
    rows: usize,
    cols: usize,
    lift: usize,
    target: usize,
) -> Result<Plan<'a>, Refusal>
    ensures refusal { result_err result ≡ lowest (test_rules plan.entry.now rows cols lift target) }
    ensures plan { IfOk result (λ p. (p.entries ≡ plan.entry) × (p.shape ≡ shape_of rows cols lift)) }
{
    let plan = Plan::new(plan, rows, cols, lift)?;
    if is_allowed(target) {
        Ok(plan)
    } else {
        Err(Refusal::Target)
    }
}

// A shortest cycle of a plan, where it has one of fewer edges than an allowed target.
#[tactic(auto, using(walks::proofs::Stamps::stamps_fresh, walks::proofs::Stamps::stamps_room))]
fn test_valid(plan: &Plan, target: usize) -> Option<Cycle>
    requires { target / 2 ≤ places + 1 }
    ensures { result ≡ shortest (blocks plan.now) (target / 2 - 2) 2 }
{
    let mut down = [0u16; index::PLACES];
    let mut along = [0u16; index::PLACES];
    let graph = Graph::new(*plan, &mut down, &mut along);
    let mut seen = [0u16; walks::STAMPS];
    rounds::shortest_below(&graph, target / 2, &mut seen)
}

// Nothing where no simple cycle has fewer edges than the target, and the plan passes; else a shortest cycle.
pub fn test(
    plan: &[i16],
    rows: usize,
    cols: usize,
    lift: usize,
    target: usize,
) -> Result<Option<Cycle>, Refusal>
    ensures { Answer plan.now rows cols lift target result }
{
    let plan = judge(plan, rows, cols, lift, target)?;
    Ok(test_valid(&plan, target))
}
