ghost use Rattle.std.specs.Prelude.{◌≡◌, ◌*◌, ◌<◌, length};
ghost use Rattle.steiner.specs.System.{cols};
ghost use Rattle.steiner.specs.Build.{Ready, entry, steiner_plan};

use crate::system;
use square::signed;

// The entry of point i and triple j.
#[tactic(auto, unfolding(crate::specs::Build::entry))]
fn entry(order: usize, lift: usize, voltages: &[i16], i: usize, j: usize) -> i16
    requires { Ready order lift voltages.now × (j < cols order) }
    ensures { result ≡ entry order lift voltages.now i j }
{
    let t = system::triple_at(order, j);
    match system::place_in(t, i) {
        Some(k) => {
            let voltage = signed::entry(voltages[3 * j + k]).unwrap_or(0);
            signed::make(true, voltage % lift)
        }
        None => signed::make(false, 0),
    }
}

// Writes the plan, row by row.
pub fn fill(order: usize, lift: usize, voltages: &[i16], plan: &mut [i16])
    requires { Ready order lift voltages.now × (length plan.old ≡ order * cols order) }
    ensures { plan.new ≡ steiner_plan order lift voltages.now }
{
    let cols = system::cols(order);
    for n in 0..order * cols {
        plan[n] = entry(order, lift, voltages, n / cols, n % cols);
    }
}
