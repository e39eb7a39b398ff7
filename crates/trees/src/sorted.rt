ghost use Rattle.std.specs.Prelude.{◌≡◌, ℕ, ◌+◌, ◌<◌, true, false, length, get_or};
ghost use Rattle.trees.specs.Pairs.{Pair, meet, Decides};

// Whether two nodes have the same vertex and depth, and different parents.
fn meets(x: u64, y: u64) -> bool
    ensures { result ≡ meet x y }
{
    x / 1024 == y / 1024 && x != y
}

// Whether two nodes that stand side by side are a pair.
fn side_by_side(nodes: &[u64]) -> bool
    ensures yes { result ≡ true → (k : ℕ) × (k + 1 < length nodes.now) × (meet (get_or nodes.now k 0) (get_or nodes.now (k + 1) 0) ≡ true) }
    ensures no { result ≡ false → (k : ℕ) → k + 1 < length nodes.now → meet (get_or nodes.now k 0) (get_or nodes.now (k + 1) 0) ≡ false }
{
    nodes.windows(2).any(|w| meets(w[0], w[1]))
}

// Whether a list of nodes has a pair; sorts it: then the nodes of a pair, or two like them, stand side by side.
#[tactic(auto, using(crate::proofs::SideBySide::sorted_pair))]
pub fn has_pair(nodes: &mut [u64]) -> bool
    ensures { Decides result (Pair nodes.old) }
{
    sorting::sort(nodes);
    side_by_side(nodes)
}
