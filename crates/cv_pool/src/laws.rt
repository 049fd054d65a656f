ghost use Rattle.std.specs.Prelude.{◌≡◌, ◌<◌, ◌≤◌, ℕ, List};
ghost use Rattle.cv_pool.specs.Jobs.{lists_weigh, weigh_below, times, AreBelow};
ghost use Rattle.cv_pool.specs.Hands.{Fill, HandState, AreHandsOf, AreSameHands};

/// What weights say. If some lists weigh what the jobs below a number weigh, each of these jobs is in them exactly once,
/// and no other. If they weigh at most that, no job is in them twice, and all are below the number.
pub fn weight_laws()
    ensures once { (lists : List (List ℕ)) (n j : ℕ) → ((h : ℕ → ℕ) → lists_weigh h lists ≡ weigh_below h n) → j < n → times j lists ≡ 1 }
    ensures at_most_once { (lists : List (List ℕ)) (n j : ℕ) → ((h : ℕ → ℕ) → lists_weigh h lists ≤ weigh_below h n) → times j lists ≤ 1 }
    ensures below { (lists : List (List ℕ)) (n : ℕ) → ((h : ℕ → ℕ) → lists_weigh h lists ≤ weigh_below h n) → AreBelow n lists }
{}

/// Hands stay those of their fill, whatever they take.
pub fn hand_laws()
    ensures same { (fill : Fill) (hs ks : List HandState) → AreHandsOf fill hs → AreSameHands hs ks → AreHandsOf fill ks }
{}
