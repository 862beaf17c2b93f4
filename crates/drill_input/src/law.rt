ghost use Rattle.std.specs.Prelude.{◌≡◌, ◌∷◌, [], ◌+◌, ◌≤◌, ℕ, pos};
ghost use Rattle.graph_model.specs.Graph.{Graph};
ghost use Rattle.graph_model.specs.Serial.{Outcome, serial};
ghost use Rattle.acyclic_audit.specs.Reaching.{IsReachedCount};
ghost use Rattle.drill_input.specs.Values.{IsDrill};

/// What a number's graph is worth: the serial value of its sink.
pub fn worth(number: u32) -> i64
    ensures sink { (g : Graph) (outcome : Outcome) → IsDrill number g outcome → serial g outcome g.sink ≡ result ∷ [] }
    // The value of each other task.
    ensures numbered { (g : Graph) (outcome : Outcome) (k : ℕ) → IsDrill number g outcome → 1 ≤ k → k ≤ 8192 → serial g outcome k ≡ pos (number + k) ∷ [] }
    ensures versions { (g : Graph) (outcome : Outcome) (i : ℕ) → IsDrill number g outcome → 1 ≤ i → i ≤ 64 → serial g outcome (10000 + i) ≡ pos i ∷ [] }
{
    i64::from(number) + 8256
}

/// How many tasks the sink of such a graph needs: all that there are.
pub fn needed() -> u32
    ensures count { (number : ℕ) (g : Graph) (outcome : Outcome) (n : ℕ) → IsDrill number g outcome → IsReachedCount g n → n ≡ result }
{
    8257
}
