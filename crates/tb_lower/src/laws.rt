//! What the names of locals are.
ghost use Rattle.std.specs.Prelude.{◌≡◌, ℕ, length, map};
ghost use Rattle.std.specs.List.{range_with_len};
ghost use Rattle.tb_lower.specs.Ways.{Shape, brings, count, number, ways};

/// The ways to the locals of a shape are numbered one after another, so no two have one number, and
/// there is one way for each local.
pub fn law_names()
    ensures numbers { (start : ℕ) (shape : Shape) → map (number start shape) (ways shape) ≡ range_with_len start (count shape) }
    ensures locals { (shape : Shape) → length (brings shape) ≡ count shape }
{}
