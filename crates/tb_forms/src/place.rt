//! Where an expression stands.

/// Where an expression stands, as far as struct literals go.
#[derive(Clone, Copy, Debug)]
pub enum Where {
    /// A struct literal may stand there.
    Anywhere,
    /// In the condition of `if` or `while`: `{` behind a path begins the block behind the condition.
    Condition,
}
