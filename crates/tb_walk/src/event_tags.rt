use tb_perm::Rel;

/// The tags of a tree as one event meets them, each at all bytes of the event together.
pub trait EventTags {
    ghost use Rattle.std.specs.Prelude.{◌≡◌, ℕ, Bool, Option};
    ghost use Rattle.tb_perm.specs.declared.perm.Rel.{Rel};

    /// A tag is shut where its mark, at every byte of the event, leaves alone what happens there.
    ghost shut: { Self → ℕ → Bool };

    /// The first byte at which a tag refuses the event, if it does at any.
    ghost refused: { Self → Rel → ℕ → Option ℕ };

    /// Whether the tag is shut.
    fn is_shut(&self, key: u64) -> bool
        ensures { result ≡ shut self.now key };

    /// The first byte at which a tag refuses the event, which it meets as local or foreign.
    fn first_refusal(&self, rel: Rel, key: u64) -> Option<u32>
        ensures { result ≡ refused self.now rel key };
}
