use tb_perm::Rel;
use tb_walk::EventTags;

/// Tags of which one is shut, and one refuses at some byte, however it meets the event.
#[derive(Clone, Copy, Debug)]
pub struct Marked {
    pub shut: u64,
    pub refuses: u64,
    pub byte: u32,
}

impl EventTags for Marked {
    ghost use Rattle.std.specs.Prelude.{cond, ◌==◌, Some, None};

    ghost shut = { λ tags key. key == tags.shut };

    ghost refused = { λ tags rel key. cond (key == tags.refuses) (Some tags.byte) None };

    fn is_shut(&self, key: u64) -> bool {
        key == self.shut
    }

    fn first_refusal(&self, rel: Rel, key: u64) -> Option<u32> {
        if key == self.refuses {
            return Some(self.byte);
        }
        None
    }
}
