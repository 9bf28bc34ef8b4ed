ghost use Rattle.std.specs.Prelude.{◌≡◌};
ghost use Rattle.plans.specs.Items.{Items, Lawful, height_of, present};

/// No plan knows an item of this number or above.
pub const ITEMS: usize = 256;

/// The containers that an item lies in, in order: none, one or two.
pub type Containers = [Option<u32>; 2];

/// A plan tells, for every number, whether the item is known and in which containers it lies.
///
/// No question is refused, and none changes the plan. Every implementation shows that its answers are read off its meaning, and that the meaning keeps the laws:
/// numbers above 255 are unknown; an item has at most two containers, different ones, known, and each of a lower number than the item; no run of containers
/// above an item is longer than 7; an unknown item has no containers and height 0.
pub trait Plan {
    // The known items, and the containers of each.
    ghost meaning: { Self → Items };

    /// Is the item known?
    fn known(&self, item: u32) -> bool
        ensures answer { result ≡ (meaning self.now).known item };

    /// The containers that the item lies in.
    fn containers(&self, item: u32) -> Containers
        ensures answer { present result ≡ (meaning self.now).containers item };

    /// The length of the longest run of containers above the item.
    fn height(&self, item: u32) -> u32
        ensures answer { result ≡ height_of (meaning self.now) item };

    ghost lawful: { (plan : Self) → Lawful (meaning plan) };
}
