// The laws of one box and the places of its two ranks.
ghost use Rattle.std.specs.Prelude.{◌≡◌, ◌<◌, ◌≤◌, ◌++◌, ◌∷◌, [], ℕ, Bool, true, Some, suc, nat_lt, is_some};
ghost use Rattle.mailbox_book.specs.declared.message.Message.{Message};
ghost use Rattle.mailbox_book.specs.Boxes.{without_first, first_of};
ghost use Rattle.message_laws.specs.Behaviour.{Behaviour, tag_in, Post, Take, posted_by, taken_by, posts, takes};
ghost use Rattle.message_laws.specs.Boxes.{new_entry, box_of, Fits};
ghost use Rattle.message_laws.specs.System.{Standing, stepped};

/// A post puts its message at the end of the box.
pub fn box_after_post()
    ensures { (b : Behaviour) (q r i j : ℕ) (m : Message) → b.action q i ≡ Post r m → Fits b q r i j → box_of b q r (suc i) j ≡ box_of b q r i j ++ new_entry m ∷ [] }
{}

/// Another action of the sender leaves the box.
pub fn box_without_post()
    ensures { (b : Behaviour) (q r i j : ℕ) → posted_by (b.action q i) r ≡ [] → box_of b q r (suc i) j ≡ box_of b q r i j }
{}

/// A take takes the earliest message of its tag.
pub fn box_after_take()
    ensures { (b : Behaviour) (q r i j tag : ℕ) → b.action r j ≡ Take q tag → takes b q r tag j < posts b q r tag i → box_of b q r i (suc j) ≡ without_first tag (box_of b q r i j) }
{}

/// Another action of the receiver leaves the box.
pub fn box_without_take()
    ensures { (b : Behaviour) (q r i j : ℕ) → taken_by (b.action r j) q ≡ [] → box_of b q r i (suc j) ≡ box_of b q r i j }
{}

/// A message of a tag is in the box exactly where more were posted than taken.
pub fn box_has_a_message()
    ensures { (b : Behaviour) (q r i j tag : ℕ) → is_some (first_of tag (box_of b q r i j)) ≡ nat_lt (takes b q r tag j) (posts b q r tag i) }
{}

/// It is the message that was posted as number so many of its tag.
pub fn box_gives_the_message()
    ensures { (b : Behaviour) (q r i j at tag : ℕ) (m : Message) → b.action q at ≡ Post r m → tag_in m ≡ tag → posts b q r tag at ≡ takes b q r tag j → at < i → first_of tag (box_of b q r i j) ≡ Some m.numbers }
{}

/// The box fits behind a step of the receiver.
pub fn box_fits_after_take()
    ensures { (b : Behaviour) (q r i : ℕ) (s : Standing) (found : Bool) (stop : ℕ) → ((tag : ℕ) → b.action r s.place ≡ Take q tag → found ≡ true → takes b q r tag s.place < posts b q r tag i) → Fits b q r i s.place → Fits b q r i (stepped b r s found stop).place }
{}

/// The box fits behind steps of the sender.
pub fn box_fits_after_post()
    ensures { (b : Behaviour) (q r i later j : ℕ) → i ≤ later → Fits b q r i j → Fits b q r later j }
{}
