// What follows from the definitions of a box.
ghost use Rattle.std.specs.Prelude.{◌≡◌, ◌≢◌, ◌++◌, ◌∷◌, ◌<◌, ◌==◌, [], ℕ, ℤ, List, Some, None, drop, length, slice_get, if◌then◌else◌};
ghost use Rattle.mailbox_book.specs.declared.message.Tag.{Tag};
ghost use Rattle.mailbox_book.specs.Boxes.{Entry, first_of, fresh, header, headers_of, tag_number, tag_of, without_first};
ghost use Rattle.mailbox_book.specs.Queues.{Call, IsEarliest, behind_all, numbers_at, posted, posted_headers, queue, taken};

/// Seen by one tag, a box is a queue: a post puts a message at its end, and a take takes the front.
pub fn boxes_are_queues()
    ensures post { (tag other : ℕ) (numbers : List ℤ) (es : List Entry) → queue tag (es ++ fresh other numbers ∷ []) ≡ queue tag es ++ (if other == tag then numbers ∷ [] else []) }
    ensures take { (tag other : ℕ) (es : List Entry) → queue tag (without_first other es) ≡ (if other == tag then drop 1 (queue tag es) else queue tag es) }
    ensures front { (tag : ℕ) (es : List Entry) → first_of tag es ≡ slice_get (queue tag es) 0 }
{}

/// Over any calls, what was taken of a tag and then what still waits is what waited and then what was posted, message by message
/// and in order. So none is taken twice, none is lost, and a message that was taken never waits again.
pub fn taken_at_most_once()
    ensures messages { (tag : ℕ) (calls : List Call) (es : List Entry) → taken calls es tag ++ queue tag (behind_all calls es) ≡ queue tag es ++ posted calls tag }
    ensures stays { (place : ℕ) (calls : List Call) (es : List Entry) → place < length es → numbers_at es place ≡ None → numbers_at (behind_all calls es) place ≡ None }
{}

/// A take gets the earliest message of its tag that waits, and changes no other.
pub fn takes_get_the_earliest()
    ensures some { (tag : ℕ) (numbers : List ℤ) (es : List Entry) → first_of tag es ≡ Some numbers → IsEarliest tag numbers es }
    ensures none { (tag : ℕ) (es : List Entry) → first_of tag es ≡ None → queue tag es ≡ [] }
{}

/// Of two tags neither sees the other, and each tag has a number of its own.
pub fn tags_are_apart()
    ensures post { (tag other : ℕ) (numbers : List ℤ) (es : List Entry) → tag ≢ other → first_of tag (es ++ fresh other numbers ∷ []) ≡ first_of tag es }
    ensures take { (tag other : ℕ) (es : List Entry) → tag ≢ other → first_of tag (without_first other es) ≡ first_of tag es }
    ensures number { (tag : Tag) → tag_of (tag_number tag) ≡ tag }
{}

/// Headers are kept for good: a take leaves them all, and a post adds the header of its message behind them. So over any calls the
/// headers are those that were there and then those of the messages that were posted, in order.
pub fn headers_are_kept()
    ensures post { (tag : Tag) (numbers : List ℤ) (es : List Entry) → headers_of (es ++ fresh (tag_number tag) numbers ∷ []) ≡ headers_of es ++ header tag (length numbers) ∷ [] }
    ensures take { (tag : ℕ) (es : List Entry) → headers_of (without_first tag es) ≡ headers_of es }
    ensures calls { (calls : List Call) (es : List Entry) → headers_of (behind_all calls es) ≡ headers_of es ++ posted_headers calls }
{}
