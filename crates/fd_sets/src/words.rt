// Sets of items as words of 64 bits: bit x mod 64 of word x div 64 stands for item x.
ghost use Rattle.std.specs.Prelude.{◌≡◌, ℕ, ◌*◌, ◌/◌, ◌<◌, ◌≤◌, ◌||◌, ◌&&◌, not, nat_eq, length, IfSome, IfNone};
ghost use Rattle.fd_sets.specs.Sets.{in_words, IsLeastIn, AreNoneFrom};

/// An item is in.
pub fn has(words: &[u64], item: u16) -> bool
    ensures { result ≡ in_words words.now item }
{
    let place = usize::from(item / 64);
    place < words.len() && (words[place] >> (item % 64)) & 1 == 1
}

/// Puts an item in.
pub fn put(words: &mut [u64], item: u16)
    requires { item / 64 < length words.old }
    ensures count { length words.new ≡ length words.old }
    ensures members { (q : ℕ) → in_words words.new q ≡ (nat_eq item q || in_words words.old q) }
{
    let place = usize::from(item / 64);
    words[place] |= 1u64 << (item % 64);
}

/// Adds the items of other words.
pub fn unite(words: &mut [u64], others: &[u64])
    requires { length others.now ≡ length words.old }
    ensures count { length words.new ≡ length words.old }
    ensures members { (q : ℕ) → in_words words.new q ≡ (in_words words.old q || in_words others.now q) }
{
    for i in 0..words.len() {
        words[i] |= others[i];
    }
}

/// Leaves the items that are in other words too.
pub fn meet(words: &mut [u64], others: &[u64])
    requires { length others.now ≡ length words.old }
    ensures count { length words.new ≡ length words.old }
    ensures members { (q : ℕ) → in_words words.new q ≡ (in_words words.old q && in_words others.now q) }
{
    for i in 0..words.len() {
        words[i] &= others[i];
    }
}

/// Leaves the items that aren't in other words.
pub fn drop_all(words: &mut [u64], others: &[u64])
    requires { length others.now ≡ length words.old }
    ensures count { length words.new ≡ length words.old }
    ensures members { (q : ℕ) → in_words words.new q ≡ (in_words words.old q && not (in_words others.now q)) }
{
    for i in 0..words.len() {
        words[i] &= !others[i];
    }
}

/// The least item from a word on.
fn least_behind(words: &[u64], place: usize) -> Option<u16>
    requires { length words.now ≤ 1024 }
    ensures some { IfSome result (λ item. IsLeastIn words.now (64 * place) item) }
    ensures none { IfNone result (AreNoneFrom words.now (64 * place)) }
{
    for i in place..words.len() {
        let word = words[i];
        if word != 0 {
            return Some(64 * i as u16 + word.trailing_zeros() as u16);
        }
    }
    None
}

/// The least item from an item on.
pub fn least_from(words: &[u64], item: u16) -> Option<u16>
    requires { length words.now ≤ 1024 }
    ensures some { IfSome result (λ next. IsLeastIn words.now item next) }
    ensures none { IfNone result (AreNoneFrom words.now item) }
{
    let place = usize::from(item / 64);
    if place >= words.len() {
        return None;
    }
    let rest = words[place] >> (item % 64);
    if rest != 0 {
        return Some(item + rest.trailing_zeros() as u16);
    }
    least_behind(words, place + 1)
}
