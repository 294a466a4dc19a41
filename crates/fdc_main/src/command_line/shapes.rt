// What `clap` would take and no command line here has: `--`, one hyphen alone in front, a plus sign.
ghost use Rattle.std.specs.Prelude.{◌≡◌, string_bytes};
ghost use Rattle.std.specs.List.{list_all};
ghost use Rattle.fdc_main.specs.WordsClean.{is_clean};

pub fn are_clean_words(words: &[String]) -> bool
    ensures { result ≡ list_all (λ word. is_clean (string_bytes word)) words.now }
{
    words.iter().all(|word| is_clean_word(word.as_bytes()))
}

fn is_clean_word(word: &[u8]) -> bool
    ensures { result ≡ is_clean word.now }
{
    let is_shaped = match word {
        [b'-', b'-', _, ..] => true,
        [b'-', ..] => false,
        _ => true,
    };
    is_shaped && !word.contains(&b'+')
}
