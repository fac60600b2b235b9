// Texts of pieces, each a feature and words: the entry of each feature, and whether the list that its words make admits an origin.
#![tactic(auto)]

ghost use Rattle.std.specs.Iterator.{YieldsFirstRef, item_count};
ghost use Rattle.std.specs.Prelude.{◌≡◌, map, ◌≤◌, length};
ghost use Rattle.ascii.specs.Texts.{part_of};
ghost use Rattle.origins.specs.Answers.{origin_in};
ghost use Rattle.allowlists.specs.Allowlists.{allowlist_of, list_admits, meaning_admits};
ghost use Rattle.allowlists.specs.Answers.{meaning_as};
ghost use Rattle.pieces.specs.Pieces.{words, has_keyword};
ghost use Rattle.pieces.specs.Words.{word_meaning, entry_list};
ghost use Rattle.pieces.specs.Answers.{bare_in, words_in, IsNextWord, IsPiece, IsEntries};

use allowlists::MeaningRange;
use ascii::{Class, Outside, TextRange, White};
use origins::OriginRange;

// What a feature means that has no further words.
#[derive(Clone, Copy)]
pub enum Bare {
    SelfOrigin,
    SrcOrigin,
}

// A piece for a feature: its number, and the range of the further words.
#[derive(Clone, Copy)]
struct PieceFor {
    feature: u32,
    words: TextRange,
}

// The first word at or past a place.
pub fn next_word(s: &[u8], at: usize) -> Option<TextRange>
    ensures { IsNextWord s.now at result }
{
    let from = ascii::run_end(s, at, White);
    if s.len() <= from {
        return None;
    }
    let to = ascii::run_end(s, from + 1, Outside(White));
    Some(TextRange { from, to })
}

// The words of a text, one after the other.
#[derive(Clone, Copy, Drop)]
struct Words<'a>(&'a [u8]);

impl<'a> Iterator for Words<'a> {
    type Item = &'a [u8];

    ghost next_gives = { YieldsFirstRef (λ w. words w.0.now) };

    ghost remaining = { item_count (λ w. words w.0.now) };

    fn next(&mut self) -> Option<&'a [u8]> {
        let text = self.0;
        let Some(word) = next_word(text, 0) else {
            self.0 = &[];
            return None;
        };
        self.0 = ascii::part(text, word.to, text.len());
        Some(word.of(text))
    }
}

// Whether a keyword in lower case is among the words of a text, in any case.
pub fn has_keyword(s: &[u8], keyword: &[u8]) -> bool
    ensures { result ≡ has_keyword keyword.now (words s.now) }
{
    Words(s).any(|w| ascii::same_lowered(w, keyword))
}

// A piece of a text, from a place up to another: the feature that it is for.
fn piece_at(s: &[u8], from: usize, to: usize) -> Option<PieceFor>
    requires { (from ≤ to) × (to ≤ length s.now) }
    ensures { IsPiece from (part_of s.now from to) result }
{
    let p = &s[from..to];
    let name = next_word(p, 0)?;
    let feature = features::feature_of(name.of(p))?;
    let from = from + name.to;
    Some(PieceFor {
        feature,
        words: TextRange { from, to },
    })
}

// The entry of each feature, the last piece for it: its further words, as a range of the text. Each byte of a class ends a piece.
pub fn entries<K: Class>(s: &[u8], ends: K) -> [Option<TextRange>; features::COUNT]
    ensures { IsEntries (K.holds ends) s.now result }
{
    let mut found = [None; features::COUNT];
    let mut from: usize = 0;
    // not a `for` over `split`: what is kept are places of the whole text
    while from < s.len() {
        let to = ascii::run_end(s, from, Outside(ends));
        if let Some(piece) = piece_at(s, from, to) {
            let feature = piece.feature as usize;
            found[feature] = Some(piece.words);
        }
        from = to + 1;
    }
    found
}

// What a word means; an expression's host is a range of the word.
pub fn meaning(w: &[u8]) -> Option<MeaningRange>
    ensures { result ≡ meaning_as (word_meaning w.now) }
{
    if ascii::same(w, b"*") {
        return Some(MeaningRange::All);
    }
    if ascii::same_lowered(w, b"'self'") {
        return Some(MeaningRange::SelfOrigin);
    }
    if ascii::same_lowered(w, b"'src'") {
        return Some(MeaningRange::SrcOrigin);
    }
    allowlists::source_meaning(w)
}

// Whether a list of one word admits an origin; `is_self`: it is the self-origin; `is_src`: it is the src-origin.
fn word_admits(w: &[u8], is_self: bool, is_src: bool, t: &[u8], o: OriginRange) -> bool
    ensures { result ≡ meaning_admits (word_meaning w.now) is_self is_src (origin_in t.now o) }
{
    let m = meaning(w);
    allowlists::meaning_admits(w, m, is_self, is_src, t, o)
}

// Whether the list that the words of a text make admits an origin.
fn words_admit(s: &[u8], is_self: bool, is_src: bool, t: &[u8], o: OriginRange) -> bool
    ensures { result ≡ list_admits (allowlist_of (map word_meaning (words s.now))) is_self is_src (origin_in t.now o) }
{
    Words(s).any(|w| word_admits(w, is_self, is_src, t, o))
}

// Whether an entry's list admits an origin; `is_self`: it is the self-origin; `is_src`: it is the src-origin.
pub fn entry_admits(
    s: &[u8],
    e: TextRange,
    bare: Bare,
    is_self: bool,
    is_src: bool,
    t: &[u8],
    o: OriginRange,
) -> bool
    ensures { result ≡ list_admits (entry_list (bare_in bare) (words_in s.now e)) is_self is_src (origin_in t.now o) }
{
    let list = e.of(s);
    match next_word(list, 0) {
        Some(_) => words_admit(list, is_self, is_src, t, o),
        None => match bare {
            Bare::SelfOrigin => is_self,
            Bare::SrcOrigin => is_src,
        },
    }
}
