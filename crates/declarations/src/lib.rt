// What the items of a header mean in an allowlist.
#![tactic(auto)]

ghost use Rattle.std.specs.Prelude.{◌≡◌};
ghost use Rattle.items.specs.Found.{item_in};
ghost use Rattle.allowlists.specs.Answers.{meaning_as};
ghost use Rattle.declarations.specs.Declarations.{token_meaning, item_meaning};

use allowlists::MeaningRange;
use items::{ItemKind, ItemRange};

// What a token means.
fn token_meaning(t: &[u8]) -> Option<MeaningRange>
    ensures { result ≡ meaning_as (token_meaning t.now) }
{
    if ascii::same(t, b"*") {
        Some(MeaningRange::All)
    } else if ascii::same(t, b"self") {
        Some(MeaningRange::SelfOrigin)
    } else {
        None
    }
}

// What an item of a header means; an expression's host is a range of the item's text.
pub fn meaning(s: &[u8], item: ItemRange) -> Option<MeaningRange>
    ensures { result ≡ meaning_as (item_meaning (item_in s.now item)) }
{
    let t = item.text.of(s);
    match item.kind {
        ItemKind::Token => token_meaning(t),
        ItemKind::String => allowlists::source_meaning(t),
        ItemKind::Other => None,
    }
}
