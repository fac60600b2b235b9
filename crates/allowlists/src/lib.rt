// Allowlists: what an item or a word means in one, and whether it admits an origin.
#![tactic(auto)]

ghost use Rattle.std.specs.Prelude.{◌≡◌};
ghost use Rattle.std.specs.Prelude.{Some};
ghost use Rattle.origins.specs.Answers.{origin_in};
ghost use Rattle.origins.specs.Expressions.{expression_of};
ghost use Rattle.allowlists.specs.Allowlists.{source_meaning, meaning_admits};
ghost use Rattle.allowlists.specs.Answers.{meaning_as, meaning_in};

use origins::{ExpressionRange, OriginRange};

// What an item or a word means in an allowlist; an expression's host is a range of its text.
#[derive(Clone, Copy)]
pub enum MeaningRange {
    // `*`
    All,
    SelfOrigin,
    SrcOrigin,
    Source(ExpressionRange),
}

// What a text means that may be an expression.
pub fn source_meaning(t: &[u8]) -> Option<MeaningRange>
    ensures { result ≡ meaning_as (source_meaning (expression_of t.now)) }
{
    let e = origins::expression(t)?;
    Some(MeaningRange::Source(e))
}

// Whether a list of one item or word, whose text is `x`, admits an origin; `is_self`: it is the self-origin; `is_src`: it is the src-origin.
pub fn meaning_admits(
    x: &[u8],
    m: Option<MeaningRange>,
    is_self: bool,
    is_src: bool,
    t: &[u8],
    o: OriginRange,
) -> bool
    ensures { result ≡ meaning_admits (meaning_in x.now m) is_self is_src (origin_in t.now o) }
{
    let Some(meaning) = m else {
        return false;
    };
    match meaning {
        MeaningRange::All => true,
        MeaningRange::SelfOrigin => is_self,
        MeaningRange::SrcOrigin => is_src,
        MeaningRange::Source(e) => origins::admits(x, e, t, o),
    }
}
