// Value, inherited and question of a feature, told what the lists answer; and the decisions of the seventeen features as one number.
#![tactic(auto)]

ghost use Rattle.std.specs.Prelude.{◌≡◌, ◌<◌, ◌^◌, ℕ};
ghost use Rattle.features.specs.Features.{feature_count};
ghost use Rattle.decisions.specs.Decisions.{Decision as Rule};
ghost use Rattle.decisions.specs.declared.Decision.{Decision};
ghost use Rattle.features.specs.Answers.{default_in};
ghost use Rattle.decisions.specs.Decisions.{decided, by_list, by_default, value_by, inherited_by, question_by};
ghost use Rattle.decisions.specs.Masks.{mask_of, decision_at};
ghost use Rattle.decisions.specs.Answers.{decision_in, decisions_in};

use features::DefaultAllowlist;

// A bit for each of the seventeen features: what a document at the top inherits.
pub const ALL_FEATURES: u32 = 131_071;

#[derive(Clone, Copy, PartialEq, Eq)]
pub enum Decision {
    Disabled,
    Enabled,
}

// Enabled where a test passes.
#[tactic(auto, unfolding(crate::specs::Decisions::decided))]
fn decided(yes: bool) -> Decision
    ensures { decision_in result ≡ decided yes }
{
    if yes {
        Decision::Enabled
    } else {
        Decision::Disabled
    }
}

// By what a list answers, and without a list another decision.
#[tactic(auto, unfolding(crate::specs::Decisions::by_list))]
fn by_list(admitted: Option<bool>, other: Decision) -> Decision
    ensures { decision_in result ≡ by_list admitted (decision_in other) }
{
    admitted.map_or(other, decided)
}

// By the default list; `same`: the origin is the own one.
#[tactic(auto, unfolding(crate::specs::Decisions::by_default, crate::specs::Decisions::decided))]
fn by_default(default: Option<DefaultAllowlist>, same: bool) -> Decision
    ensures { decision_in result ≡ by_default (default_in default) same }
{
    decided(same || default == Some(DefaultAllowlist::All))
}

// The value of a feature in a document for an origin: by what is inherited, and by what the declared list answers for that origin.
#[tactic(auto, unfolding(crate::specs::Decisions::value_by, crate::specs::Decisions::unless_disabled))]
pub fn value(inherited: Decision, declared: Option<bool>) -> Decision
    ensures { decision_in result ≡ value_by (decision_in inherited) declared }
{
    match inherited {
        Decision::Disabled => Decision::Disabled,
        Decision::Enabled => by_list(declared, Decision::Enabled),
    }
}

// What decides about a framed document: the container's values for its own and for the arriving origin, what the frame's list
// answers for the arriving origin, the feature's default, and whether the arriving origin is the container's own.
#[derive(Clone, Copy)]
pub struct Framed {
    pub value_own: Decision,
    pub value_arriving: Decision,
    pub allowed: Option<bool>,
    pub default: Option<DefaultAllowlist>,
    pub same: bool,
}

// What a framed document inherits for a feature.
#[tactic(auto, unfolding(crate::specs::Decisions::inherited_by, crate::specs::Decisions::unless_disabled))]
pub fn inherited(f: Framed) -> Decision
    ensures { decision_in result ≡ inherited_by (decision_in f.value_own) (decision_in f.value_arriving) f.allowed (default_in f.default) f.same }
{
    let own = f.value_own;
    match (own, f.value_arriving) {
        (Decision::Enabled, Decision::Enabled) => by_list(f.allowed, by_default(f.default, f.same)),
        _ => Decision::Disabled,
    }
}

// The question of a feature in a document for an origin; `same`: it is the document's own.
#[tactic(auto, unfolding(crate::specs::Decisions::question_by, crate::specs::Decisions::unless_disabled))]
pub fn question(
    inherited: Decision,
    declared: Option<bool>,
    default: Option<DefaultAllowlist>,
    same: bool,
) -> Decision
    ensures { decision_in result ≡ question_by (decision_in inherited) declared (default_in default) same }
{
    match inherited {
        Decision::Disabled => Decision::Disabled, // whatever the header declares
        Decision::Enabled => by_list(declared, by_default(default, same)),
    }
}

// The decisions of the seventeen features as one number: bit n for feature n, and no other bit.
pub fn mask(decisions: [Decision; features::COUNT]) -> u32
    ensures { result ≡ mask_of (decisions_in decisions) }
{
    mask_by(
        |n: u32|
            requires { n < feature_count }
        { decisions[n as usize] },
    )
}

// The same of what decides about each feature.
pub fn mask_by<F: Fn(u32) -> Decision>(decide: F) -> u32
    requires { (n : ℕ) → n < feature_count → F.pre decide n }
    ensures bits { (p : ℕ → Rule) → ((n : ℕ) (d : Decision) → n < feature_count → F.post decide n d → decision_in d ≡ p n) → result ≡ mask_of p }
    ensures no_other { result < 2 ^ feature_count }
{
    let mut r: u32 = 0;
    for n in 0..features::COUNT as u32 {
        match decide(n) {
            Decision::Enabled => r |= 1 << n,
            Decision::Disabled => {}
        }
    }
    r
}

// The decision of bit n in a number: Enabled where it is set; a number has no bit past 31.
#[tactic(auto, unfolding(crate::specs::Masks::decision_at), using(crate::proofs::Masks::bits))]
pub fn decision_at(mask: u32, n: u32) -> Decision
    ensures { decision_in result ≡ decision_at mask n }
{
    if n < 32 {
        decided((mask >> n) % 2 == 1)
    } else {
        Decision::Disabled
    }
}
