//! The laws of references. The functions do nothing: their contracts are facts.
ghost use Rattle.std.specs.Prelude.{ℕ};
ghost use Rattle.cdr_codec.specs.declared.faults.CdrWhy.TheVariants as causes;
ghost use Rattle.cdr_codec.specs.Laws.{IsCodec, RefusesExactly, ReadsBack};
ghost use Rattle.iogr_reference.specs.Choices.{IdsNameNames, KeysNameGroups};
ghost use Rattle.iogr_reference.specs.Formats.{profile, profiles, ior, components_at, iiop, group_tag};
ghost use Rattle.iogr_reference.specs.Laws.{ViewsAreNamed, ViewsAreRead, TextsAreSpelled, TextsAreRead};

/// What is read is spelled there, what is spelled is read, and `Short` comes before the other causes.
pub fn references_are_codecs()
    ensures each_profile { IsCodec causes.Short profile }
    ensures all_profiles { IsCodec causes.Short profiles }
    ensures references { IsCodec causes.Short ior }
    ensures components { (minor : ℕ) → IsCodec causes.Short (components_at minor) }
    ensures iiop_profiles { IsCodec causes.Short iiop }
    ensures group_components { IsCodec causes.Short group_tag }
{}

/// A read is refused exactly where nothing is spelled.
pub fn references_are_refused_exactly()
    ensures each_profile { RefusesExactly profile }
    ensures all_profiles { RefusesExactly profiles }
    ensures references { RefusesExactly ior }
    ensures components { (minor : ℕ) → RefusesExactly (components_at minor) }
    ensures iiop_profiles { RefusesExactly iiop }
    ensures group_components { RefusesExactly group_tag }
{}

/// What is written is read again, whatever follows.
pub fn references_are_read_back()
    ensures each_profile { ReadsBack profile }
    ensures all_profiles { ReadsBack profiles }
    ensures references { ReadsBack ior }
    ensures components { (minor : ℕ) → ReadsBack (components_at minor) }
    ensures iiop_profiles { ReadsBack iiop }
    ensures group_components { ReadsBack group_tag }
{}

/// From the reference of a view with members come the view's group, version, members and primary.
pub fn views_are_named()
    ensures named { ViewsAreNamed }
    ensures read { ViewsAreRead }
{}

/// The text of a reference spells that reference and no other.
pub fn texts_are_read()
    ensures spelled { TextsAreSpelled }
    ensures read { TextsAreRead }
{}

/// Each group's number is read from its object key, and no other key reads as a number.
pub fn keys_name_groups()
    ensures { KeysNameGroups }
{}

/// The repository id of a name is that of no other, and is read as that name.
#[tactic(auto, using(crate::proofs::IdLaws::ids_name_names))]
pub fn ids_name_names()
    ensures { IdsNameNames }
{}
