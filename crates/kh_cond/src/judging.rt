//! Judging conditions.
ghost use Rattle.std.specs.Prelude.{◌≡◌, not, Some, map, sum, IfOk};
ghost use Rattle.std.specs.Option.{option_copied};
ghost use Rattle.std.specs.List.{list_all, list_any};
ghost use Rattle.kh_regexes.specs.Engine.{Stand};
ghost use Rattle.kh_cond.specs.declared.cond.Cond.{out-Cond};
ghost use Rattle.kh_cond.specs.Holds.{holds, row, is_found};
ghost use Rattle.kh_cond.specs.Texts.{lacking, lacking_regex};

use crate::cond::{Cond, Regex};
use crate::rows::{
    agree, compares, data_match, has_data, has_payload, has_sproc, is_named, name_bytes,
};
use kh_regexes::Patterns;
use kh_term::{NoMemory, NodeView};

/// Whether a condition holds of a node as it is seen, or of a missing one. Its texts have to be prepared. Each part is looked at
/// once at most.
#[cycle(judging)]
#[tactic(auto, using(crate::proofs::CondLayers::judging))]
pub fn judge<P: Patterns>(
    cond: &Cond,
    view: Option<&NodeView>,
    patterns: &mut P,
) -> Result<bool, NoMemory>
    requires { lacking (P.texts patterns.old) cond.now ≡ 0 }
    ensures holds { IfOk result (λ b. b ≡ holds P.search (option_copied view.entry) cond.now) }
    ensures engine { Stand (P.texts patterns.old, P.refusals patterns.old, P.refused patterns.old)
        (P.texts patterns.new, P.refusals patterns.new, P.refused patterns.new) }
{
    match cond {
        Cond::NodeExists(exists) => Ok(agree(*exists, view.is_some())),
        Cond::Not(part) => Ok(!judge(part.get(), view, patterns)?),
        Cond::All(parts) => Ok(all_hold(parts.as_slice(), view, patterns)?),
        Cond::Any(parts) => Ok(any_holds(parts.as_slice(), view, patterns)?),
        Cond::Name(_)
        | Cond::NameMatches(_)
        | Cond::PathMatches(_)
        | Cond::HasPayload(_)
        | Cond::HasData(_)
        | Cond::HasSproc(_)
        | Cond::DataMatches(_)
        | Cond::PayloadVersion(_)
        | Cond::ChildListVersion(_)
        | Cond::ChildListLength(_) => match view {
            Some(view) => judge_row(cond, view, patterns),
            None => Ok(false),
        },
    }
}

#[cycle(judging)]
#[tactic(auto, using(crate::proofs::CondLayers::judging))]
fn all_hold<P: Patterns>(
    parts: &[Cond],
    view: Option<&NodeView>,
    patterns: &mut P,
) -> Result<bool, NoMemory>
    requires { sum (map (lacking (P.texts patterns.old)) parts.now) ≡ 0 }
    ensures holds { IfOk result (λ b.
        b ≡ list_all (holds P.search (option_copied view.entry)) parts.now) }
    ensures engine { Stand (P.texts patterns.old, P.refusals patterns.old, P.refused patterns.old)
        (P.texts patterns.new, P.refusals patterns.new, P.refused patterns.new) }
{
    for part in parts {
        if !judge(part, view, patterns)? {
            return Ok(false);
        }
    }
    Ok(true)
}

#[cycle(judging)]
#[tactic(auto, using(crate::proofs::CondLayers::judging))]
fn any_holds<P: Patterns>(
    parts: &[Cond],
    view: Option<&NodeView>,
    patterns: &mut P,
) -> Result<bool, NoMemory>
    requires { sum (map (lacking (P.texts patterns.old)) parts.now) ≡ 0 }
    ensures holds { IfOk result (λ b.
        b ≡ list_any (holds P.search (option_copied view.entry)) parts.now) }
    ensures engine { Stand (P.texts patterns.old, P.refusals patterns.old, P.refused patterns.old)
        (P.texts patterns.new, P.refusals patterns.new, P.refused patterns.new) }
{
    for part in parts {
        if judge(part, view, patterns)? {
            return Ok(true);
        }
    }
    Ok(false)
}

// What a condition on a node itself says of one that exists.
#[tactic(auto, using(crate::proofs::CondLayers::judging))]
fn judge_row<P: Patterns>(cond: &Cond, view: &NodeView, patterns: &mut P) -> Result<bool, NoMemory>
    requires { lacking (P.texts patterns.old) cond.now ≡ 0 }
    ensures holds { IfOk result (λ b. b ≡ row P.search view.now (out-Cond cond.now)) }
    ensures engine { Stand (P.texts patterns.old, P.refusals patterns.old, P.refused patterns.old)
        (P.texts patterns.new, P.refusals patterns.new, P.refused patterns.new) }
{
    match cond {
        Cond::Name(name) => Ok(is_named(name, &view.name)),
        Cond::NameMatches(regex) => is_found(regex, name_bytes(&view.name), patterns),
        Cond::HasPayload(has) => Ok(agree(*has, has_payload(view.payload))),
        Cond::HasData(has) => Ok(agree(*has, has_data(view.payload))),
        Cond::HasSproc(has) => Ok(agree(*has, has_sproc(view.payload))),
        Cond::DataMatches(pattern) => Ok(data_match(pattern, &view.datum)),
        Cond::PayloadVersion(comparison) => Ok(compares(*comparison, view.payload_version)),
        Cond::ChildListVersion(comparison) => Ok(compares(*comparison, view.child_list_version)),
        Cond::ChildListLength(comparison) => Ok(compares(*comparison, view.children)),
        Cond::PathMatches(_) | Cond::NodeExists(_) | Cond::Not(_) | Cond::All(_) | Cond::Any(_) =>
            Ok(false),
    }
}

/// Whether a regular expression is found in bytes. Its text has to be prepared.
#[tactic(auto, using(crate::proofs::Known::known))]
pub fn is_found<P: Patterns>(
    regex: &Regex,
    bytes: &[u8],
    patterns: &mut P,
) -> Result<bool, NoMemory>
    requires { lacking_regex (P.texts patterns.old) regex.now ≡ 0 }
    ensures found { IfOk result (λ b. b ≡ is_found P.search regex.now bytes.now) }
    ensures engine { Stand (P.texts patterns.old, P.refusals patterns.old, P.refused patterns.old)
        (P.texts patterns.new, P.refusals patterns.new, P.refused patterns.new) }
{
    match regex {
        Regex::Any => Ok(true),
        Regex::Text(text) => match patterns.find(text.as_str()) {
            Some(id) => patterns.matches(id, bytes),
            None => unreachable!(),
        },
    }
}
