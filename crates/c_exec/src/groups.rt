//! Which groups of a switch are run (C99 6.8.4.2).

ghost use Rattle.std.specs.Prelude.{◌≡◌, ◌≤◌, drop, length};
ghost use Rattle.c_meaning.specs.Statements as spec;
ghost use Rattle.c_exec.specs.Groups.{chosen as chosen_groups, groups_from};

use core_tree::Group;

/// Whether a value has its case among labels.
fn has_case(value: i64, labels: &[Option<i64>]) -> bool
    ensures { result ≡ spec.has_case value labels.now }
{
    for label in labels {
        if let Some(of) = label {
            if *of == value {
                return true;
            }
        }
    }
    false
}

/// Whether `default` is among labels.
fn has_default(labels: &[Option<i64>]) -> bool
    ensures { result ≡ spec.has_default labels.now }
{
    for label in labels {
        if label.is_none() {
            return true;
        }
    }
    false
}

/// The first group that has a case of a value, or the number of all.
#[tactic(auto, using(crate::proofs::Choices::from_turn, crate::proofs::Choices::from_end))]
fn with_case(value: i64, groups: &[Group]) -> usize
    ensures within { result ≤ length groups.now }
    ensures first { groups_from (spec.has_case value) groups.now ≡ drop result groups.now }
{
    for (at, group) in groups.iter().enumerate() {
        if has_case(value, group.labels.as_slice()) {
            return at;
        }
    }
    groups.len()
}

/// The first group that has `default`, or the number of all.
#[tactic(auto, using(crate::proofs::Choices::from_turn, crate::proofs::Choices::from_end))]
fn with_default(groups: &[Group]) -> usize
    ensures within { result ≤ length groups.now }
    ensures first { groups_from spec.has_default groups.now ≡ drop result groups.now }
{
    for (at, group) in groups.iter().enumerate() {
        if has_default(group.labels.as_slice()) {
            return at;
        }
    }
    groups.len()
}

/// The first group that a switch runs, or the number of all.
#[tactic(auto, using(crate::proofs::Choices::chosen_default))]
pub fn chosen(value: i64, groups: &[Group]) -> usize
    ensures within { result ≤ length groups.now }
    ensures first { chosen_groups value groups.now ≡ drop result groups.now }
{
    let at = with_case(value, groups);
    if at < groups.len() {
        at
    } else {
        with_default(groups)
    }
}
