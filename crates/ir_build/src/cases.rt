//! The steps that choose a group of a `switch`.

ghost use Rattle.std.specs.Prelude.{◌≡◌, ◌+◌, [], ◌∷◌, ◌++◌, length, map, IfOk, OnOk};
ghost use Rattle.c_meaning.specs.Statements.{has_default};
ghost use Rattle.ir_gen.specs.Body as spec;
ghost use Rattle.ir_build.specs.Grouping.{grouped};

use crate::emit::{further, put};
use crate::stmt_sizes::stmts_count;
use base16::{IntType, NoMemory, Sequence};
use core_tree::{Group, Slot, Struct};
use ir::{Step, StepKind};

/// A step for a label, if it is a number.
fn label_step(
    code: &mut Sequence<Step>,
    node: u32,
    of: IntType,
    to: u32,
    label: Option<i64>,
) -> Result<(), NoMemory>
    ensures steps { OnOk result (code.new ≡ code.old ++ spec.label_cases node of to (label ∷ [])) }
    ensures size { OnOk result (length code.new ≡ length code.old + spec.label_count (label ∷ [])) }
{
    match label {
        None => Ok(()),
        Some(value) => {
            let step = StepKind::Case {
                depth: 0,
                of,
                value,
                to,
            };
            put(code, node, step)?;
            Ok(())
        }
    }
}

/// A step for each label of a group that begins at a place.
#[tactic(auto, using(crate::proofs::StmtTurns::label_cases_turn, crate::proofs::StmtTurns::label_count_turn))]
fn label_steps(
    code: &mut Sequence<Step>,
    node: u32,
    of: IntType,
    to: u32,
    labels: &[Option<i64>],
) -> Result<(), NoMemory>
    ensures steps { OnOk result (code.new ≡ code.old ++ spec.label_cases node of to labels.now) }
    ensures size { OnOk result (length code.new ≡ length code.old + spec.label_count labels.now) }
{
    for label in labels {
        label_step(code, node, of, to, *label)?;
    }
    Ok(())
}

/// A step for each label of the groups, the first of which begins at a place.
#[tactic(auto, using(crate::proofs::StmtTurns::cases_turn, crate::proofs::StmtTurns::case_count_turn))]
pub fn case_steps(
    code: &mut Sequence<Step>,
    structs: &[Struct],
    objects: &[Sequence<Slot>],
    node: u32,
    of: IntType,
    start: u32,
    groups: &[Group],
) -> Result<(), NoMemory>
    ensures steps { OnOk result (code.new
        ≡ code.old ++ spec.cases node of start (map (grouped structs.now objects.now) groups.now)) }
    ensures size { OnOk result (length code.new
        ≡ length code.old + spec.case_count (map (grouped structs.now objects.now) groups.now)) }
{
    let mut to = start;
    for group in groups {
        label_steps(code, node, of, to, group.labels.as_slice())?;
        to = further(to, stmts_count(structs, objects, group.body.as_slice())?)?;
    }
    Ok(())
}

/// Whether `default` is among labels.
#[tactic(auto, using(crate::proofs::StmtTurns::default_turn))]
fn with_default(labels: &[Option<i64>]) -> bool
    ensures { result ≡ has_default labels.now }
{
    for label in labels {
        if label.is_none() {
            return true;
        }
    }
    false
}

/// Where the group with `default` begins, if the first group begins at a place; else what is behind all groups.
#[tactic(auto, using(crate::proofs::StmtTurns::place_turn))]
pub fn default_place(
    structs: &[Struct],
    objects: &[Sequence<Slot>],
    start: u32,
    groups: &[Group],
) -> Result<u32, NoMemory>
    ensures { IfOk result (λ place. place ≡ spec.place_of has_default start (map (grouped structs.now objects.now) groups.now)) }
{
    let mut place = start;
    for group in groups {
        if with_default(group.labels.as_slice()) {
            return Ok(place);
        }
        place = further(place, stmts_count(structs, objects, group.body.as_slice())?)?;
    }
    Ok(place)
}
